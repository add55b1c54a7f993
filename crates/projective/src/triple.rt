// Homogeneous coordinates.
ghost use Rattle.std.specs.Prelude.{◌≡◌};
ghost use Rattle.projective.specs.Triples.{x_of, y_of, z_of};

// The coordinates of a point or of a line.
#[derive(Clone, Copy, PartialEq, Eq, Debug)]
pub(crate) enum Triple {
    // (1, y, z)
    Affine(u8, u8),
    // (0, 1, z)
    Ideal(u8),
    // (0, 0, 1)
    Last,
}

impl Triple {
    pub(crate) fn coordinates(self) -> (u8, u8, u8)
        ensures { result ≡ (x_of self, y_of self, z_of self) }
    {
        match self {
            Triple::Affine(y, z) => (1, y, z),
            Triple::Ideal(z) => (0, 1, z),
            Triple::Last => (0, 0, 1),
        }
    }
}
