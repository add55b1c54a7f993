// A struct with an invariant stands in a file of its own: the invariant sees every import of its file.
ghost use Rattle.std.specs.Prelude.{◌≤◌};

// The base of the digits of a number: the order of a field, at most 256, so that a digit is a byte.
#[derive(Clone, Copy, PartialEq, Eq, Debug)]
pub struct Base {
    pub(crate) q: usize,
    ghost small: { q ≤ 256 },
}
