// A struct with an invariant stands in a file of its own: the invariant sees every import of its file.
ghost use Rattle.std.specs.Prelude.{◌≡◌};

use prime_field::PrimeField;

// An extended binary BCH code: the field of its symbols, how many seats it has, and its radius.
#[derive(Clone, Copy, PartialEq, Eq, Debug)]
pub struct Bch {
    pub(crate) field: PrimeField,
    pub(crate) size: usize,
    pub(crate) radius: usize,
    ghost two: { field.order ≡ 2 },
}
