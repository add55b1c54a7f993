// A struct with an invariant stands in a file of its own: the invariant sees every import of its file.
ghost use Rattle.std.specs.Prelude.{T};
ghost use Rattle.field.specs.Defined.{among, prime_orders};

// A prime field, by its order.
#[derive(Clone, Copy, PartialEq, Eq, Debug)]
pub struct PrimeField {
    pub(crate) order: u8,
    ghost prime: { T (among order prime_orders) },
}
