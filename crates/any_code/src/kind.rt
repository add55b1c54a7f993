// A struct with an invariant stands in a file of its own: the invariant sees every import of its file.
ghost use Rattle.std.specs.Prelude.{◌≡◌};
ghost use Rattle.any_field.specs.Orders.{order_of};

use any_field::AnyField;
use bch::Bch;

// A BCH code beside the field of its symbols, which is chosen at run time like any other.
#[derive(Clone, Copy, PartialEq, Eq, Debug)]
pub struct BchOverAny {
    pub(crate) code: Bch,
    pub(crate) field: AnyField,
    ghost two: { order_of field ≡ 2 },
}
