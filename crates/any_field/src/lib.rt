// A field of any listed order, chosen at run time: an enum over the kinds of fields, which is a field itself.
#![tactic(auto)]

ghost use Rattle.field.specs.Defined.{defined_field, listed};
ghost use Rattle.any_field.specs.Orders.{order_of};
ghost use Rattle.field.specs.Made.{MadeOrRefused};
ghost use Rattle.any_field.specs.Lawful.{field_lawful};

use binary_field::BinaryField;
use field::Field;
use field256::Field256;
use prime_field::PrimeField;
use refusal::Refusal;

#[derive(Clone, Copy, PartialEq, Eq, Debug)]
pub enum AnyField {
    Prime(PrimeField),
    Binary(BinaryField),
    Of256(Field256),
}

// What the field answers, whatever its kind.
macro_rules! ask {
    ($any:expr, $field:ident => $answer:expr) => {
        match $any {
            AnyField::Prime($field) => $answer,
            AnyField::Binary($field) => $answer,
            AnyField::Of256($field) => $answer,
        }
    };
}

// The field of a listed order; any other order is refused.
impl TryFrom<usize> for AnyField {
    type Error = Refusal;

    ghost try_from_gives = { MadeOrRefused order_of listed };

    fn try_from(order: usize) -> Result<AnyField, Refusal> {
        match order {
            4 | 8 | 16 => Ok(AnyField::Binary(BinaryField::try_from(order)?)),
            256 => Ok(AnyField::Of256(Field256)),
            _ => Ok(AnyField::Prime(PrimeField::try_from(order)?)),
        }
    }
}

impl Field for AnyField {
    ghost model = { λ f. defined_field (order_of f) };

    ghost lawful = { field_lawful };

    fn order(&self) -> usize {
        ask!(self, field => field.order())
    }

    fn sum(&self, a: u8, b: u8) -> u8 {
        ask!(self, field => field.sum(a, b))
    }

    fn negative(&self, a: u8) -> u8 {
        ask!(self, field => field.negative(a))
    }

    fn product(&self, a: u8, b: u8) -> u8 {
        ask!(self, field => field.product(a, b))
    }

    fn inverse(&self, a: u8) -> Option<u8> {
        ask!(self, field => field.inverse(a))
    }
}
