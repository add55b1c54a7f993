// Prime fields: arithmetic modulo 2, 3, 5, 7, 11 or 13.
#![tactic(auto)]

ghost use Rattle.field.specs.Defined.{among, defined_field, prime_orders};
ghost use Rattle.field.specs.Made.{MadeOrRefused};
ghost use Rattle.field.specs.Model.{as_code};
ghost use Rattle.std.specs.Prelude.{◌≡◌};
ghost use Rattle.field_theory.proofs.Lawful.{prime_lawful};

use field::{Field, read_code};
use refusal::Refusal;

mod kind;

pub use kind::PrimeField;

// The field of a prime order that is listed; any other order is refused.
impl TryFrom<usize> for PrimeField {
    type Error = Refusal;

    ghost try_from_gives = { MadeOrRefused (λ f. f.order) (λ q. among q prime_orders) };

    fn try_from(order: usize) -> Result<PrimeField, Refusal> {
        match order {
            2 | 3 | 5 | 7 | 11 | 13 => Ok(PrimeField { order: order as u8 }),
            _ => Err(Refusal::FieldOrder),
        }
    }
}

impl PrimeField {
    // The code that a byte stands for.
    fn read(&self, a: u8) -> u8
        ensures { result ≡ as_code self.now.order a }
    {
        read_code(self.order(), a)
    }
}

impl Field for PrimeField {
    ghost model = { λ f. defined_field f.order };

    ghost lawful = { λ f. prime_lawful f.order f.prime };

    fn order(&self) -> usize {
        self.order as usize
    }

    fn sum(&self, a: u8, b: u8) -> u8 {
        let q = self.order;
        let s = self.read(a) + self.read(b);
        if s < q { s } else { s - q }
    }

    fn negative(&self, a: u8) -> u8 {
        let x = self.read(a);
        if x == 0 { 0 } else { self.order - x }
    }

    fn product(&self, a: u8, b: u8) -> u8 {
        self.read(a) * self.read(b) % self.order
    }

    fn inverse(&self, a: u8) -> Option<u8> {
        let x = self.read(a);
        if x == 0 {
            None
        } else {
            Some(INVERSES[self.order() * 14 + x as usize])
        }
    }
}

// The inverses of 0 to 13 modulo each prime order, in the row of that order; other rows, and what has no inverse, are 0.
const INVERSES: [u8; 196] = [
    0, 0, 0, 0, 0, 0, 0, 0, 0, 0, 0, 0, 0, 0, 0, 0, 0, 0, 0, 0, 0, 0, 0, 0, 0, 0, 0, 0, 0, 1, 0, 0,
    0, 0, 0, 0, 0, 0, 0, 0, 0, 0, 0, 1, 2, 0, 0, 0, 0, 0, 0, 0, 0, 0, 0, 0, 0, 0, 0, 0, 0, 0, 0, 0,
    0, 0, 0, 0, 0, 0, 0, 1, 3, 2, 4, 0, 0, 0, 0, 0, 0, 0, 0, 0, 0, 0, 0, 0, 0, 0, 0, 0, 0, 0, 0, 0,
    0, 0, 0, 1, 4, 5, 2, 3, 6, 0, 0, 0, 0, 0, 0, 0, 0, 0, 0, 0, 0, 0, 0, 0, 0, 0, 0, 0, 0, 0, 0, 0,
    0, 0, 0, 0, 0, 0, 0, 0, 0, 0, 0, 0, 0, 0, 0, 0, 0, 0, 0, 0, 0, 0, 0, 0, 0, 0, 0, 1, 6, 4, 3, 9,
    2, 8, 7, 5, 10, 0, 0, 0, 0, 0, 0, 0, 0, 0, 0, 0, 0, 0, 0, 0, 0, 0, 0, 1, 7, 9, 10, 8, 11, 2, 5,
    3, 4, 6, 12, 0,
];
