// Binary fields of order 4, 8 and 16: polynomials over two elements, modulo x² + x + 1, x³ + x + 1 and x⁴ + x + 1.
#![tactic(auto)]

ghost use Rattle.field.specs.Defined.{among, defined_field};
ghost use Rattle.field.specs.Made.{MadeOrRefused};
ghost use Rattle.field.specs.Model.{as_code};
ghost use Rattle.std.specs.Prelude.{◌≡◌};
ghost use Rattle.binary_field.specs.Orders.{order_of, small_orders};
ghost use Rattle.binary_field.specs.Tables;

use field::{Field, read_code};
use refusal::Refusal;

// A binary field, by its order.
#[derive(Clone, Copy, PartialEq, Eq, Debug)]
pub enum BinaryField {
    Of4,
    Of8,
    Of16,
}

// The field of order 4, 8 or 16; any other order is refused.
impl TryFrom<usize> for BinaryField {
    type Error = Refusal;

    ghost try_from_gives = { MadeOrRefused order_of (λ q. among q small_orders) };

    fn try_from(order: usize) -> Result<BinaryField, Refusal> {
        match order {
            4 => Ok(BinaryField::Of4),
            8 => Ok(BinaryField::Of8),
            16 => Ok(BinaryField::Of16),
            _ => Err(Refusal::FieldOrder),
        }
    }
}

impl BinaryField {
    // The code that a byte stands for.
    fn read(&self, a: u8) -> u8
        ensures { result ≡ as_code (order_of self.now) a }
    {
        read_code(self.order(), a)
    }
}

impl Field for BinaryField {
    ghost model = { λ f. defined_field (order_of f) };

    ghost lawful = { Tables.lawful };

    fn order(&self) -> usize {
        match self {
            BinaryField::Of4 => 4,
            BinaryField::Of8 => 8,
            BinaryField::Of16 => 16,
        }
    }

    fn sum(&self, a: u8, b: u8) -> u8 {
        self.read(a) ^ self.read(b)
    }

    // In a binary field each element is its own negative.
    fn negative(&self, a: u8) -> u8 {
        self.read(a)
    }

    fn product(&self, a: u8, b: u8) -> u8 {
        let x = self.read(a) as usize;
        let y = self.read(b) as usize;
        match self {
            BinaryField::Of4 => PRODUCTS4[x * 4 + y],
            BinaryField::Of8 => PRODUCTS8[x * 8 + y],
            BinaryField::Of16 => PRODUCTS16[x * 16 + y],
        }
    }

    fn inverse(&self, a: u8) -> Option<u8> {
        let x = self.read(a) as usize;
        if x == 0 {
            return None;
        }
        Some(match self {
            BinaryField::Of4 => INVERSES4[x],
            BinaryField::Of8 => INVERSES8[x],
            BinaryField::Of16 => INVERSES16[x],
        })
    }
}

// Entry a * q + b is the product of a and b in the field of order q.
const PRODUCTS4: [u8; 16] = [0, 0, 0, 0, 0, 1, 2, 3, 0, 2, 3, 1, 0, 3, 1, 2];

const PRODUCTS8: [u8; 64] = [
    0, 0, 0, 0, 0, 0, 0, 0, 0, 1, 2, 3, 4, 5, 6, 7, 0, 2, 4, 6, 3, 1, 7, 5, 0, 3, 6, 5, 7, 4, 1, 2,
    0, 4, 3, 7, 6, 2, 5, 1, 0, 5, 1, 4, 2, 7, 3, 6, 0, 6, 7, 1, 5, 3, 2, 4, 0, 7, 5, 2, 1, 6, 4, 3,
];

const PRODUCTS16: [u8; 256] = [
    0, 0, 0, 0, 0, 0, 0, 0, 0, 0, 0, 0, 0, 0, 0, 0, 0, 1, 2, 3, 4, 5, 6, 7, 8, 9, 10, 11, 12, 13,
    14, 15, 0, 2, 4, 6, 8, 10, 12, 14, 3, 1, 7, 5, 11, 9, 15, 13, 0, 3, 6, 5, 12, 15, 10, 9, 11, 8,
    13, 14, 7, 4, 1, 2, 0, 4, 8, 12, 3, 7, 11, 15, 6, 2, 14, 10, 5, 1, 13, 9, 0, 5, 10, 15, 7, 2,
    13, 8, 14, 11, 4, 1, 9, 12, 3, 6, 0, 6, 12, 10, 11, 13, 7, 1, 5, 3, 9, 15, 14, 8, 2, 4, 0, 7,
    14, 9, 15, 8, 1, 6, 13, 10, 3, 4, 2, 5, 12, 11, 0, 8, 3, 11, 6, 14, 5, 13, 12, 4, 15, 7, 10, 2,
    9, 1, 0, 9, 1, 8, 2, 11, 3, 10, 4, 13, 5, 12, 6, 15, 7, 14, 0, 10, 7, 13, 14, 4, 9, 3, 15, 5,
    8, 2, 1, 11, 6, 12, 0, 11, 5, 14, 10, 1, 15, 4, 7, 12, 2, 9, 13, 6, 8, 3, 0, 12, 11, 7, 5, 9,
    14, 2, 10, 6, 1, 13, 15, 3, 4, 8, 0, 13, 9, 4, 1, 12, 8, 5, 2, 15, 11, 6, 3, 14, 10, 7, 0, 14,
    15, 1, 13, 3, 2, 12, 9, 7, 6, 8, 4, 10, 11, 5, 0, 15, 13, 2, 9, 6, 4, 11, 1, 14, 12, 3, 8, 7,
    5, 10,
];

// Entry a is the inverse of a, and entry 0 is 0.
const INVERSES4: [u8; 4] = [0, 1, 3, 2];

const INVERSES8: [u8; 8] = [0, 1, 5, 6, 7, 2, 3, 4];

const INVERSES16: [u8; 16] = [0, 1, 9, 14, 13, 11, 7, 6, 15, 2, 12, 5, 10, 4, 3, 8];
