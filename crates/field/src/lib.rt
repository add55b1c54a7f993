// The field interface: what the arithmetic of coordinates and symbols is asked for, and what it promises.
#![tactic(auto)]

ghost use Rattle.std.specs.Prelude.{◌≡◌};
ghost use Rattle.field.specs.Defined.{listed};
ghost use Rattle.field.specs.Laws.{FieldLaws};
ghost use Rattle.field.specs.Model.{FieldModel, as_code, inverse, minus, over};

// A commutative field. An element is a code from 0 to the order less 1, and an operand that is no code counts as 0.
pub trait Field {
    ghost model: { Self → FieldModel };

    fn order(&self) -> usize
        ensures { result ≡ (model self.now).order };

    fn sum(&self, a: u8, b: u8) -> u8
        ensures { result ≡ (model self.now).sum a b };

    fn negative(&self, a: u8) -> u8
        ensures { result ≡ (model self.now).neg a };

    fn product(&self, a: u8, b: u8) -> u8
        ensures { result ≡ (model self.now).prod a b };

    // The inverse; that of 0 is absent.
    fn inverse(&self, a: u8) -> Option<u8>
        ensures { result ≡ inverse (model self.now) a };

    ghost lawful: { (s : Self) → FieldLaws (model s) };
}

// Whether a field of this order is listed: 2, 3, 5, 7, 11, 13, 4, 8, 16 or 256. Every call that takes a field refuses other orders.
pub fn is_listed(order: usize) -> bool
    ensures { result ≡ listed order }
{
    matches!(order, 2 | 3 | 5 | 7 | 11 | 13 | 4 | 8 | 16 | 256)
}

// The code that a byte stands for in a field of this order: a byte that is no code counts as 0.
pub fn read_code(order: usize, a: u8) -> u8
    ensures { result ≡ as_code order a }
{
    if (a as usize) < order { a } else { 0 }
}

// The first less the second.
pub fn difference<F: Field>(field: &F, a: u8, b: u8) -> u8
    ensures { result ≡ minus (F.Field.model field.now) a b }
{
    field.sum(a, field.negative(b))
}

// The first over the second, absent where that is 0.
pub fn quotient<F: Field>(field: &F, a: u8, b: u8) -> Option<u8>
    ensures { result ≡ over (F.Field.model field.now) a b }
{
    let v = field.inverse(b)?;
    Some(field.product(a, v))
}
