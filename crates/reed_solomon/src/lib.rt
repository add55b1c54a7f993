// Extended Reed-Solomon codes over any field.
#![tactic(auto)]

ghost use Rattle.std.specs.Prelude.{◌≡◌, cond, IfOk};
ghost use Rattle.component.specs.Checks.{standing};
ghost use Rattle.refusal.specs.Given.{GivenOrRefused};
ghost use Rattle.reed_solomon.specs.Model.{reed_solomon, within_limits};
ghost use Rattle.reed_solomon.specs.Meaning;

use component::{ComponentCode, Decoding, checked};
use field::Field;
use refusal::Refusal;

mod checks;
mod decoder;
mod errors;
mod locator;

use checks::raise;
use decoder::errors_in;
use errors::correct;

// The code of `size` symbols and `checks` checks. Seat i has the locator i, a code of the field, and check j has at a seat
// the locator's power j. It has 1 to as many symbols as the field has codes, and 1 to 8 checks, no more than symbols;
// with other numbers it is no code: it has no symbols and no checks.
#[derive(Drop)]
pub struct ReedSolomon<F> {
    field: F,
    size: usize,
    checks: usize,
}

// Whether the numbers are within the limits in a field of this order.
fn within_limits(order: usize, size: usize, checks: usize) -> bool
    ensures { result ≡ within_limits order size checks }
{
    0 < size && size <= order && 0 < checks && checks <= 8 && checks <= size
}

impl<F: Field> ReedSolomon<F> {
    // A code with any numbers.
    pub fn over(field: F, size: usize, checks: usize) -> ReedSolomon<F>
        ensures field { result.field ≡ field }
        ensures size { result.size ≡ size }
        ensures checks { result.checks ≡ checks }
    {
        ReedSolomon {
            field,
            size,
            checks,
        }
    }

    // A number of the code: 0 where there is no code.
    fn counted(&self, number: usize) -> usize
        ensures { result ≡ cond (within_limits (F.Field.model self.now.field).order self.now.size self.now.checks) number 0 }
    {
        if self.fits() { number } else { 0 }
    }
}

impl<F: Field + Drop> ReedSolomon<F> {
    // A code within the limits over a field of a listed order. Refused with 1 or 3.
    pub fn new(field: F, size: usize, checks: usize) -> Result<ReedSolomon<F>, Refusal>
        ensures answer { GivenOrRefused (standing (reed_solomon (F.Field.model field) size checks)) (λ c. c.field ≡ field) result }
        ensures size { IfOk result (λ c. c.size ≡ size) }
        ensures checks { IfOk result (λ c. c.checks ≡ checks) }
    {
        checked(ReedSolomon::over(field, size, checks))
    }
}

impl<F: Field> ComponentCode for ReedSolomon<F> {
    type F = F;

    ghost model = { λ s. reed_solomon (F.Field.model s.field) s.size s.checks };

    ghost lawful = { λ s. Meaning.lawful (F.Field.model s.field) (F.Field.lawful s.field) s.size s.checks };

    fn field(&self) -> &F {
        &self.field
    }

    fn length(&self) -> usize {
        self.counted(self.size)
    }

    fn checks(&self) -> usize {
        self.counted(self.checks)
    }

    fn radius(&self) -> usize {
        self.counted(self.checks / 2)
    }

    fn fits(&self) -> bool {
        within_limits(self.field.order(), self.size, self.checks)
    }

    fn coefficient(&self, check: usize, seat: usize) -> u8 {
        if check < self.checks() && seat < self.length() {
            raise(&self.field, seat as u8, check)
        } else {
            0
        }
    }

    fn settle(&self, word: &mut [u8]) -> Decoding {
        if !self.fits() {
            return Decoding::Settled;
        }
        match errors_in(&self.field, self.checks, word) {
            Some(errors) => {
                correct(&self.field, &errors, word);
                Decoding::Settled
            }
            None => Decoding::Refused,
        }
    }
}
