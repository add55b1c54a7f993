// Decoding within half the checks.
ghost use Rattle.std.specs.Prelude.{◌≡◌, ℕ, ◌/◌, ◌<◌, ◌≤◌, false, length, None, IfSome};
ghost use Rattle.reed_solomon_theory.specs.Promise.{Decoded};
ghost use Rattle.reed_solomon.specs.Errors.{Corrects};
ghost use Rattle.reed_solomon.specs.Words.{at};

use crate::checks::{add_word, all_zero};
use crate::errors::{SymbolError, errors_of, roots_of, take_errors};
use crate::locator::locator;
use arrayvec::ArrayVec;
use field::Field;

// The errors in the word, if there is a code word that differs from it in at most half as many seats as there are checks.
pub(crate) fn errors_in<F: Field>(
    field: &F,
    checks: usize,
    word: &[u8],
) -> Option<ArrayVec<SymbolError, 4>>
    requires some { 0 < checks }
    requires few { checks ≤ 8 }
    requires seats { length word.now ≤ (F.Field.model field.now).order }
    requires codes { (i : ℕ) → i < length word.now → at word.now i < (F.Field.model field.now).order }
    ensures found { IfSome result (λ errors. Corrects (F.Field.model field.now) (length word.now) checks (at word.now) errors.items) }
    ensures none { result ≡ None → Decoded (F.Field.model field.now) (length word.now) checks (checks / 2) (at word.now) (at word.now) false }
{
    let mut sums = [0; 8];
    add_word(field, word, &mut sums[..checks]);
    if all_zero(&sums[..checks]) {
        return Some(ArrayVec::new());
    }
    let row = locator(field, &sums, checks / 2);
    let seats = roots_of(field, &row, word.len());
    let errors = errors_of(field, &seats, &sums);
    take_errors(field, &errors, &mut sums[..checks]);
    all_zero(&sums[..checks]).then_some(errors)
}
