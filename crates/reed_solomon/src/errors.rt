// The wrong seats, and the errors there.
ghost use Rattle.std.specs.Prelude.{◌≡◌, ℕ, ◌<◌, ◌≤◌, length};
ghost use Rattle.reed_solomon_theory.specs.Code.{Below};
ghost use Rattle.reed_solomon_theory.specs.Decode.{corrected, error, errors, remaining, roots, shed, value};
ghost use Rattle.reed_solomon.specs.Errors.{seats_of, values_of};
ghost use Rattle.reed_solomon.specs.Words.{at};

use crate::checks::add_symbol;
use crate::locator::inverse_or_zero;
use arrayvec::ArrayVec;
use field::{Field, difference};
use std::array;

// A wrong symbol: its seat, and by how much it is more than the right one.
#[derive(Clone, Copy, PartialEq, Eq, Default, Debug)]
pub(crate) struct SymbolError {
    pub(crate) seat: u8,
    pub(crate) value: u8,
}

// The polynomial's value at z, by Horner's rule.
fn value_at<F: Field>(field: &F, row: &[u8], z: u8) -> u8
    ensures { result ≡ value (F.Field.model field.now) row.now z }
{
    row.iter().rev().fold(0, |value, coefficient| {
        field.sum(*coefficient, field.product(z, value))
    })
}

// The seats below n that are roots, from the last to the first.
pub(crate) fn roots_of<F: Field>(field: &F, row: &[u8], n: usize) -> ArrayVec<u8, 4>
    requires seats { n ≤ (F.Field.model field.now).order }
    requires few { length (roots (F.Field.model field.now) n row.now) ≤ 4 }
    ensures { result.items ≡ roots (F.Field.model field.now) n row.now }
{
    let mut found = ArrayVec::new();
    for seat in (0..n).rev() {
        if value_at(field, row, seat as u8) == 0 {
            found.push(seat as u8);
        }
    }
    found
}

// The checks of the word with each symbol times its locator's difference from k.
fn shed_by<F: Field>(field: &F, k: u8, sums: &[u8; 8]) -> [u8; 8]
    ensures { (j : ℕ) → at result j ≡ shed (F.Field.model field.now) k (at sums.now) j }
{
    let factor = field.negative(k);
    array::from_fn(|j| {
        let next = sums.get(j + 1).copied().unwrap_or(0);
        field.sum(next, field.product(factor, sums[j]))
    })
}

// The error at seat m, if no seat but the roots is wrong.
fn error_at<F: Field>(field: &F, seats: &[u8], sums: &[u8; 8], m: u8) -> u8
    ensures { result ≡ error (F.Field.model field.now) seats.now (at sums.now) m }
{
    let mut rest = *sums;
    let mut divisor = 1;
    for seat in seats {
        if *seat != m {
            rest = shed_by(field, *seat, &rest);
            divisor = field.product(difference(field, m, *seat), divisor);
        }
    }
    field.product(rest[0], inverse_or_zero(field, divisor))
}

// The errors at the seats, if no other seat is wrong.
pub(crate) fn errors_of<F: Field>(
    field: &F,
    seats: &[u8],
    sums: &[u8; 8],
) -> ArrayVec<SymbolError, 4>
    requires { length seats.now ≤ 4 }
    ensures seats { seats_of result.items ≡ seats.now }
    ensures values { values_of result.items ≡ errors (F.Field.model field.now) seats.now (at sums.now) }
{
    let mut errors = ArrayVec::new();
    for seat in seats {
        errors.push(SymbolError {
            seat: *seat,
            value: error_at(field, seats, sums, *seat),
        });
    }
    errors
}

// Takes the errors from the checks of the word.
pub(crate) fn take_errors<F: Field>(field: &F, errors: &[SymbolError], sums: &mut [u8])
    ensures { (j : ℕ) → j < length sums.old → at sums.new j
        ≡ remaining (F.Field.model field.now) (seats_of errors.now) (values_of errors.now) (at sums.old) j }
{
    for error in errors {
        add_symbol(field, error.seat, field.negative(error.value), sums);
    }
}

// Takes the errors from the word.
pub(crate) fn correct<F: Field>(field: &F, errors: &[SymbolError], word: &mut [u8])
    requires { Below (length word.old) (seats_of errors.now) }
    ensures { (i : ℕ) → at word.new i
        ≡ corrected (F.Field.model field.now) (seats_of errors.now) (values_of errors.now) (at word.old) i }
{
    for error in errors {
        let seat = error.seat as usize;
        word[seat] = difference(field, word[seat], error.value);
    }
}
