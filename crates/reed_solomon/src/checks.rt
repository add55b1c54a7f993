// The checks of a word.
ghost use Rattle.std.specs.Prelude.{◌≡◌, ℕ, ◌<◌, ◌≤◌, length};
ghost use Rattle.reed_solomon_theory.specs.Code.{power};
ghost use Rattle.reed_solomon_theory.specs.Decode.{Checks, added, passes};
ghost use Rattle.reed_solomon.specs.Words.{at};

use field::Field;

// A code to a power; the zeroth power is 1, also that of 0.
pub(crate) fn raise<F: Field>(field: &F, code: u8, exponent: usize) -> u8
    ensures { result ≡ power (F.Field.model field.now) code exponent }
{
    (0..exponent).fold(1, |power, _| field.product(code, power))
}

// Adds a symbol at a seat to the checks of a word.
#[inline]
pub(crate) fn add_symbol<F: Field>(field: &F, locator: u8, symbol: u8, sums: &mut [u8])
    requires { symbol < (F.Field.model field.now).order }
    ensures { (j : ℕ) → j < length sums.old → at sums.new j ≡ added (F.Field.model field.now) locator symbol (at sums.old) j }
{
    if let Some((last, before)) = sums.split_last_mut() {
        let mut term = symbol;
        for sum in before {
            *sum = field.sum(*sum, term);
            term = field.product(locator, term);
        }
        *last = field.sum(*last, term);
    }
}

// Adds the symbols of a word to checks that are 0.
#[inline]
pub(crate) fn add_word<F: Field>(field: &F, word: &[u8], sums: &mut [u8])
    requires seats { length word.now ≤ (F.Field.model field.now).order }
    requires codes { (i : ℕ) → i < length word.now → at word.now i < (F.Field.model field.now).order }
    requires none { (j : ℕ) → j < length sums.old → at sums.old j ≡ 0 }
    ensures { Checks (F.Field.model field.now) (length word.now) (length sums.old) (at word.now) (at sums.new) }
{
    for (seat, symbol) in word.iter().enumerate() {
        add_symbol(field, seat as u8, *symbol, sums);
    }
}

// Whether all checks are 0.
pub(crate) fn all_zero(sums: &[u8]) -> bool
    ensures { result ≡ passes (length sums.now) (at sums.now) }
{
    sums.iter().all(|sum| *sum == 0)
}
