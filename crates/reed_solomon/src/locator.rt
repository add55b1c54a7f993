// The locator polynomial: its roots are the locators of the wrong seats. A row is a polynomial of degree at most 4, the constant first.
ghost use Rattle.std.specs.Prelude.{◌≡◌, ℕ, ◌+◌, ◌<◌, ◌≤◌, [], not, ◌==◌, map, position, slice_index_or};
ghost use Rattle.reed_solomon_theory.specs.Decode.{Locator, against, reciprocal};
ghost use Rattle.reed_solomon_theory.specs.Elimination.{Basis, cleared};
ghost use Rattle.arrayvec.specs.ArrayVec.{array_vec_len};
ghost use Rattle.reed_solomon.specs.Words.{at};

use arrayvec::ArrayVec;
use field::Field;
use std::array;

// The inverse, and 0 for that of 0.
pub(crate) fn inverse_or_zero<F: Field>(field: &F, a: u8) -> u8
    ensures { result ≡ reciprocal (F.Field.model field.now) a }
{
    field.inverse(a).unwrap_or(0)
}

// A row against checks in order: the sum of each coefficient times the check in its place.
#[inline]
fn against<F: Field>(field: &F, row: &[u8; 5], sums: &[u8; 5]) -> u8
    ensures { result ≡ against (F.Field.model field.now) row.now (at sums.now) 0 }
{
    row.iter().zip(sums).fold(0, |value, (coefficient, sum)| {
        field.sum(value, field.product(*coefficient, *sum))
    })
}

// The row less the multiple of the pivot that makes it 0 against the checks, where the pivot is v.
fn cleared_row<F: Field>(
    field: &F,
    sums: &[u8; 5],
    v: u8,
    pivot: &[u8; 5],
    row: &[u8; 5],
) -> [u8; 5]
    ensures { result ≡ cleared (F.Field.model field.now) (at sums.now) 0 v pivot.now row.now }
{
    let factor = field.negative(field.product(
        against(field, row, sums),
        inverse_or_zero(field, v),
    ));
    array::from_fn(|k| field.sum(row[k], field.product(factor, pivot[k])))
}

// Clears the rows by the pivot.
fn clear<F: Field>(field: &F, sums: &[u8; 5], pivot: &[u8; 5], rows: &mut [[u8; 5]])
    ensures { rows.new ≡ map (cleared (F.Field.model field.now) (at sums.now) 0 (against (F.Field.model field.now) pivot.now (at sums.now) 0) pivot.now) rows.old }
{
    let v = against(field, pivot, sums);
    for row in rows {
        *row = cleared_row(field, sums, v, pivot, row);
    }
}

// Where the first row is that is not 0 against the checks.
fn pivot_at<F: Field>(field: &F, sums: &[u8; 5], rows: &[[u8; 5]]) -> Option<usize>
    ensures { result ≡ position (λ row. not (against (F.Field.model field.now) row (at sums.now) 0 == 0)) rows.now }
{
    rows.iter().position(|row| against(field, row, sums) != 0)
}

// Makes the rows 0 against the checks: the first that is not goes, and those after it are cleared by it.
fn step<F: Field>(field: &F, sums: &[u8; 5], rows: &mut ArrayVec<[u8; 5], 5>)
    ensures after { (s : ℕ → ℕ) (top j : ℕ) → ((k : ℕ) → k < 5 → s (j + k) ≡ at sums.now k)
        → Basis (F.Field.model field.now) s 5 top j (array_vec_len rows.old) (λ l. slice_index_or rows.old.items l [])
        → Basis (F.Field.model field.now) s 5 top (j + 1) (array_vec_len rows.new) (λ l. slice_index_or rows.new.items l []) }
    ensures enough { array_vec_len rows.old ≤ array_vec_len rows.new + 1 }
{
    if let Some(p) = pivot_at(field, sums, rows) {
        let pivot = rows.remove(p);
        clear(field, sums, &pivot, &mut rows[p..]);
    }
}

// A polynomial of degree at most t, led by 1, that is 0 against the checks from each of 0 to t - 1 on.
pub(crate) fn locator<F: Field>(field: &F, sums: &[u8; 8], t: usize) -> [u8; 5]
    requires { t ≤ 4 }
    ensures { Locator (F.Field.model field.now) t (at sums.now) result }
{
    let mut rows = ArrayVec::from([
        [1, 0, 0, 0, 0],
        [0, 1, 0, 0, 0],
        [0, 0, 1, 0, 0],
        [0, 0, 0, 1, 0],
        [0, 0, 0, 0, 1],
    ]);
    rows.truncate(t + 1);
    for five in sums.array_windows().take(t) {
        step(field, five, &mut rows);
    }
    rows[0]
}
