// Extended binary BCH codes: symbols in the field of 2, locators in the field of 16, 1 to 16 seats, radius 1 or 2.
#![tactic(auto)]

ghost use Rattle.std.specs.Prelude.{◌≡◌, ◌<◌, ◌≤◌, cond, length, IfOk, IfErr, IfSome, IfNone, bit_xor};
ghost use Rattle.bch.specs.Bch.{bch, power_bit, within_limits};
ghost use Rattle.bch.specs.Columns.{NoPair, NoSeat, column, flipped, syndrome};
ghost use Rattle.component.specs.Checks.{standing};
ghost use Rattle.refusal.specs.Given.{GivenOrRefused};
ghost use Rattle.refusal.specs.declared.Refusal.TheVariants.{CodeLimits};
ghost use Rattle.bch.specs.Words;

use component::{ComponentCode, Decoding, checked};
use prime_field::PrimeField;
use refusal::Refusal;

mod kind;

pub use kind::Bch;

// The third powers of 0 to 15 in the field of 16.
const CUBES: [u16; 16] = [0, 1, 8, 15, 12, 10, 1, 1, 10, 15, 15, 12, 8, 10, 8, 12];

// The field of the symbols.
fn field_of_two() -> PrimeField
    ensures { result.order ≡ 2 }
{
    PrimeField::try_from(2).unwrap()
}

// Whether there is a code of this size and radius.
fn within_limits(size: usize, radius: usize) -> bool
    ensures { result ≡ within_limits size radius }
{
    matches!(size, 1..=16) && matches!(radius, 1 | 2)
}

impl Bch {
    // The code of this size and radius. Outside the limits it has no seats and no checks, and does not fit.
    pub fn of(size: usize, radius: usize) -> Bch
        ensures size { result.size ≡ size }
        ensures radius { result.radius ≡ radius }
    {
        Bch {
            field: field_of_two(),
            size,
            radius,
        }
    }

    // The same, refused with 3 outside the limits.
    pub fn new(size: usize, radius: usize) -> Result<Bch, Refusal>
        ensures answer { GivenOrRefused (standing (bch size radius)) (λ c. c.size ≡ size) result }
        ensures radius { IfOk result (λ c. c.radius ≡ radius) }
        ensures refused { IfErr result (λ e. e ≡ CodeLimits) }
    {
        checked(Bch::of(size, radius))
    }

    // A number of the code: 0 where there is no code.
    fn counted(&self, number: usize) -> usize
        ensures { result ≡ cond (within_limits self.now.size self.now.radius) number 0 }
    {
        if self.fits() { number } else { 0 }
    }
}

// The coefficient of a check at a seat: 1, then the bits of the locator, then those of its third power.
#[tactic(auto, using(crate::proofs::Coefficients::power_bits), unfolding(crate::specs::Table::cubes))]
fn power_bit(check: usize, seat: usize) -> u8
    ensures { result ≡ power_bit check seat }
{
    match check {
        0 => 1,
        1..=4 => ((seat >> (check - 1)) % 2) as u8,
        5..=8 if seat < 16 => ((CUBES[seat] >> (check - 5)) % 2) as u8,
        _ => 0,
    }
}

// What the decoder works out.
impl Bch {
    // The coefficients of all checks at a seat: bit j is that of check j.
    #[tactic(auto, using(crate::proofs::Coefficients::columns), unfolding(crate::specs::Table::cubes))]
    fn column(&self, seat: usize) -> u16
        requires { seat < 16 }
        ensures { result ≡ column self.now.radius seat }
    {
        let low = 1 + 2 * seat as u16;
        if self.radius == 2 {
            low + 32 * CUBES[seat]
        } else {
            low
        }
    }

    // The sums of all checks over a word: bit j is that of check j.
    fn syndrome(&self, word: &[u8]) -> u16
        requires { length word.now ≤ 16 }
        ensures { result ≡ syndrome self.now.radius word.now }
    {
        let mut total = 0;
        for (seat, symbol) in word.iter().enumerate() {
            if *symbol != 0 {
                total ^= self.column(seat);
            }
        }
        total
    }

    // The seat below the limit that has this column.
    #[tactic(auto, using(crate::specs::Table::column_seat))]
    fn seat_with(&self, sum: u16, limit: usize) -> Option<usize>
        requires { limit ≤ 16 }
        ensures found { IfSome result (λ a. (a < limit) × (column self.now.radius a ≡ sum)) }
        ensures none { IfNone result (NoSeat self.now.radius sum limit) }
    {
        // the bits of the locator follow that of power 0
        let seat = (sum / 2 % 16) as usize;
        if seat < limit && self.column(seat) == sum {
            Some(seat)
        } else {
            None
        }
    }

    // Two seats below the limit whose columns have this sum.
    fn pair_with(&self, sum: u16, limit: usize) -> Option<(usize, usize)>
        requires { limit ≤ 16 }
        ensures found { IfSome result (λ p.
            (p.0 < p.1) × (p.1 < limit) × (column self.now.radius p.0 ≡ bit_xor sum (column self.now.radius p.1))) }
        ensures none { IfNone result (NoPair self.now.radius sum limit) }
    {
        (0..limit).find_map(|last| {
            let first = self.seat_with(sum ^ self.column(last), last)?;
            Some((first, last))
        })
    }
}

// Turns the bit at a seat.
fn flip(word: &mut [u8], seat: usize)
    requires { seat < length word.old }
    ensures { word.new ≡ flipped seat word.old }
{
    word[seat] ^= 1;
}

impl ComponentCode for Bch {
    type F = PrimeField;

    ghost model = { λ s. bch s.size s.radius };

    ghost lawful = { λ s. Words.lawful s.size s.radius };

    fn field(&self) -> &PrimeField {
        &self.field
    }

    fn length(&self) -> usize {
        self.counted(self.size)
    }

    fn checks(&self) -> usize {
        if self.fits() { 1 + 4 * self.radius } else { 0 }
    }

    fn radius(&self) -> usize {
        self.counted(self.radius)
    }

    fn fits(&self) -> bool {
        within_limits(self.size, self.radius)
    }

    fn coefficient(&self, check: usize, seat: usize) -> u8 {
        if self.fits() {
            power_bit(check, seat)
        } else {
            0
        }
    }

    // The wrong seats are found by the sum of their columns.
    #[tactic(auto, using(crate::proofs::Decoder::settles))]
    fn settle(&self, word: &mut [u8]) -> Decoding {
        let sum = self.syndrome(word);
        if sum == 0 {
            return Decoding::Settled;
        }
        if let Some(seat) = self.seat_with(sum, word.len()) {
            flip(word, seat);
            return Decoding::Settled;
        }
        if self.radius != 2 {
            return Decoding::Refused;
        }
        let Some((first, last)) = self.pair_with(sum, word.len()) else {
            return Decoding::Refused;
        };
        flip(word, first);
        flip(word, last);
        Decoding::Settled
    }
}
