// Internal: arithmetic of numbers to the base q, for the geometries alone.
#![tactic(auto)]

ghost use Rattle.std.specs.Prelude.{◌≡◌, ℕ, ◌+◌, ◌*◌, ◌/◌, ◌%◌, ◌^◌, ◌<◌, ◌≤◌};
ghost use Rattle.radix.specs.Digits.{first, second, third, number};

use field::Field;

mod base;

pub use base::Base;

impl Base {
    pub fn new(q: usize) -> Base
        requires { q ≤ 256 }
        ensures { result.q ≡ q }
    {
        Base { q }
    }

    // The base that is the order of a field.
    pub fn of<F: Field>(field: &F) -> Base
        ensures { result.q ≡ (F.Field.model field.now).order }
    {
        Base::new(field.order())
    }

    // The number with one digit more.
    pub fn push_digit(self, high: usize, low: u8) -> usize
        requires { high ≤ 2 ^ 40 }
        ensures value { result ≡ high * self.q + low }
        ensures most { result ≤ 257 * high + 255 }
    {
        times(high, self.q) + low as usize
    }

    // What stands before the last digit, and the last digit.
    pub fn pop_digit(self, n: usize) -> (usize, u8)
        requires { 0 < self.q }
        ensures high { result.0 ≡ n / self.q }
        ensures last { result.1 ≡ n % self.q }
        ensures below { (m : ℕ) → n < m * self.q → result.0 < m }
    {
        let (high, last) = div_rem(n, self.q);
        (high, last as u8)
    }

    pub fn two_digits(self, n: usize) -> (u8, u8)
        requires { n < self.q * self.q }
        ensures high { result.0 ≡ n / self.q }
        ensures last { result.1 ≡ n % self.q }
    {
        let (high, last) = self.pop_digit(n);
        (high as u8, last)
    }

    pub fn three_digits(self, n: usize) -> (u8, u8, u8)
        requires { n < self.q * self.q * self.q }
        ensures first { result.0 ≡ first self.q n }
        ensures second { result.1 ≡ second self.q n }
        ensures third { result.2 ≡ third self.q n }
    {
        let (high, z) = self.pop_digit(n);
        let (x, y) = self.two_digits(high);
        (x, y, z)
    }

    // The number with these three digits.
    pub fn from_digits(self, x: u8, y: u8, z: u8) -> usize
        ensures value { result ≡ number self.q x y z }
        ensures most { result < 2 ^ 25 }
    {
        self.push_digit(self.push_digit(x as usize, y), z)
    }
}

// A multiple of a base, or of one more: the edges of the projective plane are a multiple of its degree.
pub fn times(a: usize, q: usize) -> usize
    requires { (a ≤ 2 ^ 40) × (q ≤ 257) }
    ensures value { result ≡ a * q }
    ensures most { result ≤ 257 * a }
{
    a * q
}

// The quotient and the remainder.
pub fn div_rem(n: usize, d: usize) -> (usize, usize)
    requires { 0 < d }
    ensures quotient { result.0 ≡ n / d }
    ensures remainder { result.1 ≡ n % d }
    ensures less { result.1 < d }
    ensures below { (m : ℕ) → n < m * d → result.0 < m }
{
    (n / d, n % d)
}
