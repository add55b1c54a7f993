// Byte strings, in lower-case hexadecimal digits, two for each byte; - is the empty one.
ghost use Rattle.std.specs.Prelude.{◌≡◌, ◌<◌, EachIndex, IfOk, IsTrue, OnOk, length, slice_index};
ghost use Rattle.replay.specs.Bytes.{NoCapital, written};

use crate::line_error::LineError;
use std::alloc::Global;
use std::fmt;

// Reads a byte string.
pub fn read(heap: Global, text: &str) -> Result<Vec<u8>, LineError>
    ensures { IfOk result (λ bytes. text.now ≡ written bytes.items) }
{
    if text == "-" {
        return Ok(Vec::new(heap));
    }
    if text.is_empty() || !is_digits(text) {
        return Err(LineError::Unreadable);
    }
    let mut bytes = vec![in heap; 0; text.len() / 2]?;
    read_digits(text, &mut bytes)?;
    Ok(bytes)
}

// Reads one byte or more, two digits for each.
fn read_digits(text: &str, bytes: &mut [u8]) -> Result<(), LineError>
    requires some { 0 < length text.now }
    requires digits { EachIndex text.now (λ k. NoCapital (slice_index text.now k)) }
    ensures { OnOk result (text.now ≡ written bytes.new) }
{
    hex::decode_to_slice(text, bytes).map_err(|_| LineError::Unreadable)
}

// Whether each character is a digit of the format.
fn is_digits(text: &str) -> bool
    ensures { IsTrue result → EachIndex text.now (λ k. NoCapital (slice_index text.now k)) }
{
    text.as_bytes()
        .iter()
        .all(|digit| matches!(*digit, b'0'..=b'9' | b'a'..=b'f'))
}

// A byte string, as it is written.
#[derive(Clone, Copy)]
pub struct Digits<'a>(pub &'a [u8]);

impl<'a> fmt::Display for Digits<'a> {
    fn fmt<W: fmt::Write>(&self, f: &mut fmt::Formatter<W>) -> fmt::Result {
        if self.0.is_empty() {
            return f.write_str("-");
        }
        for byte in self.0 {
            write!(f, "{byte:02x}")?;
        }
        Ok(())
    }
}
