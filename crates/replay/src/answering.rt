// What a line is answered, and how the answer is written.
ghost use Rattle.std.specs.Prelude.{◌≡◌, Err};
ghost use Rattle.script.specs.declared.answer.Failure.TheVariants.{Unreadable};

use crate::bytes::{self, Digits};
use crate::line_error::LineError;
use crate::reading::{call, checks_call, decode_call};
use crate::words::Words;
use any_code::{AnyCode, Component};
use component::{ComponentCode, Decoding, checked};
use script::decode;
use std::alloc::Global;
use std::fmt;

// What is answered to a line that could be read.
#[derive(Drop)]
pub enum Answer {
    // the answer of a field or a geometry, a refusal too
    Found(script::Answer),
    // the code word within the radius, if there is one
    Decoded(Option<Vec<u8>>),
    // the code whose radius and checks are asked for
    Checks(AnyCode),
}

// The answer to a line. A refusal of a decode or checks call is an error.
pub fn answer_to(heap: Global, line: &str) -> Result<Answer, LineError> {
    let mut words = Words::of(line.strip_prefix("> ").ok_or(LineError::Unreadable)?);
    match words.word().ok_or(LineError::Unreadable)? {
        "decode" => decoded(heap, &mut words),
        "checks" => checks(&mut words),
        name => Ok(Answer::Found(script::to(call(name, &mut words)))),
    }
}

// The answer to a line that cannot be read.
pub fn unreadable() -> script::Answer
    ensures { result.0 ≡ Err Unreadable }
{
    script::to(None)
}

fn decoded(heap: Global, words: &mut Words) -> Result<Answer, LineError> {
    let (component, text) = decode_call(words).ok_or(LineError::Unreadable)?;
    let mut word = bytes::read(heap, text)?;
    Ok(match decode(component, &mut word)? {
        Decoding::Settled => Answer::Decoded(Some(word)),
        Decoding::Refused => Answer::Decoded(None),
    })
}

fn checks(words: &mut Words) -> Result<Answer, LineError> {
    let code = AnyCode::try_from(checks_call(words).ok_or(LineError::Unreadable)?)?;
    Ok(Answer::Checks(checked(code)?))
}

impl fmt::Display for Answer {
    fn fmt<W: fmt::Write>(&self, f: &mut fmt::Formatter<W>) -> fmt::Result {
        match self {
            Answer::Found(answer) => write!(f, "{answer}"),
            Answer::Decoded(Some(word)) => write!(f, "ok {}", Digits(word)),
            Answer::Decoded(None) => f.write_str("refused"),
            Answer::Checks(code) => write_checks(f, code),
        }
    }
}

// The radius of a code, and the coefficients of each check.
fn write_checks<W: fmt::Write>(f: &mut fmt::Formatter<W>, code: &AnyCode) -> fmt::Result {
    write!(f, "radius {}", code.radius())?;
    for check in 0..code.checks() {
        f.write_str(" ")?;
        for seat in 0..code.length() {
            write!(f, "{:02x}", code.coefficient(check, seat))?;
        }
    }
    Ok(())
}
