// How answers are written.
ghost use Rattle.std.specs.Prelude.{Some};
ghost use Rattle.script.specs.Texts.{answer_text, carried_text, failure_text, sizes_text, value_text};

use crate::answer::{Answer, Failure, Sizes, Value};
use refusal::Refusal;
use std::fmt;

impl fmt::Display for Answer {
    ghost output = { λ a. Some (answer_text a.0) };

    fn fmt<W: fmt::Write>(&self, f: &mut fmt::Formatter<W>) -> fmt::Result {
        match &self.0 {
            Ok(Some(value)) => write!(f, "{value}"),
            Ok(None) => f.write_str("absent"),
            Err(failure) => write!(f, "{failure}"),
        }
    }
}

impl fmt::Display for Value {
    ghost output = { λ v. Some (value_text v) };

    fn fmt<W: fmt::Write>(&self, f: &mut fmt::Formatter<W>) -> fmt::Result {
        match self {
            Value::Number(n) => write!(f, "{n}"),
            Value::Pair((a, b)) => write!(f, "{a} {b}"),
            Value::Sizes(sizes) => write!(f, "{sizes}"),
        }
    }
}

impl fmt::Display for Sizes {
    ghost output = { λ s. Some (sizes_text s) };

    fn fmt<W: fmt::Write>(&self, f: &mut fmt::Formatter<W>) -> fmt::Result {
        write!(
            f,
            "{} {} {} {} {}",
            self.points, self.lines, self.point_degree, self.line_degree, self.edges
        )
    }
}

impl fmt::Display for Failure {
    ghost output = { λ e. Some (failure_text e) };

    fn fmt<W: fmt::Write>(&self, f: &mut fmt::Formatter<W>) -> fmt::Result {
        match self {
            Failure::Unreadable => f.write_str("unreadable"),
            Failure::Refused(refusal) => write!(f, "no {}{}", refusal.number(), Carried(refusal)),
        }
    }
}

// What a refusal carries, after its number.
#[derive(Clone, Copy)]
struct Carried<'a>(&'a Refusal);

impl<'a> fmt::Display for Carried<'a> {
    ghost output = { λ c. Some (carried_text c.0.now) };

    fn fmt<W: fmt::Write>(&self, f: &mut fmt::Formatter<W>) -> fmt::Result {
        match self.0 {
            Refusal::NoSuchBlock { block } => write!(f, " block {block}"),
            Refusal::NoSuchCell { cell, layers } => write!(f, " cell {cell} layers {layers}"),
            Refusal::NotACode { place } => write!(f, " place {place}"),
            _ => Ok(()),
        }
    }
}
