// What a call is answered.
ghost use Rattle.std.specs.Prelude.{◌≡◌};
ghost use Rattle.script.specs.Answers.{Answers, CallAnswers};
ghost use Rattle.script.specs.declared.answer.Failure.TheVariants.{Refused};

use crate::call::Call;
use crate::{field_calls, geometry_calls};
use any_field::AnyField;
use any_geometry::geometry_over;
use refusal::Refusal;
use std::error::Error;

// What a call finds.
#[derive(Clone, Copy, PartialEq, Eq, Debug)]
pub enum Value {
    Number(usize),
    Pair((usize, usize)),
    Sizes(Sizes),
}

// How many points and lines a geometry has, how many seats each of them, and how many edges there are.
#[derive(Clone, Copy, PartialEq, Eq, Debug)]
pub struct Sizes {
    pub points: usize,
    pub lines: usize,
    pub point_degree: usize,
    pub line_degree: usize,
    pub edges: usize,
}

// Why a line gets no answer: it cannot be read as a call, or the call is refused.
#[derive(Clone, Copy, PartialEq, Eq, Debug)]
pub enum Failure {
    Unreadable,
    Refused(Refusal),
}

impl Error for Failure {}

impl From<Refusal> for Failure {
    ghost from_gives = { λ refusal failure. failure ≡ Refused refusal };

    fn from(refusal: Refusal) -> Failure {
        Failure::Refused(refusal)
    }
}

// What a line is answered; absent where its call finds nothing.
#[derive(Clone, Copy, PartialEq, Eq, Debug)]
pub struct Answer(pub Result<Option<Value>, Failure>);

// The answer to a line that was read as a call, or could not be.
pub fn to(line: Option<Call>) -> Answer
    ensures { Answers line result.0 }
{
    Answer(found(line))
}

// What is found for a line, or why nothing is.
fn found(line: Option<Call>) -> Result<Option<Value>, Failure>
    ensures { Answers line result }
{
    let call = line.ok_or(Failure::Unreadable)?;
    Ok(to_call(call)?)
}

// The answer to a call.
fn to_call(call: Call) -> Result<Option<Value>, Refusal>
    ensures { CallAnswers call result }
{
    match call {
        Call::Field { order, operation } => {
            Ok(field_calls::worked_out(&AnyField::try_from(order)?, operation))
        }
        Call::Geometry {
            kind,
            order,
            question,
        } => Ok(geometry_calls::asked(&geometry_over(kind, order)?, question)),
    }
}
