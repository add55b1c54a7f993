// How a refusal, and what it carries, is written for people.
ghost use Rattle.std.specs.Prelude.{Some};
ghost use Rattle.refusal.specs.Texts.{refusal_text, report_text, verdict_text, vertex_text};

use crate::{Refusal, Report, Verdict, Vertex};
use std::error::Error;
use std::fmt;

impl fmt::Display for Vertex {
    ghost output = { λ v. Some (vertex_text v) };

    fn fmt<W: fmt::Write>(&self, f: &mut fmt::Formatter<W>) -> fmt::Result {
        match self {
            Vertex::Point(number) => write!(f, "point {number}"),
            Vertex::Line(number) => write!(f, "line {number}"),
        }
    }
}

impl fmt::Display for Verdict {
    ghost output = { λ v. Some (verdict_text v) };

    fn fmt<W: fmt::Write>(&self, f: &mut fmt::Formatter<W>) -> fmt::Result {
        match self {
            Verdict::Clean => f.write_str("clean"),
            Verdict::Stuck(vertex) => write!(f, "stuck at {vertex}"),
            Verdict::Spent(vertex) => write!(f, "spent at {vertex}"),
        }
    }
}

impl fmt::Display for Report {
    ghost output = { λ r. Some (report_text r) };

    fn fmt<W: fmt::Write>(&self, f: &mut fmt::Formatter<W>) -> fmt::Result {
        write!(
            f,
            "{} (half rounds: {}, lines that refused: {}, points that refused: {})",
            self.verdict, self.half_rounds, self.lines_refused, self.points_refused
        )
    }
}

impl fmt::Display for Refusal {
    ghost output = { λ r. Some (refusal_text r) };

    fn fmt<W: fmt::Write>(&self, f: &mut fmt::Formatter<W>) -> fmt::Result {
        match self {
            Refusal::FieldOrder => f.write_str("the order of the field is not listed"),
            Refusal::GeometrySize => f.write_str(
                "the geometry has an order above 16, or more than 5,000 edges",
            ),
            Refusal::CodeLimits => f.write_str(
                "the numbers of the component code are outside its limits",
            ),
            Refusal::CodesMismatch => f.write_str(
                "the codes do not fit the degrees, or their fields differ",
            ),
            Refusal::BlockCount => f.write_str(
                "the blocks are not 1 to 64, or do not fill the medium",
            ),
            Refusal::Budget => f.write_str(
                "the budget is above 1,000, or too small to format with",
            ),
            Refusal::NoSuchBlock { block } => write!(f, "block {block} is beyond the last"),
            Refusal::NoSuchCell { cell, layers } => {
                write!(
                    f,
                    "cell {cell} is beyond the last; the refusal passed {layers} layers"
                )
            }
            Refusal::VacantBlock => f.write_str("the block holds no word"),
            Refusal::BufferLength => f.write_str("a buffer has the wrong length"),
            Refusal::NotACode { place } => {
                write!(f, "the symbol at place {place} is no code of the field")
            }
            Refusal::FailsAt { vertex } => write!(f, "the word fails at {vertex}"),
            Refusal::Stuck { report } => write!(f, "the decoder got stuck: {report}"),
            Refusal::Spent { report } => write!(f, "the decoder used up its budget: {report}"),
            Refusal::NotReduced => f.write_str(
                "the table is not reduced, or holds a byte that is no code",
            ),
            Refusal::NoDataPlace => f.write_str("the code leaves no place for data"),
            Refusal::DataLength => f.write_str("the data are not as many as the data places"),
            Refusal::AnotherCodesTable => f.write_str("the table belongs to another code"),
        }
    }
}

impl Error for Refusal {}
