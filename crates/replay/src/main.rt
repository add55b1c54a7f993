// Runs a script of calls: reads it on standard input, and prints each call line and under it its answer line.
#![tactic(auto)]

mod answering;
mod bytes;
mod line_error;
mod reading;
mod words;

use answering::{answer_to, unreadable};
use line_error::LineError;
use script::Failure;
use std::io;

// Whether a line is passed over: a comment, an empty line or an expected answer.
fn is_passed_over(line: &str) -> bool {
    line.is_empty() || line.starts_with('#') || line.starts_with("< ")
}

fn main(rt: HostRuntime) -> io::Result<()> {
    for line in rt.lines(rt.alloc()) {
        let line = line?;
        if is_passed_over(&line) {
            continue;
        }
        match answer_to(rt.alloc(), &line) {
            Ok(answer) => println!(rt; "{line}\n< {answer}")?,
            Err(LineError::Unreadable) => println!(rt; "{line}\n< {}", unreadable())?,
            Err(LineError::Refused(refusal)) => println!(rt;
                "{line}\n< {}",
                Failure::Refused(refusal)
            )?,
            Err(LineError::Memory(error)) => return Err(error.into()),
        }
    }
    Ok(())
}
