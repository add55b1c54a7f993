// The calls that a script may make, and their answers, worked out by the library.
#![tactic(auto)]

mod answer;
mod call;
mod code_calls;
mod field_calls;
mod geometry_calls;
mod texts;

pub use answer::{Answer, Failure, Sizes, Value, to};
pub use call::{Call, Operation, Question};
pub use code_calls::decode;
