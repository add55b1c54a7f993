// Why a line gets no answer of its call.
use refusal::Refusal;
use std::alloc::AllocError;
use thiserror::Error;

#[derive(Debug, Drop, Error)]
pub enum LineError {
    // the line is no call that can be read
    #[error("the line cannot be read")]
    Unreadable,
    // the call is refused
    #[error(transparent)]
    Refused(#[from] Refusal),
    // there is no memory for a byte string, and the run ends
    #[error(transparent)]
    Memory(#[from(alloc)] AllocError),
}
