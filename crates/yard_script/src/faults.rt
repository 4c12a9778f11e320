use std::alloc::{AllocError, AllocFailed};
use thiserror::Error;

// What is wrong with a line.
#[derive(Clone, Copy, Debug, Error)]
pub enum Problem {
    #[error("there is no such command")]
    Command,
    #[error("the command has another number of words")]
    Words,
    #[error("this is no number of at most 32 bits")]
    Number,
    #[error("this is the text of no instruction")]
    Instruction,
    #[error("this sets no register")]
    Register,
    #[error("the code store is under a yard")]
    UnderYard,
    #[error("the file cannot be read")]
    File,
    #[error("the file has no whole number of words")]
    Length,
    // Nothing is wrong with the line: there was no memory for it.
    #[error("out of memory")]
    Memory,
}

// By hand: `#[from]` would need a variant that holds the error, which says no more than the variant does.
impl From<AllocError> for Problem {
    fn from(_e: AllocError) -> Problem {
        Problem::Memory
    }
}

impl<T: Drop> From<AllocFailed<T>> for Problem {
    fn from(_e: AllocFailed<T>) -> Problem {
        Problem::Memory
    }
}

// A line, counted from 1, and what is wrong with it.
#[derive(Clone, Copy, Debug, Error)]
#[error("line {line}: {problem}")]
pub struct Fault {
    pub line: usize,
    pub problem: Problem,
}
