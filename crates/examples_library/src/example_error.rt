//! The errors that end the program.

use pid_blocks::BadUser;
use signals::BadSignal;
use std::alloc::{AllocError, AllocFailed};
use std::io;
use stop_handlers::TooManyRules;

/// The reason why the program ends with status 1.
#[derive(Debug, Drop)]
pub enum ExampleError {
    /// Memory ran out.
    Memory,
    /// Printing failed.
    Print,
    /// A user, a signal or a policy is not valid.
    Number,
    /// A session is missing, or has made all its calls.
    Session,
}

impl From<AllocError> for ExampleError {
    fn from(_refused: AllocError) -> ExampleError {
        ExampleError::Memory
    }
}

impl<T: Drop> From<AllocFailed<T>> for ExampleError {
    fn from(_refused: AllocFailed<T>) -> ExampleError {
        ExampleError::Memory
    }
}

impl From<io::Error> for ExampleError {
    fn from(_error: io::Error) -> ExampleError {
        ExampleError::Print
    }
}

impl From<BadUser> for ExampleError {
    fn from(_error: BadUser) -> ExampleError {
        ExampleError::Number
    }
}

impl From<BadSignal> for ExampleError {
    fn from(_error: BadSignal) -> ExampleError {
        ExampleError::Number
    }
}

impl From<TooManyRules> for ExampleError {
    fn from(_error: TooManyRules) -> ExampleError {
        ExampleError::Number
    }
}
