//! The error of all test crates.

use pid_blocks::BadUser;
use signals::BadSignal;
use std::alloc::{AllocError, AllocFailed};
use std::io;
use stop_handlers::TooManyRules;
use thiserror::Error;

/// The reason why a test fails, or a program ends early.
#[derive(Debug, Drop, Error)]
pub enum TestError {
    /// Memory ran out.
    #[error("out of memory")]
    Memory,
    /// Printing failed.
    #[error("cannot write")]
    Write,
    /// A check failed.
    #[error("{0}")]
    Wrong(&'static str),
    /// A line of a table isn't one, or another line was found.
    #[error("{0}")]
    Line(String),
}

impl TestError {
    /// Returns the exit status of a program that ends with the error.
    pub fn status(&self) -> u8 {
        match self {
            TestError::Memory | TestError::Write => 3,
            TestError::Wrong(_) | TestError::Line(_) => 1,
        }
    }
}

/// Checks that something holds. The error has this name.
pub fn expect(holds: bool, name: &'static str) -> Result<(), TestError> {
    if holds {
        Ok(())
    } else {
        Err(TestError::Wrong(name))
    }
}

impl From<AllocError> for TestError {
    fn from(_refused: AllocError) -> TestError {
        TestError::Memory
    }
}

impl<T: Drop> From<AllocFailed<T>> for TestError {
    fn from(_refused: AllocFailed<T>) -> TestError {
        TestError::Memory
    }
}

impl From<io::Error> for TestError {
    fn from(_error: io::Error) -> TestError {
        TestError::Write
    }
}

impl From<BadUser> for TestError {
    fn from(_error: BadUser) -> TestError {
        TestError::Wrong("a user has no number")
    }
}

impl From<BadSignal> for TestError {
    fn from(_error: BadSignal) -> TestError {
        TestError::Wrong("a number is no signal's")
    }
}

impl From<TooManyRules> for TestError {
    fn from(_error: TooManyRules) -> TestError {
        TestError::Wrong("a policy has too many rules")
    }
}
