ghost use Rattle.std.specs.Prelude.{◌≡◌};
ghost use Rattle.open_sessions.specs.declared.serve_fault.ServeError.TheVariants.{Memory};
ghost use Rattle.open_sessions.specs.Sessions.{serve_fault_status};

use std::alloc::{AllocError, AllocFailed};
use thiserror::Error;

/// The reason why a session ended before the end of its input.
#[derive(Clone, Copy, Debug, PartialEq, Eq, Error)]
pub enum ServeError {
    /// The reader failed.
    #[error("tracehost: cannot read")]
    Read,
    /// The writer failed, or took no byte.
    #[error("tracehost: cannot write")]
    Write,
    /// Memory ran out for a line or for the text of its reply.
    #[error("tracehost: out of memory")]
    Memory,
    /// The session has answered the most lines that it may.
    #[error("tracehost: refused: TooManyLines")]
    TooManyLines,
}

impl ServeError {
    /// Returns the exit status of a program that ends with the fault.
    pub fn status(&self) -> u8
        ensures { result ≡ serve_fault_status self.now }
    {
        match self {
            ServeError::Read | ServeError::Write | ServeError::Memory => 3,
            ServeError::TooManyLines => 1,
        }
    }
}

impl From<AllocError> for ServeError {
    ghost from_gives = { λ _ e. e ≡ Memory };

    fn from(_refused: AllocError) -> ServeError {
        ServeError::Memory
    }
}

impl<T: Drop> From<AllocFailed<T>> for ServeError {
    ghost from_gives = { λ _ e. e ≡ Memory };

    fn from(_refused: AllocFailed<T>) -> ServeError {
        ServeError::Memory
    }
}
