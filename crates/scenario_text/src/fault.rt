ghost use Rattle.std.specs.Prelude.{◌≡◌};
ghost use Rattle.scenario_text.specs.declared.fault.Fault.TheVariants.{Memory};
ghost use Rattle.scenario_text.specs.Faults.{fault_status, fault_name};

use std::alloc::{AllocError, AllocFailed};
use thiserror::Error;

/// The reason why a text has no scenario: the first check that failed, with the number of its step, from 1. The number
/// 0 means the whole scenario.
#[derive(Clone, Copy, Debug, PartialEq, Eq, Error)]
pub enum Fault {
    /// The input could not be read.
    #[error("tracehost: cannot read")]
    Read,
    /// The text has more bytes than a scenario may have.
    #[error("tracehost: refused: TooLong")]
    TooLong,
    /// The text is not JSON.
    #[error("tracehost: refused: BadJson")]
    BadJson,
    /// There are more steps than a scenario may have.
    #[error("tracehost: refused: TooManySteps")]
    TooManySteps,
    /// A key is missing or unknown, or has a value of the wrong kind.
    #[error("tracehost: refused: BadShape at step {0}")]
    BadShape(u32),
    /// No user has the number.
    #[error("tracehost: refused: BadUser at step {0}")]
    BadUser(u32),
    /// A name is unknown.
    #[error("tracehost: refused: BadName at step {0}")]
    BadName(u32),
    /// A number is out of its range.
    #[error("tracehost: refused: BadNumber at step {0}")]
    BadNumber(u32),
    /// There are more than 16 rules.
    #[error("tracehost: refused: TooManyRules at step {0}")]
    TooManyRules(u32),
    /// Memory ran out.
    #[error("tracehost: out of memory")]
    Memory,
}

impl Fault {
    /// Returns the exit status of a program that ends with the fault: 3 if it could not read or ran out of memory, 1
    /// if it refused its input.
    pub fn status(&self) -> u8
        ensures { result ≡ fault_status self.now }
    {
        match self {
            Fault::Read | Fault::Memory => 3,
            _ => 1,
        }
    }

    /// Returns the name of the fault.
    pub fn name(&self) -> &'static str
        ensures { result.now ≡ fault_name self.now }
    {
        match self {
            Fault::Read => "Read",
            Fault::TooLong => "TooLong",
            Fault::BadJson => "BadJson",
            Fault::TooManySteps => "TooManySteps",
            Fault::BadShape(_) => "BadShape",
            Fault::BadUser(_) => "BadUser",
            Fault::BadName(_) => "BadName",
            Fault::BadNumber(_) => "BadNumber",
            Fault::TooManyRules(_) => "TooManyRules",
            Fault::Memory => "Memory",
        }
    }
}

impl From<AllocError> for Fault {
    ghost from_gives = { λ _ e. e ≡ Memory };

    fn from(_refused: AllocError) -> Fault {
        Fault::Memory
    }
}

impl<T: Drop> From<AllocFailed<T>> for Fault {
    ghost from_gives = { λ _ e. e ≡ Memory };

    fn from(_refused: AllocFailed<T>) -> Fault {
        Fault::Memory
    }
}
