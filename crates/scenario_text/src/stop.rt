//! Why a text wasn't read to its end.

use json::Invalid;
use std::alloc::AllocError;

/// Why a text wasn't read to its end.
#[derive(Clone, Copy, Drop)]
pub(crate) enum Stop {
    /// The text isn't JSON, or a number in it is too large.
    Invalid,
    /// Out of memory.
    Memory,
}

impl From<Invalid> for Stop {
    ghost use Rattle.std.specs.Prelude.{◌≡◌};
    ghost use Rattle.scenario_text.specs.declared.stop.Stop.TheVariants.{Invalid as Stopped};

    ghost from_gives = { λ e s. s ≡ Stopped };

    fn from(_error: Invalid) -> Stop {
        Stop::Invalid
    }
}

impl From<AllocError> for Stop {
    ghost use Rattle.std.specs.Prelude.{◌≡◌};
    ghost use Rattle.scenario_text.specs.declared.stop.Stop.TheVariants.{Memory};

    ghost from_gives = { λ e s. s ≡ Memory };

    fn from(_error: AllocError) -> Stop {
        Stop::Memory
    }
}
