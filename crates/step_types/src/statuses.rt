ghost use Rattle.std.specs.Prelude.{◌≡◌, ◌≢◌, ◌↔◌, Some, SomeIff, IfSome};
ghost use Rattle.signals.specs.Table.{SIGCONT};
ghost use Rattle.step_types.specs.Status.{word, IsStatus};
ghost use Rattle.step_types.specs.declared.StatusKind.{StatusKind};
ghost use Rattle.step_types.specs.declared.StatusKind.TheVariants.{Exited, Signaled, Stopped, Continued};

use crate::{Status, StatusKind};
use signals::Signal;

impl Status {
    /// Returns the status of a process that exited on its own, with this code.
    pub fn exited(code: u8) -> Status
        ensures { result ≡ Exited code }
    {
        Status {
            kind: StatusKind::Exited(code),
        }
    }

    /// Returns the status of a process that the signal ended, or `None` for SIGCONT, which ends no process.
    pub fn signaled(signal: Signal) -> Option<Status>
        ensures { SomeIff result (signal ≢ SIGCONT) (Signaled signal) }
    {
        if signal.number() == 19 {
            None
        } else {
            Some(Status {
                kind: StatusKind::Signaled(signal),
            })
        }
    }

    /// Returns the status of a process that the signal stopped.
    pub fn stopped(signal: Signal) -> Status
        ensures { result ≡ Stopped signal }
    {
        Status {
            kind: StatusKind::Stopped(signal),
        }
    }

    /// Returns the status of a process that continues after a stop.
    pub fn continued() -> Status
        ensures { result ≡ Continued }
    {
        Status {
            kind: StatusKind::Continued,
        }
    }

    /// Returns what the status reports.
    pub fn kind(&self) -> StatusKind
        ensures { result ≡ self.now }
    {
        self.kind
    }

    /// Returns the status as the word that wait(2) gives.
    pub fn word(&self) -> u32
        ensures { result ≡ word self.now }
    {
        match self.kind {
            StatusKind::Exited(code) => code as u32 * 256,
            StatusKind::Signaled(signal) => signal.number(),
            StatusKind::Stopped(signal) => signal.number() * 256 + 127,
            StatusKind::Continued => 19,
        }
    }

    /// Returns the status with this word, or `None` if no status has it.
    pub fn of_word(number: u32) -> Option<Status>
        ensures exact { (s : StatusKind) → IsStatus s → ((result ≡ Some s) ↔ (word s ≡ number)) }
        ensures found { IfSome result (λ s. word s ≡ number) }
    {
        match number {
            19 => Some(Status::continued()),
            1..=31 => Status::signaled(Signal::new(number).ok()?),
            _ => match number % 256 {
                0 => Some(Status::exited(u8::try_from(number / 256).ok()?)),
                127 => Some(Status::stopped(Signal::new(number / 256).ok()?)),
                _ => None,
            },
        }
    }
}
