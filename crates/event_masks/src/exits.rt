//! The stops at the entry and the exit of system calls.

ghost use Rattle.std.specs.Prelude.{◌≡◌};
ghost use Rattle.event_masks.specs.Exits.{default_mask, entry_flags, stop_where, event_or_exit, exit_flags, call_code};

use crate::{Call, EventMask, StopFlags};

/// Returns the mask that tracing begins with.
pub fn default_mask() -> EventMask
    ensures { result ≡ default_mask }
{
    EventMask::PTRACE_EXEC
}

/// Returns the flags of the stop at a call's entry, or `None` if the mask asks for no such stop.
pub fn entry_flags(mask: EventMask) -> Option<StopFlags>
    ensures { result ≡ entry_flags mask }
{
    stop_where(mask, EventMask::PTRACE_SCE, StopFlags::PL_FLAG_SCE)
}

/// Returns the flags of the stop at a call's exit, or `None` if the mask asks for no such stop. This function
/// doesn't know a process's other LWPs: its caller leaves the stop out at the exit of a process's last LWP.
pub fn exit_flags(mask: EventMask, call: Call) -> Option<StopFlags>
    ensures { result ≡ exit_flags mask call }
{
    match call {
        Call::Fork => event_or_exit(mask, EventMask::PTRACE_FORK, StopFlags::PL_FLAG_FORKED),
        Call::Vfork => event_or_exit(
            mask,
            EventMask::PTRACE_FORK,
            StopFlags::PL_FLAG_FORKED.with(StopFlags::PL_FLAG_VFORKED),
        ),
        Call::Exec => event_or_exit(mask, EventMask::PTRACE_EXEC, StopFlags::PL_FLAG_EXEC),
        Call::ThrNew | Call::Other(_) => {
            stop_where(mask, EventMask::PTRACE_SCX, StopFlags::PL_FLAG_SCX)
        }
        Call::ThrExit => stop_where(mask, EventMask::PTRACE_LWP, StopFlags::PL_FLAG_EXITED),
        Call::Exit(_) => None,
    }
}

/// Returns a stop with these flags if the mask asks for the event.
fn stop_where(mask: EventMask, event: EventMask, flags: StopFlags) -> Option<StopFlags>
    ensures { result ≡ stop_where mask event flags }
{
    if mask.asks(event) { Some(flags) } else { None }
}

/// Returns the stop for a call's own event, or else the stop at the exit of any call.
fn event_or_exit(mask: EventMask, event: EventMask, flags: StopFlags) -> Option<StopFlags>
    ensures { result ≡ event_or_exit mask event flags }
{
    if mask.asks(event) {
        Some(flags.with(StopFlags::PL_FLAG_SCX))
    } else {
        stop_where(mask, EventMask::PTRACE_SCX, StopFlags::PL_FLAG_SCX)
    }
}

/// Returns the number of the system call.
pub fn call_code(call: Call) -> u32
    ensures { result ≡ call_code call }
{
    match call {
        Call::Exit(_) => 1,
        Call::Fork => 2,
        Call::Exec => 59,
        Call::Vfork => 66,
        Call::ThrExit => 431,
        Call::ThrNew => 455,
        Call::Other(code) => code,
    }
}
