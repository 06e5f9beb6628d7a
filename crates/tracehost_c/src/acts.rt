//! Acts and system calls by their numbers.
ghost use Rattle.std.specs.Prelude.{◌≡◌, ◌<◌, ◌+◌, ◌^◌};
ghost use Rattle.tracehost_c.specs.Numbers.{call_of, set_numbered, act_of};

use event_masks::{Call, CallKind};
use signals::{SigSet, Signal};
use step_types::{Act, ActKind};

/// Returns the system call of the kind with this number. `argument` is the status of an exit, or another call's number.
pub fn call_of(number: u32, argument: u32) -> Option<Call>
    ensures { result ≡ call_of number argument }
{
    match CallKind::by_number(number)? {
        CallKind::Fork => Some(Call::Fork),
        CallKind::Vfork => Some(Call::Vfork),
        CallKind::Exec => Some(Call::Exec),
        CallKind::ThrNew => Some(Call::ThrNew),
        CallKind::ThrExit => Some(Call::ThrExit),
        CallKind::Exit if argument < 256 => Some(Call::Exit(argument as u8)),
        CallKind::Exit => None,
        CallKind::Other => Some(Call::Other(argument)),
    }
}

/// Returns the signal whose bit is at this place.
fn signal_at(place: u32) -> Signal
    requires { place < 31 }
    ensures { result ≡ place + 1 }
{
    Signal::new(place + 1).unwrap()
}

/// Returns the set of signals with these bits: bit n - 1 is signal n.
fn set_with(bits: u32) -> SigSet
    requires { bits < 2 ^ 31 }
    ensures { result ≡ bits }
{
    let mut set = SigSet::empty();
    for place in 0..31u32 {
        if (bits >> place) % 2 == 1 {
            set = set.with(signal_at(place));
        }
    }
    set
}

fn set_of(bits: u32) -> Option<SigSet>
    ensures { result ≡ set_numbered bits }
{
    if bits < 1 << 31 {
        Some(set_with(bits))
    } else {
        None
    }
}

/// Returns the act of the kind with this number. `argument` is the signal that it raises, or the set of signals that it
/// blocks, or the argument of the system call that it enters, whose number is `call`.
pub fn act_of(number: u32, call: u32, argument: u32) -> Option<Act>
    ensures { result ≡ act_of number call argument }
{
    match ActKind::by_number(number)? {
        ActKind::Compute => Some(Act::Compute),
        ActKind::Raise => Some(Act::Raise(argument)),
        ActKind::Block => Some(Act::Block(set_of(argument)?)),
        ActKind::Enter => Some(Act::Enter(call_of(call, argument)?)),
        ActKind::Leave => Some(Act::Leave),
    }
}
