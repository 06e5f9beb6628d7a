//! Event masks, the flags of stops, and the stops at the ends of calls.

use bitflags::Flags;
use event_masks::Call::{Exec, Exit, Fork, Other, ThrExit, ThrNew, Vfork};
use event_masks::{EventMask, StopFlags, call_code, default_mask, entry_flags, exit_flags};
use std::io;

/// The names of events. No event has the last one.
const EVENTS: &str = "PTRACE_EXEC PTRACE_SCE PTRACE_SCX PTRACE_FORK PTRACE_LWP PTRACE_VFORK
    PTRACE_SYSCALL PTRACE";

/// The names of flags of stops. No flag has the last one.
const FLAGS: &str = "PL_FLAG_SCE PL_FLAG_SCX PL_FLAG_EXEC PL_FLAG_FORKED PL_FLAG_CHILD PL_FLAG_BORN
    PL_FLAG_EXITED PL_FLAG_VFORKED PL_FLAG_VFORK_DONE PL_FLAG_SYSCALL";

/// Prints the bits of the events and the flags with these names.
pub fn names(rt: &impl Print) -> io::Result<()> {
    for name in EVENTS.split_whitespace() {
        let bits = EventMask::by_name(name).map_or(0, |mask| mask.bits());
        println!(rt; "event {name} {bits}")?;
    }
    for name in FLAGS.split_whitespace() {
        let bits = StopFlags::by_name(name).map_or(0, |flags| flags.bits());
        println!(rt; "flag {name} {bits}")?;
    }
    Ok(())
}

/// Returns the bits of the stop's flags, or 0 for no stop.
fn bits(flags: Option<StopFlags>) -> u32 {
    flags.map_or(0, |flags| flags.bits())
}

/// Returns the mask of all events.
fn every() -> EventMask {
    EventMask::known(63).unwrap_or(EventMask::none())
}

/// Prints each call's code, and the flags of its exit stop with all events, only with PTRACE_SCX and with no event.
pub fn calls(rt: &impl Print) -> io::Result<()> {
    for call in [Exit(3), Fork, Exec, Vfork, ThrExit, ThrNew, Other(20)] {
        let code = call_code(call);
        let all = bits(exit_flags(every(), call));
        let scx = bits(exit_flags(EventMask::PTRACE_SCX, call));
        let none = bits(exit_flags(EventMask::none(), call));
        println!(rt; "call {code}: {all} {scx} {none}")?;
    }
    let entry = bits(entry_flags(every()));
    let without = bits(entry_flags(every().without(EventMask::PTRACE_SCE)));
    println!(rt; "entry {entry}, without PTRACE_SCE {without}")
}

/// Prints masks and flags by their names.
pub fn printed(rt: &impl Print) -> io::Result<()> {
    for bits in [63, 64, 6, 0] {
        match EventMask::known(bits) {
            Some(mask) => println!(rt; "mask {bits} {mask}")?,
            None => println!(rt; "mask {bits} is unknown")?,
        }
    }
    let first = default_mask();
    let vfork = StopFlags::PL_FLAG_VFORKED
        .with(StopFlags::PL_FLAG_FORKED)
        .with(StopFlags::PL_FLAG_SCX);
    let none = StopFlags::none();
    println!(rt; "tracing begins with {first}; a vfork shows {vfork}, a plain stop {none}")
}

/// Prints the debug form of masks and flags: their names, and last the bits of no flag.
pub fn shown(rt: &impl Print) -> io::Result<()> {
    for bits in [63, 6, 0, 65, 192] {
        println!(rt; "mask {bits} {:?}", EventMask(bits))?;
    }
    for bits in [511, 9, 0, 768, 1024] {
        println!(rt; "flags {bits} {:?}", StopFlags(bits))?;
    }
    Ok(())
}
