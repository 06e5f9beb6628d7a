//! How masks and flags are printed.

ghost use Rattle.std.specs.Prelude.{◌≡◌, ◌++◌, Some, map, codes};
ghost use Rattle.event_masks.specs.Exits.{all_events, all_flags};
ghost use Rattle.event_masks.specs.Names.{event_table, stop_table, joined, names_of, hex_words, flag_text, shown_flags, named_bit};

use crate::{EventMask, StopFlags};
use std::fmt;

/// The events with their bits, in the order in which they are printed.
const EVENTS: [(&str, u32); 6] = [
    ("PTRACE_EXEC", 1),
    ("PTRACE_SCE", 2),
    ("PTRACE_SCX", 4),
    ("PTRACE_FORK", 8),
    ("PTRACE_LWP", 16),
    ("PTRACE_VFORK", 32),
];

/// The flags of a stop with their bits, in the order in which they are printed.
const STOP_FLAGS: [(&str, u32); 9] = [
    ("PL_FLAG_SCE", 1),
    ("PL_FLAG_SCX", 2),
    ("PL_FLAG_EXEC", 4),
    ("PL_FLAG_FORKED", 8),
    ("PL_FLAG_CHILD", 16),
    ("PL_FLAG_BORN", 32),
    ("PL_FLAG_EXITED", 64),
    ("PL_FLAG_VFORKED", 128),
    ("PL_FLAG_VFORK_DONE", 256),
];

/// A set of flags as text: their names and then the remaining bits, separated by a text, or another text for none.
#[derive(Clone, Copy, Drop)]
struct Flags<'a> {
    names: &'a [(&'a str, u32)],
    bits: u32,
    further: u32,
    between: &'a str,
    none: &'a str,
}

impl fmt::Display for Flags<'_> {
    ghost output = { λ f. Some (joined f.none.now f.between.now (names_of (map named_bit f.names.now) f.bits ++ hex_words f.further)) };

    fn fmt<W: fmt::Write>(&self, f: &mut fmt::Formatter<W>) -> fmt::Result {
        let bits = self.bits;
        let between = self.between;
        let none = self.none;
        let mut empty = true;
        for (name, bit) in self.names {
            if bits & *bit != *bit {
                continue;
            }
            if empty {
                write!(f, "{name}")?;
                empty = false;
                continue;
            }
            write!(f, "{between}{name}")?;
        }
        match (empty, self.further) {
            (true, 0) => write!(f, "{none}"),
            (false, 0) => Ok(()),
            (true, further) => write!(f, "0x{further:x}"),
            (false, further) => write!(f, "{between}0x{further:x}"),
        }
    }
}

/// Returns the events of a mask.
fn events<'a>(mask: EventMask) -> Flags<'a>
    ensures { joined result.none.now result.between.now (names_of (map named_bit result.names.now) result.bits ++ hex_words result.further)
        ≡ flag_text event_table mask.0 }
{
    Flags {
        names: &EVENTS,
        bits: mask.0,
        further: 0,
        between: "+",
        none: "none",
    }
}

/// Returns the events of a mask for programmers, and last the bits that are no event's.
fn shown_events<'a>(mask: EventMask) -> Flags<'a>
    ensures { joined result.none.now result.between.now (names_of (map named_bit result.names.now) result.bits ++ hex_words result.further)
        ≡ shown_flags event_table all_events mask.0 }
{
    Flags {
        names: &EVENTS,
        bits: mask.0,
        further: mask.0 & !63,
        between: " | ",
        none: "0x0",
    }
}

/// Returns the flags of a stop.
fn stop_flags<'a>(flags: StopFlags) -> Flags<'a>
    ensures { joined result.none.now result.between.now (names_of (map named_bit result.names.now) result.bits ++ hex_words result.further)
        ≡ flag_text stop_table flags.0 }
{
    Flags {
        names: &STOP_FLAGS,
        bits: flags.0,
        further: 0,
        between: "+",
        none: "none",
    }
}

/// Returns the flags of a stop for programmers, and last the bits that are no flag's.
fn shown_stop_flags<'a>(flags: StopFlags) -> Flags<'a>
    ensures { joined result.none.now result.between.now (names_of (map named_bit result.names.now) result.bits ++ hex_words result.further)
        ≡ shown_flags stop_table all_flags flags.0 }
{
    Flags {
        names: &STOP_FLAGS,
        bits: flags.0,
        further: flags.0 & !511,
        between: " | ",
        none: "0x0",
    }
}

/// Prints the events' names in order, separated by `+`, or `none`.
impl fmt::Display for EventMask {
    ghost output = { λ m. Some (flag_text event_table m.0) };

    fn fmt<W: fmt::Write>(&self, f: &mut fmt::Formatter<W>) -> fmt::Result {
        let events = events(*self);
        write!(f, "{events}")
    }
}

/// Prints the type and the events' names as Rust's crate `bitflags` does:
/// `EventMask(PTRACE_SCE | PTRACE_SCX)`, `EventMask(0x0)`.
impl fmt::Debug for EventMask {
    ghost debug_output = { λ m. Some (codes "EventMask(" ++ (shown_flags event_table all_events m.0 ++ codes ")")) };

    fn fmt<W: fmt::Write>(&self, f: &mut fmt::Formatter<W>) -> fmt::Result {
        let events = shown_events(*self);
        write!(f, "EventMask({events})")
    }
}

/// Prints the flags' names in order, separated by `+`, or `none`.
impl fmt::Display for StopFlags {
    ghost output = { λ m. Some (flag_text stop_table m.0) };

    fn fmt<W: fmt::Write>(&self, f: &mut fmt::Formatter<W>) -> fmt::Result {
        let flags = stop_flags(*self);
        write!(f, "{flags}")
    }
}

/// Prints the type and the flags' names as Rust's crate `bitflags` does:
/// `StopFlags(PL_FLAG_SCE | PL_FLAG_BORN)`, `StopFlags(0x0)`.
impl fmt::Debug for StopFlags {
    ghost debug_output = { λ m. Some (codes "StopFlags(" ++ (shown_flags stop_table all_flags m.0 ++ codes ")")) };

    fn fmt<W: fmt::Write>(&self, f: &mut fmt::Formatter<W>) -> fmt::Result {
        let flags = shown_stop_flags(*self);
        write!(f, "StopFlags({flags})")
    }
}
