//! Event masks and sets of stop flags: tests, changes, and how they are read.

ghost use Rattle.std.specs.Prelude.{◌≡◌, ◌==◌};
ghost use Rattle.event_masks.specs.Exits.{no_events, no_flags, asks, shows, mask_with, mask_without, both};
ghost use Rattle.event_masks.specs.Reading.{mask_of_bits, events_named, flag_named};

use crate::{EventMask, StopFlags};
use bitflags::Flags;

impl EventMask {
    /// Returns the mask with no event, which is that of an untraced process.
    pub fn none() -> EventMask
        ensures { result ≡ no_events }
    {
        EventMask::empty()
    }

    /// Tests whether the mask contains the event.
    pub fn asks(&self, event: EventMask) -> bool
        ensures { result ≡ asks self.now event }
    {
        self.contains(event)
    }

    /// Returns the mask with the event added.
    pub fn with(&self, event: EventMask) -> EventMask
        ensures { result ≡ mask_with self.now event }
    {
        self.union(event)
    }

    /// Returns the mask with the event removed.
    pub fn without(&self, event: EventMask) -> EventMask
        ensures { result ≡ mask_without self.now event }
    {
        EventMask(self.0 & !event.0)
    }

    /// Returns the mask with these bits, or `None` if one of them is no event's.
    pub fn known(bits: u32) -> Option<EventMask>
        ensures { result ≡ mask_of_bits bits }
    {
        EventMask::from_bits(bits)
    }

    /// Returns the events with this name, or `None` if no event has it. `PTRACE_SYSCALL` names both the entry
    /// and the exit of a system call.
    pub fn by_name(name: &str) -> Option<EventMask>
        ensures { result ≡ events_named name.now }
    {
        if name == "PTRACE_SYSCALL" {
            Some(EventMask::PTRACE_SCE.with(EventMask::PTRACE_SCX))
        } else {
            EventMask::from_name(name)
        }
    }
}

impl StopFlags {
    /// Returns the empty set of flags.
    pub fn none() -> StopFlags
        ensures { result ≡ no_flags }
    {
        StopFlags::empty()
    }

    /// Tests whether all these flags are set.
    pub fn shows(&self, flags: StopFlags) -> bool
        ensures { result ≡ shows self.now flags }
    {
        self.contains(flags)
    }

    /// Returns the flags of either set.
    pub fn with(&self, flags: StopFlags) -> StopFlags
        ensures { result ≡ both self.now flags }
    {
        self.union(flags)
    }

    /// Returns the flag with this name, or `None` if no flag has it.
    pub fn by_name(name: &str) -> Option<StopFlags>
        ensures { result ≡ flag_named name.now }
    {
        StopFlags::from_name(name)
    }
}
