//! The journal of a shared host.

ghost use Rattle.std.specs.Prelude.{◌≡◌, [], length, slice_get, option_map, ◌==◌};

use pid_blocks::Uid;
use requests::{PlainStep, Reply};
use std::alloc::Global;
use std::marker::Model;

/// An answered call of a session.
#[derive(Debug, Drop)]
pub struct Entry {
    pub uid: Uid,
    /// The session's number, counted from 0.
    pub session: usize,
    pub step: PlainStep,
    pub reply: Reply,
}

/// The answered calls of all sessions, in the order in which the host made them.
#[derive(Drop)]
pub struct Journal {
    entries: Vec<Entry>,
}

impl Model for Journal {
    ghost use Rattle.std.specs.Prelude.{List};
    ghost use Rattle.host_lock.specs.declared.journal.Entry.{Entry};

    ghost Value = { List Entry };

    ghost view = { λ j. j.entries.items };
}

impl Journal {
    /// Creates an empty journal. It allocates no memory.
    pub fn empty(alloc: Global) -> Journal
        ensures { result ≡ [] }
    {
        Journal {
            entries: Vec::new(alloc),
        }
    }

    /// Creates the journal of these calls.
    pub fn of(entries: Vec<Entry>) -> Journal
        ensures { result ≡ entries.items }
    {
        Journal { entries }
    }

    /// Returns the number of calls.
    pub fn len(&self) -> usize
        ensures { result ≡ length self.now }
    {
        self.entries.len()
    }

    /// Returns whether there are no calls.
    pub fn is_empty(&self) -> bool
        ensures { result ≡ (length self.now == 0) }
    {
        self.entries.is_empty()
    }

    /// Returns the call at this index, from 0.
    pub fn get(&self, place: usize) -> Option<&Entry>
        ensures { option_map (λ e. e.now) result ≡ slice_get self.now place }
    {
        self.entries.as_slice().get(place)
    }
}
