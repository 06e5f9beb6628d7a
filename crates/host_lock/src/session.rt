//! A session, with which one thread makes its calls.

ghost use Rattle.std.specs.Prelude.{◌≡◌, ℕ, ◌<◌, ◌-◌, [], ◌↔◌, IsTrue};
ghost use Rattle.host_lock.specs.Rule.{session_view};
ghost use Rattle.host_lock.specs.Limits.{max_calls};
ghost use Rattle.host_lock.specs.Views.{Idle};

use crate::call_log::CallLog;
use crate::door::Announced;
use crate::limits::MAX_CALLS;
use crate::rule::HostSeat;
use crate::view::View;
use atomic_table::Badge;
use pid_blocks::Uid;
use std::marker::Model;
use stop_handlers::Decider;

/// A session of one user on a shared host. Besides the values of its methods, contracts see the part of the journal
/// that the session knows, and the session's own entries.
#[derive(Drop)]
pub struct Session {
    pub(crate) uid: Uid,
    pub(crate) number: usize,
    pub(crate) calls_made: u32,
    /// No contract depends on it.
    pub(crate) announced: Announced,
    pub(crate) badge: Badge<View>,
}

impl Model for Session {
    ghost use Rattle.std.specs.Prelude.{◌≡◌, [], ◌∷◌};
    ghost use Rattle.host_lock.specs.Sessions.{SessionData};
    ghost use Rattle.host_lock.specs.Rule.{start_of, known_of, mine_of, view_in, IsAtRest};
    ghost use Rattle.host_lock.specs.Journal.{IsLegal, entries_of};

    ghost Value = { SessionData };

    ghost view = { λ s. record {
      uid = s.uid;
      number = s.number;
      calls = s.calls_made;
      known = known_of (view_in s.badge.views);
      mine = mine_of (view_in s.badge.views);
      host = s.badge.table_id;
      start = start_of (view_in s.badge.views);
    } };

    ghost invariant = { λ s.
        (s.badge.views ≡ view_in s.badge.views ∷ [])
        × IsAtRest s.number s.calls_made (view_in s.badge.views)
        × IsLegal (start_of (view_in s.badge.views)) (known_of (view_in s.badge.views))
        × (entries_of s.number (known_of (view_in s.badge.views)) ≡ mine_of (view_in s.badge.views)) };
}

impl Session {
    pub(crate) fn into_seat<F: Decider + Send + Drop, J: CallLog + Send + Drop>(
        self,
    ) -> HostSeat<F, J>
        ensures { (result.table_id ≡ self.host) × (result.me ≡ (session_view self.start Idle (max_calls - self.calls) self.known self.number self.mine, [])) }
    {
        let Session {
            uid: _,
            number: _,
            calls_made: _,
            announced: _,
            badge,
        } = self;
        badge.into_seat()
    }

    /// Returns the session's user.
    pub fn uid(&self) -> Uid
        ensures { result ≡ self.now.uid }
    {
        self.uid
    }

    /// Returns the session's index, from 0, among the sessions that were opened.
    pub fn number(&self) -> usize
        ensures { result ≡ self.now.number }
    {
        self.number
    }

    /// Returns how many calls the session has made.
    pub fn calls_made(&self) -> u32
        ensures { result ≡ self.now.calls }
    {
        self.calls_made
    }

    /// Announces that the session makes so many calls in a row, and waits for no other session between them. Then many
    /// of these calls are made before another session's call, so that the host stays on one processor for longer. Until
    /// the announced calls are made, the calls of other sessions may wait. No answer depends on it.
    pub fn announce(&mut self, calls: u32)
        ensures { self.new ≡ self.old }
    {
        self.announced.announce(calls);
    }
}

/// Returns whether a session that has made `calls_made` calls may make one more.
pub fn budget_left(calls_made: u32) -> bool
    ensures { IsTrue result ↔ (calls_made < max_calls) }
{
    calls_made < MAX_CALLS
}
