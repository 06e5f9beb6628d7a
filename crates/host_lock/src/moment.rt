//! A moment of a session, which another session may learn of.

ghost use Rattle.std.specs.Prelude.{◌≡◌, []};
ghost use Rattle.host_lock.specs.Journal.{IsLegal, entries_of};
ghost use Rattle.host_lock.specs.Rule.{HasLearned, IsHostTable, mine_of, moment_view, known_of, session_view, start_of};
ghost use Rattle.host_lock.specs.Views.{Idle};

use crate::call_log::CallLog;
use crate::rule::{HostSeat, JoinTwo, Look, SharedTable, SplitOff};
use crate::view::View;
use atomic_table::Badge;
use std::marker::Model;
use stop_handlers::Decider;

/// What a session knew of the journal: its own answered calls, and all calls before them. Any thread may be given
/// it. Contracts see these entries.
#[derive(Drop)]
pub struct Moment {
    pub(crate) badge: Badge<View>,
}

impl Model for Moment {
    ghost use Rattle.std.specs.Prelude.{◌≡◌, [], ◌∷◌};
    ghost use Rattle.host_lock.specs.Sessions.{MomentData};
    ghost use Rattle.host_lock.specs.Rule.{start_of, known_of, view_in, moment_view};
    ghost use Rattle.host_lock.specs.Journal.{IsLegal};

    ghost Value = { MomentData };

    ghost view = { λ m. record {
      known = known_of (view_in m.badge.views);
      host = m.badge.table_id;
      start = start_of (view_in m.badge.views);
    } };

    ghost invariant = { λ m.
        (m.badge.views ≡ moment_view (start_of (view_in m.badge.views)) (known_of (view_in m.badge.views)) ∷ [])
        × IsLegal (start_of (view_in m.badge.views)) (known_of (view_in m.badge.views)) };
}

impl Moment {
    pub(crate) fn into_seat<F: Decider + Send + Drop, J: CallLog + Send + Drop>(
        self,
    ) -> HostSeat<F, J>
        ensures { (result.table_id ≡ self.host) × (result.me ≡ (moment_view self.start self.known, [])) × IsLegal self.start self.known }
    {
        let Moment { badge } = self;
        badge.into_seat()
    }
}

/// Splits off a seat that knows the same. It owns no session, since the seat of a session keeps its only one.
pub(crate) fn show<F: Decider + Send + Drop, J: CallLog + Send + Drop>(
    table: &SharedTable<F, J>,
    seat: &mut HostSeat<F, J>,
    number: usize,
) -> HostSeat<F, J>
    requires table { IsHostTable table.now.table_id × (seat.old.table_id ≡ table.now.table_id) }
    requires rests { seat.old.me ≡ (session_view (start_of seat.old.me.0) Idle seat.old.me.0.budget (known_of seat.old.me.0) number (mine_of seat.old.me.0), []) }
    ensures table { (seat.new.table_id ≡ seat.old.table_id) × (result.table_id ≡ seat.old.table_id) }
    ensures same { seat.new.me ≡ seat.old.me }
    ensures shown { result.me ≡ (moment_view (start_of seat.old.me.0) (known_of seat.old.me.0), []) }
{
    table.split_seat::<SplitOff>(seat)
}

/// Lets the seat of a session know what another seat knows, which is given up. No word of the table changes.
pub(crate) fn learn<F: Decider + Send + Drop, J: CallLog + Send + Drop>(
    table: &SharedTable<F, J>,
    seat: &mut HostSeat<F, J>,
    number: usize,
    shown: HostSeat<F, J>,
)
    requires table { IsHostTable table.now.table_id × (seat.old.table_id ≡ table.now.table_id) × (shown.table_id ≡ table.now.table_id) }
    requires rests { seat.old.me ≡ (session_view (start_of seat.old.me.0) Idle seat.old.me.0.budget (known_of seat.old.me.0) number (mine_of seat.old.me.0), []) }
    requires shown { shown.me ≡ (moment_view (start_of seat.old.me.0) (known_of shown.me.0), []) }
    requires legal { IsLegal (start_of seat.old.me.0) (known_of seat.old.me.0) × IsLegal (start_of seat.old.me.0) (known_of shown.me.0) }
    requires own { entries_of number (known_of seat.old.me.0) ≡ mine_of seat.old.me.0 }
    ensures table { seat.new.table_id ≡ seat.old.table_id }
    ensures learned { HasLearned seat.old.me.0 number (known_of shown.me.0) seat.new.me }
{
    table.join_seat::<JoinTwo>(seat, shown);
    table.load::<Look>(seat, 0);
}
