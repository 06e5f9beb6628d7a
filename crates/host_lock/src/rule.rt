//! The rule of the table, and the knowledge that each step on it gives. Word 0 is serving, word 1 ticket, word 2 count.

ghost use Rattle.host_lock.specs.Rule.{drew, looked, counted, released};

use crate::call_log::CallLog;
use crate::view::{HostSlot, View};
use atomic_table::{Join, Play, Seat, Shared, Split, Table, TableRule};
use requests::Host;
use std::alloc::Global;
use std::snapshot::Snapshot;
use stop_handlers::Decider;

/// The key of a table: the host at opening, which only contracts see, and the number of sessions.
#[derive(Drop)]
pub struct TableKey<F: Decider + Send + Drop> {
    pub start: Snapshot<Host<F>>,
    pub sessions: usize,
}

pub struct HostRule;

impl<F: Decider + Send + Drop, J: CallLog + Send + Drop> TableRule<
    HostSlot<F, J>,
    View,
    TableKey<F>,
> for HostRule {
    ghost use Rattle.host_lock.specs.Rule.{SharedInvariant, opening_view};

    ghost holds = { λ o s. SharedInvariant o.start.value o.sessions s };

    ghost first = { λ o. opening_view o.start.value o.sessions };
}

pub type HostTable<F, J> = Table<HostSlot<F, J>, View, TableKey<F>, HostRule, Global>;

pub type SharedTable<F, J> = Shared<HostSlot<F, J>, View, TableKey<F>, HostRule>;

pub type HostSeat<F, J> = Seat<HostSlot<F, J>, View>;

/// Addition to ticket.
pub(crate) struct Draw;

impl<F: Decider + Send + Drop, J: CallLog + Send + Drop> Play<HostSlot<F, J>, View> for Draw {
    ghost then = { drew };
}

/// Load of serving. If it is the seat's ticket, the slot is then out with the seat. Otherwise a seat that knows several
/// beginnings of the journal keeps the longest one.
pub(crate) struct Look;

impl<F: Decider + Send + Drop, J: CallLog + Send + Drop> Play<HostSlot<F, J>, View> for Look {
    ghost then = { looked };
}

/// Addition to count: the step of the machine.
pub(crate) struct Count;

impl<F: Decider + Send + Drop, J: CallLog + Send + Drop> Play<HostSlot<F, J>, View> for Count {
    ghost then = { counted };
}

/// Addition to serving. The state is in the slot again.
pub(crate) struct Release;

impl<F: Decider + Send + Drop, J: CallLog + Send + Drop> Play<HostSlot<F, J>, View> for Release {
    ghost then = { released };
}

/// Splits a seat: it keeps its first session. The new seat knows the same, and owns the other sessions, if there are any.
pub(crate) struct SplitOff;

impl Split<View> for SplitOff {
    ghost use Rattle.host_lock.specs.Rule.{split_left, split_right};

    ghost left = { split_left };

    ghost right = { split_right };
}

/// Joins two seats: the kept one owns the sessions of both.
pub(crate) struct JoinTwo;

impl Join<View> for JoinTwo {
    ghost use Rattle.host_lock.specs.Rule.{both};
    ghost use Rattle.host_lock.specs.Views.{spent};

    ghost both = { both };

    ghost spent = { spent };
}
