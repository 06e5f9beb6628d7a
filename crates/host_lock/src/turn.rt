//! The steps of one call on the table.
ghost use Rattle.std.specs.Prelude.{◌≡◌, ℕ, ◌+◌, ◌-◌, ◌*◌, ◌<◌, ◌≤◌, [], ◌∷◌, ◌++◌, true, false, MatchBool};
ghost use Rattle.host_lock.specs.Views.{Idle, Waiting, Holding, Counted};
ghost use Rattle.host_lock.specs.declared.view.HostSlot.TheVariants.{Present, Taken};
ghost use Rattle.host_lock.specs.History.{history};
ghost use Rattle.host_lock.specs.Journal.{StartsWith, entries_of};
ghost use Rattle.host_lock.specs.Rule.{session_view, snapshot_of, start_of, known_of, mine_of, TakesSlot, IsHostTable, HasCounted, HasTurned, IsOut};

use crate::call_log::CallLog;
use crate::rule::{Count, Draw, HostSeat, Look, Release, SharedTable};
use crate::shared_state::SharedState;
use crate::step::OwnHandler;
use crate::view::HostSlot;
use pid_blocks::Uid;
use requests::{PlainStep, Reply, Step};
use std::alloc::Global;
use std::hint::spin_loop;
use std::snapshot::Snapshot;
use std::sync::Wait;
use stop_handlers::Decider;

/// Waits until the ticket is served. A call that is inside the door finds its ticket served at the first look, since
/// the call before served it before it left. Contracts don't see the door, so the loop would also wait without it.
pub(crate) fn await_ticket<F: Decider + Send + Drop, J: CallLog + Send + Drop, R: Wait>(
    rt: &R,
    table: &SharedTable<F, J>,
    seat: &mut HostSeat<F, J>,
    number: usize,
    ticket: u64,
)
    requires table { IsHostTable table.now.table_id × (seat.old.table_id ≡ table.now.table_id) }
    requires waits { seat.old.me ≡ (session_view (start_of seat.old.me.0) (Waiting ticket) seat.old.me.0.budget (known_of seat.old.me.0) number (mine_of seat.old.me.0), []) }
    ensures table { seat.new.table_id ≡ seat.old.table_id }
    ensures taken { TakesSlot seat.old.me.0 number ticket seat.new.me }
{
    for _ in rt.forever() {
        let serving = table.load::<Look>(seat, 0);
        if serving == ticket {
            return;
        }
        spin_loop();
    }
    unreachable!()
}

/// Adds the call to the count.
pub(crate) fn count_up<F: Decider + Send + Drop, J: CallLog + Send + Drop>(
    table: &SharedTable<F, J>,
    seat: &mut HostSeat<F, J>,
    user: Uid,
    number: usize,
    step: &PlainStep,
    ticket: u64,
)
    requires table { IsHostTable table.now.table_id × (seat.old.table_id ≡ table.now.table_id) }
    requires holds { seat.old.me ≡ (session_view (start_of seat.old.me.0) (Holding ticket) seat.old.me.0.budget (known_of seat.old.me.0) number (mine_of seat.old.me.0), (0, Taken user (snapshot_of step.now)) ∷ []) }
    ensures table { seat.new.table_id ≡ seat.old.table_id }
    ensures counted { HasCounted seat.old.me.0 user number step.now ticket seat.new.me }
{
    table.fetch_add::<Count>(seat, 2, 1);
}

/// Puts the host back, and serves the next ticket.
pub(crate) fn give_back<F: Decider + Send + Drop, J: CallLog + Send + Drop>(
    table: &SharedTable<F, J>,
    seat: &mut HostSeat<F, J>,
    number: usize,
    state: SharedState<F, J>,
)
    requires table { IsHostTable table.now.table_id × (seat.old.table_id ≡ table.now.table_id) }
    requires out { IsOut number state seat.old.me }
    ensures table { seat.new.table_id ≡ seat.old.table_id }
    ensures released { seat.new.me ≡ (session_view state.start Idle seat.old.me.0.budget state.log number (mine_of seat.old.me.0), []) }
{
    let _taken = table.exchange(seat, 0, HostSlot::Present(state));
    table.fetch_add::<Release>(seat, 0, 1);
}

/// Draws a ticket, waits until it is served, makes the step, and serves the next ticket. `plain` is the same step.
pub(crate) fn serve<F: Decider + Send + Drop, J: CallLog + Send + Drop, H: OwnHandler<F>, R: Wait>(
    rt: &R,
    alloc: Global,
    table: &SharedTable<F, J>,
    seat: &mut HostSeat<F, J>,
    user: Uid,
    number: usize,
    step: Step<H>,
    plain: &PlainStep,
) -> Reply
    requires table { IsHostTable table.now.table_id × (seat.old.table_id ≡ table.now.table_id) }
    requires rests { seat.old.me ≡ (session_view (start_of seat.old.me.0) Idle seat.old.me.0.budget (known_of seat.old.me.0) number (mine_of seat.old.me.0), []) }
    requires room { 0 < seat.old.me.0.budget }
    requires plain { plain.now ≡ H.plain step }
    ensures table { seat.new.table_id ≡ seat.old.table_id }
    ensures turned { HasTurned seat.old.me.0 user number (H.plain step) result seat.new.me }
{
    let ticket = table.fetch_add::<Draw>(seat, 1, 1);
    await_ticket(rt, table, seat, number, ticket);
    let HostSlot::Present(mut state) = table.exchange(
        seat,
        0,
        HostSlot::Taken(user, Snapshot::of(plain)),
    ) else {
        unreachable!()
    };
    let reply = state.make(alloc, user, number, step, plain);
    if reply.is_memory() {
        give_back(table, seat, number, state);
        return reply;
    }
    count_up(table, seat, user, number, plain, ticket);
    give_back(table, seat, number, state);
    reply
}
