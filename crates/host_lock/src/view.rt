//! The knowledge of a seat at the table, and the content of the slot.

use crate::call_log::CallLog;
use crate::shared_state::SharedState;
use pid_blocks::Uid;
use requests::PlainStep;
use std::marker::Model;
use std::snapshot::Snapshot;
use stop_handlers::Decider;

/// The knowledge of a seat. Only contracts use it: the program makes no value of it.
pub struct View;

impl Model for View {
    ghost use Rattle.host_lock.specs.Views.{View, spent};

    ghost Value = { View };

    ghost view = { λ _. spent };
}

/// The content of slot 0: the host, or the step that is being made, which only contracts see.
#[derive(Drop)]
pub enum HostSlot<F: Decider + Send + Drop, J: CallLog + Send + Drop> {
    Present(SharedState<F, J>),
    Taken(Uid, Snapshot<PlainStep>),
}
