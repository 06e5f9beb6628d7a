//! A reply as numbers.
ghost use Rattle.std.specs.Prelude.{◌≡◌, ◌%◌, ◌^◌, length};
ghost use Rattle.tracehost_c.specs.Replies.{blank, flat, flat_info, flat_handled, has_index, event_number};
ghost use Rattle.open_sessions.specs.Flat.{number_or_0};

use open_sessions::flat::{flag, passed};
use pid_blocks::Pid;
use step_types::{Event, LwpInfo, NumList, Reply, Status};
use stop_handlers::{Decision, StopView};

/// A reply: its kind, and the numbers that this kind has. All others are 0.
#[repr(C)]
#[derive(Clone, Copy, Debug, PartialEq, Eq, Drop)]
pub struct FlatReply {
    /// The place of the kind in `Reply`.
    pub kind: u32,
    pub pid: u32,
    pub lwp: u32,
    pub number: u32,
    /// The word of a wait status.
    pub status: u32,
    pub signal: u32,
    /// 1 if the LWP reports the stop, as PL_EVENT_SIGNAL of ptrace(2), else 0.
    pub event: u32,
    /// The bits of the stop's flags.
    pub flags: u32,
    /// A set of signals, or of events.
    pub mask: u32,
    pub pending: u32,
    pub child: u32,
    pub code: u32,
    /// 1 if a handler has decided, else 0.
    pub has_handler: u32,
    /// The index of the handler that decided, from 0.
    pub handler: u32,
    /// The place of the decision in `Decision`.
    pub decision: u32,
    /// The signal that is passed on, or 0.
    pub pass: u32,
    /// The error's number in errno(2).
    pub error: u32,
    /// The length of a list.
    pub count: u32,
    /// The process of the stop that a handler was shown.
    pub stop_pid: u32,
}

fn event_number(event: Event) -> u32
    ensures { result ≡ event_number event }
{
    match event {
        Event::Nothing => 0,
        Event::Signal => 1,
    }
}

/// Returns 1 if there is an index, else 0.
fn has_index(index: Option<u32>) -> u32
    ensures { result ≡ has_index index }
{
    flag(index.is_some())
}

fn index_number(index: Option<u32>) -> u32
    ensures { result ≡ number_or_0 index }
{
    match index {
        Some(place) => place,
        None => 0,
    }
}

/// Returns a list's length. A user has fewer than 2^32 numbers, and so the remainder is the length.
fn count_of(numbers: &NumList) -> u32
    ensures { result ≡ length numbers.now % 2 ^ 32 }
{
    (numbers.len() % (1 << 32)) as u32
}

impl FlatReply {
    /// Returns the reply of this kind with all its numbers 0.
    pub fn blank(kind: u32) -> FlatReply
        ensures { result ≡ blank kind }
    {
        FlatReply {
            kind,
            pid: 0,
            lwp: 0,
            number: 0,
            status: 0,
            signal: 0,
            event: 0,
            flags: 0,
            mask: 0,
            pending: 0,
            child: 0,
            code: 0,
            has_handler: 0,
            handler: 0,
            decision: 0,
            pass: 0,
            error: 0,
            count: 0,
            stop_pid: 0,
        }
    }

    fn info(info: &LwpInfo) -> FlatReply
        ensures { result ≡ flat_info info.now }
    {
        FlatReply {
            lwp: info.tid.get(),
            event: event_number(info.event),
            flags: info.flags.0,
            mask: info.sigmask.bits(),
            pending: info.siglist.bits(),
            child: info.child,
            code: info.code,
            ..FlatReply::blank(5)
        }
    }

    fn handled(
        pid: Pid,
        status: &Status,
        view: &StopView,
        index: Option<u32>,
        decision: &Decision,
    ) -> FlatReply
        ensures { result ≡ flat_handled pid status.now view.now index decision.now }
    {
        FlatReply {
            pid: pid.get(),
            lwp: view.tid.get(),
            status: status.word(),
            signal: view.sig.number(),
            flags: view.flags.0,
            child: view.child,
            code: view.code,
            has_handler: has_index(index),
            handler: index_number(index),
            decision: decision.kind().number(),
            pass: passed(decision),
            stop_pid: view.pid.get(),
            ..FlatReply::blank(9)
        }
    }

    /// Stores the reply as numbers, in place of the numbers that are here. A list is its length.
    pub fn set(&mut self, reply: &Reply)
        ensures { self.new ≡ flat reply.now }
    {
        match reply {
            Reply::Done => *self = FlatReply::blank(0),
            Reply::New { pid, tid } => {
                *self = FlatReply::blank(1);
                self.pid = pid.get();
                self.lwp = tid.get();
            }
            Reply::Number(number) => {
                *self = FlatReply::blank(2);
                self.number = *number;
            }
            Reply::Status { pid, status } => {
                *self = FlatReply::blank(3);
                self.pid = pid.get();
                self.status = status.word();
            }
            Reply::Nothing => *self = FlatReply::blank(4),
            Reply::Info(info) => *self = FlatReply::info(info),
            Reply::Lwps(tids) => {
                *self = FlatReply::blank(6);
                self.count = count_of(tids);
            }
            Reply::Pids(pids) => {
                *self = FlatReply::blank(7);
                self.count = count_of(pids);
            }
            Reply::Mask(mask) => {
                *self = FlatReply::blank(8);
                self.mask = mask.0;
            }
            Reply::Handled {
                pid,
                status,
                view,
                index,
                decision,
            } => *self = FlatReply::handled(*pid, status, view, *index, decision),
            Reply::Stopped { tid, sig, flags } => {
                *self = FlatReply::blank(10);
                self.lwp = tid.get();
                self.signal = sig.number();
                self.flags = flags.0;
            }
            Reply::Caught(sig) => {
                *self = FlatReply::blank(11);
                self.signal = sig.number();
            }
            Reply::Ended(status) => {
                *self = FlatReply::blank(12);
                self.status = *status;
            }
            Reply::Held => *self = FlatReply::blank(13),
            Reply::Errno(errno) => {
                *self = FlatReply::blank(14);
                self.error = errno.number();
            }
        }
    }
}
