//! Copies of replies.

ghost use Rattle.std.specs.Prelude.{◌≡◌, true, IfOk, OnErr};
ghost use Rattle.step_types.specs.Replies.{is_listing, is_memory};

use crate::Reply;
use pid_blocks::Errno;
use std::alloc::{AllocError, Global};

impl Reply {
    /// Returns whether the step ran out of memory.
    pub fn is_memory(&self) -> bool
        ensures { result ≡ is_memory self.now }
    {
        matches!(self, Reply::Errno(Errno::ENOMEM))
    }

    /// Returns an equal reply. Refused if memory runs out: only a list takes memory.
    pub fn copy(&self, alloc: Global) -> Result<Reply, AllocError>
        ensures copied { IfOk result (λ r. r ≡ self.now) }
        ensures refused { OnErr result (is_listing self.now ≡ true) }
    {
        Ok(match self {
            Reply::Done => Reply::Done,
            Reply::New { pid, tid } => Reply::New {
                pid: *pid,
                tid: *tid,
            },
            Reply::Number(number) => Reply::Number(*number),
            Reply::Status { pid, status } => Reply::Status {
                pid: *pid,
                status: *status,
            },
            Reply::Nothing => Reply::Nothing,
            Reply::Info(info) => Reply::Info(*info),
            Reply::Lwps(tids) => Reply::Lwps(tids.copy(alloc)?),
            Reply::Pids(pids) => Reply::Pids(pids.copy(alloc)?),
            Reply::Mask(mask) => Reply::Mask(*mask),
            Reply::Handled {
                pid,
                status,
                view,
                index,
                decision,
            } => Reply::Handled {
                pid: *pid,
                status: *status,
                view: *view,
                index: *index,
                decision: *decision,
            },
            Reply::Stopped { tid, sig, flags } => Reply::Stopped {
                tid: *tid,
                sig: *sig,
                flags: *flags,
            },
            Reply::Caught(sig) => Reply::Caught(*sig),
            Reply::Ended(status) => Reply::Ended(*status),
            Reply::Held => Reply::Held,
            Reply::Errno(errno) => Reply::Errno(*errno),
        })
    }
}
