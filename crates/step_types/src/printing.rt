//! The text of replies.
ghost use Rattle.std.specs.Prelude.{◌∷◌, Some, map, decimal};
ghost use Rattle.std.specs.List.{join_with_byte};
ghost use Rattle.step_types.specs.Words.{index_text, decision_words, view_words, rest_words, reply_words};

use crate::{LwpInfo, NumList, Reply};
use itoa::Buffer;
use std::fmt;
use stop_handlers::{Decision, StopView};

/// A word and numbers, separated by spaces.
#[derive(Clone, Copy, Drop)]
struct Listed<'a> {
    word: &'a str,
    numbers: &'a NumList,
}

impl fmt::Display for Listed<'_> {
    ghost output = { λ l. Some (join_with_byte 32 (l.word.now ∷ map (λ n. decimal n) l.numbers.now)) };

    #[tactic(auto, using(std::proofs::lemmas::List::take_all, crate::proofs::Joins::spaced_words, std::proofs::lemmas::Bool::Decides::nat_tests))]
    fn fmt<W: fmt::Write>(&self, f: &mut fmt::Formatter<W>) -> fmt::Result {
        f.write_str(self.word)?;
        let mut digits = Buffer::new();
        for number in self.numbers.as_slice() {
            f.write_str(" ")?;
            f.write_str(digits.format(*number))?;
        }
        Ok(())
    }
}

/// The index of a handler among its debugger's, or `none`.
#[derive(Clone, Copy, Drop)]
struct Index(Option<u32>);

impl fmt::Display for Index {
    ghost output = { λ i. Some (index_text i.0) };

    fn fmt<W: fmt::Write>(&self, f: &mut fmt::Formatter<W>) -> fmt::Result {
        match self.0 {
            Some(index) => write!(f, "{index}"),
            None => write!(f, "none"),
        }
    }
}

/// A decision, with the signal that it passes on.
#[derive(Clone, Copy, Drop)]
struct Doing(Decision);

impl fmt::Display for Doing {
    ghost output = { λ d. Some (join_with_byte 32 (decision_words d.0)) };

    fn fmt<W: fmt::Write>(&self, f: &mut fmt::Formatter<W>) -> fmt::Result {
        match self.0 {
            Decision::Decline => write!(f, "decline"),
            Decision::Leave => write!(f, "leave"),
            Decision::Continue(pass) => {
                let signal = pass.number();
                write!(f, "continue {signal}")
            }
            Decision::Detach(pass) => {
                let signal = pass.number();
                write!(f, "detach {signal}")
            }
            Decision::Kill => write!(f, "kill"),
        }
    }
}

/// A trace stop as a handler saw it.
#[derive(Clone, Copy, Drop)]
struct Viewed<'a>(&'a StopView);

impl fmt::Display for Viewed<'_> {
    ghost output = { λ v. Some (join_with_byte 32 (view_words v.0.now)) };

    fn fmt<W: fmt::Write>(&self, f: &mut fmt::Formatter<W>) -> fmt::Result {
        let tid = self.0.tid.get();
        let signal = self.0.sig.number();
        let flags = self.0.flags;
        let child = self.0.child;
        let code = self.0.code;
        write!(
            f,
            "{tid} signal={signal} flags={flags} child={child} code={code}"
        )
    }
}

/// The signals, the child and the call that PT_LWPINFO reported of an LWP.
#[derive(Clone, Copy, Drop)]
struct Rest<'a>(&'a LwpInfo);

impl fmt::Display for Rest<'_> {
    ghost output = { λ i. Some (join_with_byte 32 (rest_words i.0.now)) };

    fn fmt<W: fmt::Write>(&self, f: &mut fmt::Formatter<W>) -> fmt::Result {
        let mask = self.0.sigmask;
        let pending = self.0.siglist;
        let child = self.0.child;
        let code = self.0.code;
        write!(f, "mask={mask} pending={pending} child={child} code={code}")
    }
}

/// Prints the words of a reply as docs/FORMAT.md lists them: `stopped 100000 5 flags=PL_FLAG_SCE`.
impl fmt::Display for Reply {
    ghost output = { λ r. Some (join_with_byte 32 (reply_words r)) };

    fn fmt<W: fmt::Write>(&self, f: &mut fmt::Formatter<W>) -> fmt::Result {
        match self {
            Reply::Done => write!(f, "ok"),
            Reply::New { pid, tid } => {
                let pid = pid.get();
                let tid = tid.get();
                write!(f, "new {pid} {tid}")
            }
            Reply::Number(number) => write!(f, "number {number}"),
            Reply::Status { pid, status } => {
                let pid = pid.get();
                let word = status.word();
                write!(f, "status {pid} {word}")
            }
            Reply::Nothing => write!(f, "nothing"),
            Reply::Info(info) => {
                let tid = info.tid.get();
                let event = info.event;
                let flags = info.flags;
                let rest = Rest(info);
                write!(f, "info {tid} {event} flags={flags} {rest}")
            }
            Reply::Lwps(tids) => {
                let listed = Listed {
                    word: "lwps",
                    numbers: tids,
                };
                write!(f, "{listed}")
            }
            Reply::Pids(pids) => {
                let listed = Listed {
                    word: "pids",
                    numbers: pids,
                };
                write!(f, "{listed}")
            }
            Reply::Mask(mask) => write!(f, "mask {mask}"),
            Reply::Handled {
                pid,
                status,
                view,
                index,
                decision,
            } => {
                let pid = pid.get();
                let word = status.word();
                let seen = Viewed(view);
                let handler = Index(*index);
                let doing = Doing(*decision);
                write!(f, "handled {pid} {word} at {seen} by {handler} {doing}")
            }
            Reply::Stopped { tid, sig, flags } => {
                let tid = tid.get();
                let signal = sig.number();
                write!(f, "stopped {tid} {signal} flags={flags}")
            }
            Reply::Caught(sig) => {
                let signal = sig.number();
                write!(f, "caught {signal}")
            }
            Reply::Ended(status) => write!(f, "ended {status}"),
            Reply::Held => write!(f, "held"),
            Reply::Errno(errno) => {
                let number = errno.number();
                write!(f, "error {errno} {number}")
            }
        }
    }
}
