//! The open session.

ghost use Rattle.std.specs.Prelude.{ℕ, List, ◌≡◌, ◌≢◌, ◌↔◌, ◌++◌, Ok, Err, None, Some, replicate, length, IfOk, IfErr, IfSome, OnOk, OnErr, string_bytes, option_map};
ghost use Rattle.requests.specs.Hosts.{Steps as HostSteps};
ghost use Rattle.requests.specs.Machine.{empty};
ghost use Rattle.requests.specs.View.{view};
ghost use Rattle.visibility.specs.Numbers.{NumbersDiffer};
ghost use Rattle.open_sessions.specs.Answers.{last_numbers, last_reply, shown};
ghost use Rattle.open_sessions.specs.Calls.{last_text, state_of, Steps, Answers, CopiesUser, IsFull, FullFor, LineOf, NoLine};
ghost use Rattle.open_sessions.specs.declared.fault.SessionFault.TheVariants as session_fault;
ghost use Rattle.scenario_text.specs.declared.fault.Fault.TheVariants.{Memory as NoMemory};
ghost use Rattle.user_hosts.specs.declared.hosts.CopyRefusal.TheVariants.{Settings as OtherSettings};

use crate::answers::{LineAnswer, copy_of, numbers_of, reply_of};
use crate::fault::SessionFault;
use crate::front::copy_front;
use crate::line_steps::has_line;
use crate::step_members::step_line;
use crate::texts::push_last;
use crate::view_words::words_of;
use pid_blocks::Uid;
use requests::{PlainStep, Reply};
use scenario_runs::{Fault, StepReader, Style, USERS};
use std::alloc::{AllocError, Global};
use std::marker::Model;
use stop_handlers::ByPolicy;
use trace_stop::Settings;
use user_hosts::{CopyRefusal, UserHosts};
use visibility::View;

/// A host, the number of answers that each user has had, the last answer and the step that it answers. The reader of the
/// lines' steps and the text of an answer are kept for their memory.
#[derive(Drop)]
pub struct Session {
    host: UserHosts<ByPolicy>,
    made: [u64; USERS],
    last: Option<LineAnswer>,
    asked: Option<(Uid, PlainStep)>,
    steps: StepReader,
    text: String,
    /// A host that another session had, kept for its memory.
    spare: Option<Box<UserHosts<ByPolicy>>>,
}

impl Model for Session {
    ghost use Rattle.std.specs.Prelude.{option_map};
    ghost use Rattle.open_sessions.specs.Calls.{OpenSession};
    ghost use Rattle.open_sessions.specs.Answers.{line_reply};
    ghost use Rattle.scenario_text.specs.Plan.{asked as user_step};

    ghost Value = { OpenSession };

    ghost view = { λ s. record {
      host = s.host;
      made = s.made;
      last = option_map line_reply s.last;
      asked = option_map user_step s.asked;
    } };
}

/// A copy of a session, which another session can become. What the other one keeps for its memory isn't in it.
#[derive(Drop)]
pub struct SessionCopy {
    host: Box<UserHosts<ByPolicy>>,
    made: [u64; USERS],
    last: Option<LineAnswer>,
    asked: Option<(Uid, PlainStep)>,
}

impl Model for SessionCopy {
    ghost use Rattle.std.specs.Prelude.{option_map};
    ghost use Rattle.open_sessions.specs.Calls.{OpenSession};
    ghost use Rattle.open_sessions.specs.Answers.{line_reply};
    ghost use Rattle.scenario_text.specs.Plan.{asked as user_step};

    ghost Value = { OpenSession };

    ghost view = { λ s. record {
      host = s.host.value;
      made = s.made;
      last = option_map line_reply s.last;
      asked = option_map user_step s.asked;
    } };
}

impl Session {
    /// Opens a session with an unused host. It takes no memory before the first spawn.
    pub fn new(alloc: Global, settings: Settings) -> Session
        ensures { result ≡ record { host = empty settings; made = replicate 64 0; last = None; asked = None } }
    {
        Session {
            host: UserHosts::new(alloc, settings),
            made: [0; USERS],
            last: None,
            asked: None,
            steps: StepReader::new(alloc),
            text: String::new(alloc),
            spare: None,
        }
    }

    /// Returns another session with an equal host, the same numbers of answers and the same last answer. From then on
    /// both go their own ways. An error means out of memory.
    pub fn copy(&self, alloc: Global) -> Result<Session, AllocError>
        ensures { IfOk result (λ s. s ≡ self.now) }
    {
        let host = self.host.copy(alloc)?;
        let last = copy_of(alloc, &self.last)?;
        Ok(Session {
            host,
            made: self.made,
            last,
            asked: self.asked,
            text: String::new(alloc),
            steps: StepReader::new(alloc),
            spare: None,
        })
    }

    /// Returns a copy for another session to become. It takes the memory of the host that was kept here last, if any. An
    /// error means out of memory.
    #[inline(always)]
    pub fn copy_for(&mut self, alloc: Global) -> Result<SessionCopy, AllocError>
        ensures copied { IfOk result (λ copy. copy ≡ self.old) }
        ensures unchanged { self.new ≡ self.old }
    {
        let last = copy_of(alloc, &self.last)?;
        let host = match self.spare.take() {
            Some(mut spare) => {
                spare.copy_from(alloc, &self.host)?;
                spare
            }
            None => Box::new(alloc, self.host.copy(alloc)?)?,
        };
        Ok(SessionCopy {
            host,
            made: self.made,
            last,
            asked: self.asked,
        })
    }

    /// Becomes the copy. Returns the host that the session had, for another session to keep.
    #[inline(always)]
    pub fn become_copy(&mut self, copy: SessionCopy) -> Box<UserHosts<ByPolicy>>
        ensures { self.new ≡ copy }
    {
        let SessionCopy {
            mut host,
            made,
            last,
            asked,
        } = copy;
        std::mem::swap(&mut self.host, &mut *host);
        self.made = made;
        self.last = last;
        self.asked = asked;
        host
    }

    /// Makes what a user has here equal to what the user has in the source: the processes, and the number of answers. All
    /// other users keep theirs. It takes the time and the memory of only this user's processes. No answer is the last one
    /// afterwards.
    ///
    /// # Errors
    ///
    /// `Settings` if the source has other settings, and `Memory`. Nothing has changed.
    pub fn copy_user(
        &mut self,
        alloc: Global,
        user: Uid,
        source: &Session,
    ) -> Result<(), CopyRefusal>
        ensures done { OnOk result (CopiesUser user self.old source.now self.new) }
        ensures refused { OnErr result (self.new ≡ self.old) }
        ensures settings { (result ≡ Err OtherSettings) ↔ (source.now.host.settings ≢ self.old.host.settings) }
    {
        self.host.copy_user(alloc, user, &source.host)?;
        let slot = user.slot();
        self.made[slot] = source.made[slot];
        self.last = None;
        self.asked = None;
        Ok(())
    }

    /// Keeps a host for its memory, which the next copy of this session takes.
    pub fn keep(&mut self, spare: Box<UserHosts<ByPolicy>>)
        ensures { self.new ≡ self.old }
    {
        self.spare = Some(spare);
    }

    /// Makes a step of the user. The reply is the last answer, and counts as the user's next one.
    ///
    /// # Errors
    ///
    /// `TooManyAnswers`. A reply ENOMEM is not an error of the session.
    pub fn step(&mut self, alloc: Global, user: Uid, step: &PlainStep) -> Result<(), SessionFault>
        ensures stepped { OnOk result (Steps user step.now self.old self.new) }
        ensures room { OnOk result (¬ IsFull user self.old) }
        ensures unchanged { OnErr result (self.new ≡ self.old) }
        ensures full { IfErr result (λ e. (e ≡ session_fault.TooManyAnswers) × IsFull user self.old) }
    {
        let slot = user.slot();
        let count = self.made[slot];
        if count == u64::MAX {
            return Err(SessionFault::TooManyAnswers);
        }
        let reply = make_step(alloc, &mut self.host, user, step);
        self.made[slot] = count + 1;
        self.last = Some(Ok((user, reply)));
        self.asked = Some((user, *step));
        Ok(())
    }

    /// Answers a line: makes the step that it is, or refuses it. The reply or the refusal is the last answer.
    ///
    /// # Errors
    ///
    /// `Memory` if memory ran out for the line, and `TooManyAnswers`. A reply ENOMEM is not an error of the session.
    pub fn answer(&mut self, alloc: Global, line: &[u8]) -> Result<(), SessionFault>
        ensures answered { OnOk result (Answers line.now self.old self.new) }
        ensures room { OnOk result (¬ FullFor line.now self.old) }
        ensures unchanged { OnErr result (self.new ≡ self.old) }
        ensures full { result ≡ Err session_fault.TooManyAnswers → FullFor line.now self.old }
    {
        match self.steps.parse_step(alloc, line) {
            Ok(asked) => self.step(alloc, asked.0, &asked.1),
            Err(fault) => self.refuse(fault),
        }
    }

    /// Keeps the fault for which a line is not a step as the last answer.
    fn refuse(&mut self, fault: Fault) -> Result<(), SessionFault>
        ensures refused { OnOk result ((fault ≢ NoMemory) × (self.new ≡ record self.old { last = Some (Err fault); asked = None })) }
        ensures unchanged { OnErr result (self.new ≡ self.old) }
        ensures memory { IfErr result (λ e. e ≡ session_fault.Memory) }
    {
        match fault {
            Fault::Memory => Err(SessionFault::Memory),
            _ => {
                self.last = Some(Err(fault));
                self.asked = None;
                Ok(())
            }
        }
    }

    /// Returns the last answer, if it is a reply.
    pub fn reply(&self) -> Option<&Reply>
        ensures { option_map (λ r. r.now) result ≡ last_reply self.now.last }
    {
        reply_of(&self.last)
    }

    /// Returns the numbers of the last answer, if it is a list, or else none.
    pub fn numbers(&self) -> &[u32]
        ensures { result.now ≡ last_numbers self.now.last }
    {
        numbers_of(&self.last)
    }

    /// Adds the line of the last answer to the text. Before any answer it is empty. An error means out of memory.
    pub fn push_line(
        &self,
        alloc: Global,
        style: Style,
        text: &mut String,
    ) -> Result<(), AllocError>
        ensures { OnOk result (string_bytes text.new ≡ string_bytes text.old ++ last_text style self.now) }
    {
        push_last(alloc, style, &self.last, &self.made, text)
    }

    /// Writes the line of the last answer over the front of the bytes, as far as they have room, and returns its whole
    /// length. Before any answer it is empty.
    ///
    /// # Errors
    ///
    /// Out of memory. The bytes are as they were, and the line can be asked for again.
    pub fn show(&mut self, alloc: Global, style: Style, out: &mut [u8]) -> Result<usize, AllocError>
        ensures session { self.new ≡ self.old }
        ensures length { IfOk result (λ n. n ≡ length (last_text style self.old)) }
        ensures shown { OnOk result (out.new ≡ shown (last_text style self.old) out.old) }
        ensures unchanged { OnErr result (out.new ≡ out.old) }
    {
        self.text.clear();
        push_last(alloc, style, &self.last, &self.made, &mut self.text)?;
        Ok(copy_front(self.text.as_bytes(), out))
    }

    /// Writes the line of the step that was answered last over the front of the bytes, as far as they have room, and
    /// returns its whole length. Read as a line, it is this step, a PT_TRACE_ME without target and data, which it ignores.
    /// `None` before any answer, after a line that was refused, and for a step that no line is: a mask with bits that no
    /// event has, a rule with flags that no stop has.
    ///
    /// # Errors
    ///
    /// Out of memory. The bytes are as they were, and the line can be asked for again.
    pub fn show_step(&mut self, alloc: Global, out: &mut [u8]) -> Result<Option<usize>, AllocError>
        ensures session { self.new ≡ self.old }
        ensures shown { IfOk result (λ n. IfSome n (λ n. (line : List ℕ) × LineOf self.old.asked line
            × (out.new ≡ shown line out.old) × (n ≡ length line))) }
        ensures none { result ≡ Ok None → NoLine self.old.asked × (out.new ≡ out.old) }
        ensures unchanged { OnErr result (out.new ≡ out.old) }
    {
        let Some((user, step)) = self.asked else {
            return Ok(None);
        };
        if !has_line(&step) {
            return Ok(None);
        }
        let line = step_line(alloc, user, &step)?;
        Ok(Some(copy_front(line.as_slice(), out)))
    }

    /// Writes all that the user sees of the host as numbers over the front of `out`, as far as they have room, and
    /// returns how many there are. Two hosts show the user the same exactly if these numbers are the same.
    ///
    /// # Errors
    ///
    /// Out of memory. `out` is as it was.
    pub fn show_state(&self, alloc: Global, user: Uid, out: &mut [u32]) -> Result<usize, AllocError>
        ensures length { IfOk result (λ n. n ≡ length (state_of user self.now)) }
        ensures shown { OnOk result (out.new ≡ shown (state_of user self.now) out.old) }
        ensures unchanged { OnErr result (out.new ≡ out.old) }
    {
        let seen = self.view(alloc, user)?;
        let words = words_of(alloc, &seen)?;
        Ok(copy_front(words.as_slice(), out))
    }

    /// Returns what the user sees of the host. An error means out of memory.
    pub fn view(&self, alloc: Global, user: Uid) -> Result<View, AllocError>
        ensures view { IfOk result (λ v. v ≡ view user self.now.host) }
        ensures differ { IfOk result (λ v. NumbersDiffer v) }
    {
        self.host.view(alloc, user)
    }
}

/// Makes a step of the user on the host. A handler that it installs answers by its policy.
fn make_step(alloc: Global, host: &mut UserHosts<ByPolicy>, user: Uid, step: &PlainStep) -> Reply
    ensures { HostSteps user step.now host.old host.new result }
{
    match host.step_without_handler(alloc, user, step) {
        Some(reply) => reply,
        None => make_with_handler(alloc, host, user, step),
    }
}

/// Makes a step as `make_step` does. It is apart, so that steps without a handler need no room for one.
#[inline(never)]
fn make_with_handler(
    alloc: Global,
    host: &mut UserHosts<ByPolicy>,
    user: Uid,
    step: &PlainStep,
) -> Reply
    ensures { HostSteps user step.now host.old host.new result }
{
    host.step(alloc, user, step.by_policy())
}
