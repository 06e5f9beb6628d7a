//! The steps of one user, by a fixed rule.

use event_masks::{Call, StopFlags};
use lwp_table::{LwpData, Mode};
use pid_blocks::{Pid, Uid, pid_block, tid_block};
use proc_table::{ProcData, State};
use requests::{Act, Host, PlainStep, Request, Step};
use signals::{Disposition, Pass, SigSet, Signal};
use std::alloc::{AllocError, Global};
use stop_handlers::{ByPolicy, Decision, Policy, Rule};
use test_kit::Dice;
use trace_stop::Settings;
use wait4::Options;

/// Signals that end, stop, continue and don't affect a process, a number that is not a signal's, and 0.
const SIGNALS: [u32; 16] = [0, 2, 5, 9, 15, 16, 17, 18, 19, 19, 20, 23, 28, 30, 31, 32];

const REQUESTS: [Request; 20] = [
    Request::Attach,
    Request::Continue,
    Request::Continue,
    Request::Continue,
    Request::Step,
    Request::Suspend,
    Request::Resume,
    Request::Detach,
    Request::Kill,
    Request::SetEventMask,
    Request::SetEventMask,
    Request::GetEventMask,
    Request::LwpInfo,
    Request::GetNumLwps,
    Request::GetLwpList,
    Request::ToSce,
    Request::ToScx,
    Request::Syscall,
    Request::FollowFork,
    Request::LwpEvents,
];

const CALLS: [Call; 12] = [
    Call::Fork,
    Call::Fork,
    Call::Vfork,
    Call::Exec,
    Call::ThrNew,
    Call::ThrNew,
    Call::ThrExit,
    Call::Exit(3),
    Call::Other(4),
    Call::Other(5),
    Call::Other(73),
    Call::Other(477),
];

const DISPOSITIONS: [Disposition; 3] = [
    Disposition::Default,
    Disposition::Ignore,
    Disposition::Catch,
];

/// Generates the steps of a user, and makes each on a host of the user's own, so that the next one fits.
#[derive(Drop)]
pub struct Writer {
    dice: Dice,
    user: Uid,
    host: Host<ByPolicy>,
}

impl Writer {
    pub fn new(
        alloc: Global,
        dice: Dice,
        user: Uid,
        settings: Settings,
    ) -> Result<Writer, AllocError> {
        let host = Host::new(alloc, settings)?;
        Ok(Writer { dice, user, host })
    }

    /// Returns the next `count` steps.
    pub fn steps(&mut self, alloc: Global, count: usize) -> Result<Vec<PlainStep>, AllocError> {
        (0..count).map(|_| self.next(alloc)).collect(alloc)
    }

    /// Returns the next step.
    fn next(&mut self, alloc: Global) -> PlainStep {
        let step = self.made_up();
        let (user, asked) = (self.user, step.by_policy());
        let _reply = self.host.step(alloc, user, asked);
        step
    }

    /// Returns a step: most often one that fits the state of a process, sometimes one with another user's number.
    fn made_up(&mut self) -> PlainStep {
        let Some(process) = self.process() else {
            return PlainStep::Spawn;
        };
        let few = self.host.tables().process_count(self.user) < 6;
        match self.dice.below(16) {
            0 => self.stray(process.pid.get()),
            1 => PlainStep::Spawn,
            2 if few => PlainStep::Spawn,
            _ => self.fitting(process),
        }
    }

    /// Returns one of the user's processes.
    fn process(&mut self) -> Option<ProcData> {
        let tables = self.host.tables();
        let mut process = tables.next_of(self.user, 0)?;
        for _ in 0..self.dice.below(12) {
            if let Some(next) = tables.next_of(self.user, process.pid.get()) {
                process = next;
            }
        }
        Some(process)
    }

    /// Returns the number of one of the user's processes; 0 if there is none.
    fn number(&mut self) -> u32 {
        match self.process() {
            Some(process) => process.pid.get(),
            None => 0,
        }
    }

    /// Returns a step with a number that is another user's or unused.
    fn stray(&mut self, own: u32) -> PlainStep {
        let other = Uid::new(1001 + self.dice.below(64)).unwrap_or(self.user);
        let far = pid_block(other).first.wrapping_add(self.dice.below(5));
        let tid = tid_block(other).first.wrapping_add(self.dice.below(5));
        match self.dice.below(6) {
            0 => self.ask(own, Request::Attach, far),
            1 => self.ask(far, Request::Attach, own),
            2 => self.kill(own, i64::from(far)),
            3 => self.wait(own, i64::from(far)),
            4 => Step::list(far),
            _ => Step::turn(tid, Act::Compute),
        }
    }

    /// Returns a step that fits the state of the process.
    fn fitting(&mut self, process: ProcData) -> PlainStep {
        let own = process.pid.get();
        let above = process.tracer.map_or(process.parent, |tracer| tracer.get());
        match process.state {
            State::Run => self.running(process),
            State::Trace { seen, .. } => {
                if seen {
                    self.request(above, own)
                } else {
                    self.stopped(above)
                }
            }
            State::Job { .. } => {
                let caller = self.number();
                self.kill(caller, i64::from(own))
            }
            State::Zombie { .. } => self.wait(above, -1),
        }
    }

    /// Returns a step by or about a process that runs.
    fn running(&mut self, process: ProcData) -> PlainStep {
        let own = process.pid.get();
        let other = self.number();
        match self.dice.below(20) {
            0..=3 => self.ask(other, Request::Attach, own),
            4 if process.parent != 1 => self.ask(own, Request::TraceMe, 0),
            5 => self.kill(other, i64::from(own)),
            6 => self.kill(own, -1),
            7 => Step::sigaction(own, self.signal(), self.dice.pick(&DISPOSITIONS)),
            8 => Step::list(own),
            9 => self.wait(own, -1),
            _ => {
                let lwp = self.lwp(process.pid);
                self.turn(lwp)
            }
        }
    }

    /// Returns the first LWP of the process, or any other of the user's.
    fn lwp(&mut self, pid: Pid) -> Option<LwpData> {
        let is_own = self.dice.below(2) == 0;
        let place = self.dice.below(16) as usize;
        let tables = self.host.tables();
        if is_own {
            tables.first_lwp(pid)
        } else {
            tables.lwps_of_user(self.user).nth(place)
        }
    }

    /// Returns a turn of the LWP, or else a spawn.
    fn turn(&mut self, lwp: Option<LwpData>) -> PlainStep {
        let Some(lwp) = lwp else {
            return PlainStep::Spawn;
        };
        let act = match lwp.mode {
            Mode::User => self.act(),
            Mode::InCall(_) => Act::Leave,
            Mode::VforkWait(_) => Act::Compute,
        };
        Step::turn(lwp.tid.get(), act)
    }

    /// Returns an act of an LWP in user mode.
    fn act(&mut self) -> Act {
        let signal = self.signal();
        match self.dice.below(12) {
            0 | 1 => Act::Compute,
            2 => Act::Raise(signal),
            3 => Act::Block(Signal::new(signal).map_or(SigSet::empty(), SigSet::of)),
            _ => Act::Enter(self.dice.pick(&CALLS)),
        }
    }

    /// Returns a step of a debugger about a stop that it has not collected yet.
    fn stopped(&mut self, debugger: u32) -> PlainStep {
        match self.dice.below(8) {
            0 | 1 => Step::install(debugger, self.policy()),
            2..=4 => Step::handle(debugger),
            _ => self.wait(debugger, -1),
        }
    }

    /// Returns a request of a debugger about a stopped process.
    fn request(&mut self, debugger: u32, process: u32) -> PlainStep {
        let request = self.dice.pick(&REQUESTS);
        self.ask(debugger, request, process)
    }

    fn ask(&mut self, caller: u32, request: Request, target: u32) -> PlainStep {
        let data = match request {
            Request::SetEventMask | Request::GetLwpList => self.dice.below(64),
            Request::FollowFork | Request::LwpEvents => self.dice.below(3),
            _ => self.passed(),
        };
        Step::ptrace(caller, request, target, data)
    }

    fn wait(&mut self, caller: u32, which: i64) -> PlainStep {
        let options = Options {
            untraced: self.dice.below(2) == 0,
            continued: self.dice.below(2) == 0,
        };
        Step::wait4(caller, which, options)
    }

    fn kill(&mut self, caller: u32, which: i64) -> PlainStep {
        Step::kill(caller, which, self.signal())
    }

    fn signal(&mut self) -> u32 {
        self.dice.pick(&SIGNALS)
    }

    /// Returns a signal to pass on, most often 0.
    fn passed(&mut self) -> u32 {
        match self.dice.below(4) {
            0 => self.signal(),
            _ => 0,
        }
    }

    /// Returns a policy of two random rules.
    fn policy(&mut self) -> Policy {
        let rules = [self.rule(), self.rule()];
        match Policy::new(&rules) {
            Ok(policy) => policy,
            Err(_) => unreachable!(),
        }
    }

    fn rule(&mut self) -> Rule {
        let signal = Signal::new(self.signal());
        Rule {
            signal: match self.dice.below(3) {
                0 => signal.ok(),
                _ => None,
            },
            flags: StopFlags(self.dice.pick(&[0, 0, 0, 0, 1, 2, 4, 8])),
            decision: self.decision(),
        }
    }

    fn decision(&mut self) -> Decision {
        let signal = self.passed();
        let Ok(pass) = Pass::new(signal) else {
            return Decision::Decline;
        };
        self.dice.pick(&[
            Decision::Leave,
            Decision::Continue(pass),
            Decision::Continue(pass),
            Decision::Continue(pass),
            Decision::Detach(pass),
            Decision::Kill,
        ])
    }
}
