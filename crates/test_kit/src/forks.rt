//! A debugger whose tracee forks, and the policy of its handler.

use crate::TestError;
use event_masks::StopFlags;
use signals::{Pass, Signal};
use stop_handlers::{Decision, Policy, Rule};

/// A fork of 1001, the tracee of 1000. Then 1000 traces the child too, and 1001 gets a signal. The only handler of 1000
/// has the policy `fork_policy`.
pub const FORK_STOPS: &str = "
ptrace 1000 PT_SET_EVENT_MASK 1001 PTRACE_FORK -> ok
ptrace 1000 PT_CONTINUE 1001 -> ok
turn 100001 enter fork -> ok
turn 100001 leave -> stopped 100001 5 flags=PL_FLAG_SCX+PL_FLAG_FORKED
handle 1000 -> handled 1001 1407 at 100001 signal=5 flags=PL_FLAG_SCX+PL_FLAG_FORKED child=1002 code=2 by 0 continue 0
handle 1000 -> handled 1002 4479 at 100002 signal=17 flags=PL_FLAG_SCX+PL_FLAG_CHILD child=0 code=2 by none decline
kill 1000 1001 30 -> ok
turn 100001 compute -> stopped 100001 30 flags=none
handle 1000 -> handled 1001 7807 at 100001 signal=30 flags=none child=0 code=0 by 0 detach 0
ptrace 1000 PT_CONTINUE 1001 -> error EPERM 1
ptrace 1000 PT_CONTINUE 1002 -> ok
handle 1000 -> nothing
";

/// Returns a rule for a signal, and stops with at least these flags.
fn rule(signal: u32, flags: StopFlags, decision: Decision) -> Result<Rule, TestError> {
    let signal = Some(Signal::new(signal)?);
    Ok(Rule {
        signal,
        flags,
        decision,
    })
}

/// Returns a policy that continues at a fork, detaches at SIGUSR1 and kills at another SIGTRAP.
pub fn fork_policy() -> Result<Policy, TestError> {
    let none = Pass::new(0)?;
    Ok(Policy::new(&[
        rule(5, StopFlags::PL_FLAG_FORKED, Decision::Continue(none))?,
        rule(30, StopFlags(0), Decision::Detach(none))?,
        rule(5, StopFlags(0), Decision::Kill)?,
    ])?)
}
