//! Short constructors of steps.

ghost use Rattle.std.specs.Prelude.{◌≡◌};
ghost use Rattle.step_types.specs.declared.step.Step.TheVariants as op;

use crate::{Act, Options, Request, Step};
use signals::Disposition;

impl<H> Step<H> {
    /// Lists the numbers of the user's processes, for the process `caller`.
    pub fn list(caller: u32) -> Step<H>
        ensures { result ≡ op.List caller }
    {
        Step::List { caller }
    }

    /// sigaction(2) by the process `caller`: sets its disposition of the signal `sig`.
    pub fn sigaction(caller: u32, sig: u32, disposition: Disposition) -> Step<H>
        ensures { result ≡ op.Sigaction caller sig disposition }
    {
        Step::Sigaction {
            caller,
            sig,
            disposition,
        }
    }

    /// kill(2) by the process `caller`: sends `sig` to the process `which`, or for -1 to all others of the user.
    pub fn kill(caller: u32, which: i64, sig: u32) -> Step<H>
        ensures { result ≡ op.Kill caller which sig }
    {
        Step::Kill { caller, which, sig }
    }

    /// wait4(2) by the process `caller`, as with WNOHANG, for the child `which`, or for -1 any child.
    pub fn wait4(caller: u32, which: i64, options: Options) -> Step<H>
        ensures { result ≡ op.Wait4 caller which options }
    {
        Step::Wait4 {
            caller,
            which,
            options,
        }
    }

    /// Installs a stop handler of the debugger `caller`. It is asked after those that the debugger installed before.
    pub fn install(caller: u32, handler: H) -> Step<H>
        ensures { result ≡ op.Install caller handler }
    {
        Step::Install { caller, handler }
    }

    /// Waits for any child of the debugger `caller`. A trace stop goes to its handlers.
    pub fn handle(caller: u32) -> Step<H>
        ensures { result ≡ op.Handle caller }
    {
        Step::Handle { caller }
    }

    /// ptrace(2) by the process `caller`. `target` is the argument pid: a process or an LWP. `arg` is the argument of
    /// that name.
    pub fn ptrace(caller: u32, request: Request, target: u32, arg: u32) -> Step<H>
        ensures { result ≡ op.Ptrace caller request target arg }
    {
        Step::Ptrace {
            caller,
            request,
            target,
            arg,
        }
    }

    /// The turn of the LWP `tid`: it computes, raises a signal, blocks signals, enters a system call or leaves it.
    pub fn turn(tid: u32, act: Act) -> Step<H>
        ensures { result ≡ op.Turn tid act }
    {
        Step::Turn { tid, act }
    }
}
