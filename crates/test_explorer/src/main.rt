//! Explores small systems, and prints what is said of them. The file stdout contains the expected output, which an
//! enumeration in Python prints (`tests/python/enumerated_systems.py`), and not this program.
#![tactic(auto)]

mod counters;
mod lock;
mod session;
mod target;
mod tracing;

use counters::Counters;
use explorer::{System, Verdict, explore};
use lock::Lock;
use pid_blocks::Uid;
use session::attach_to_exiting;
use std::alloc::Global;
use std::io;
use std::process::ExitCode;
use target::debugger_and_target;
use tracing::Tracing;

/// Prints the end of a line: how long a trace is, and its transitions.
fn print_trace(rt: &impl Print, trace: &[u32]) -> io::Result<()> {
    print!(rt; " after {}:", trace.len())?;
    for transition in trace {
        print!(rt; " {transition}")?;
    }
    println!(rt; "")
}

/// Prints a verdict on a system.
fn print_verdict(rt: &impl Print, name: &str, verdict: &Verdict, limit: u32) -> io::Result<()> {
    match verdict {
        Verdict::Passed { states } => println!(rt; "{name}: passed, {states} states"),
        Verdict::Fails { trace } => {
            print!(rt; "{name}: fails")?;
            print_trace(rt, trace.as_slice())
        }
        Verdict::Stuck { goal, trace } => {
            print!(rt; "{name}: goal {goal} can't be met any more")?;
            print_trace(rt, trace.as_slice())
        }
        Verdict::StateLimit => println!(rt; "{name}: more than {limit} states"),
    }
}

/// Explores a system, and prints the verdict.
fn tell<S: System + Drop>(
    rt: &impl Print,
    alloc: Global,
    name: &str,
    mut system: S,
    start: &[u32],
    limit: u32,
) -> io::Result<()>
    requires { S.knows system start.now }
{
    let verdict = explore(alloc, &mut system, start, limit)?;
    print_verdict(rt, name, &verdict, limit)
}

fn tell_counters(rt: &impl Print, alloc: Global, limit: u32) -> io::Result<()> {
    let counters = Counters {
        count: 3,
        modulus: 7,
    };
    tell(
        rt,
        alloc,
        "three counters to 7",
        counters,
        &[0, 0, 0],
        limit,
    )
}

fn tell_lock(rt: &impl Print, alloc: Global, name: &str, lock: Lock) -> io::Result<()> {
    tell(rt, alloc, name, lock, &[0, 0, 0, 0, 0], 1000)
}

fn tell_debugger(rt: &impl Print, alloc: Global, name: &str, tracing: Tracing) -> io::Result<()> {
    tell(rt, alloc, name, tracing, &[0, 0, 0, 0], 1000)
}

/// Explores the scripts of a debugger and its target.
fn tell_scripts(rt: &impl Print, alloc: Global, name: &str, careful: bool) -> io::Result<()> {
    let scripts = debugger_and_target(alloc, careful)?;
    tell(rt, alloc, name, scripts, &[0, 0, 0], 1000)
}

/// Searches the schedules of a debugger and its target on a host.
fn tell_session(
    rt: &impl Print,
    alloc: Global,
    name: &str,
    careful: bool,
    detaches: bool,
) -> io::Result<()> {
    let Ok(user) = Uid::new(1001) else {
        unreachable!()
    };
    let verdict = attach_to_exiting(alloc, user, careful, detaches)?;
    print_verdict(rt, name, &verdict, 1000)
}

/// Explores each system. An error is of output, or means that memory ran out; nothing is said of the system then.
fn explore_all(rt: &impl Print, alloc: Global) -> io::Result<()> {
    tell_counters(rt, alloc, 343)?;
    tell_counters(rt, alloc, 342)?;
    tell_counters(rt, alloc, 0)?;
    let right = Lock {
        waits: true,
        turns: true,
    };
    tell_lock(rt, alloc, "Peterson's lock", right)?;
    tell_lock(
        rt,
        alloc,
        "a lock without waiting",
        Lock {
            waits: false,
            ..right
        },
    )?;
    tell_lock(
        rt,
        alloc,
        "a lock without turns",
        Lock {
            turns: false,
            ..right
        },
    )?;
    let right = Tracing {
        careful: true,
        detaches: true,
        ticker: false,
    };
    tell_debugger(rt, alloc, "a right debugger", right)?;
    tell_debugger(
        rt,
        alloc,
        "a careless debugger",
        Tracing {
            careful: false,
            ..right
        },
    )?;
    let beside = Tracing {
        ticker: true,
        ..right
    };
    tell_debugger(rt, alloc, "a right debugger beside a ticker", beside)?;
    let forgetful = Tracing {
        detaches: false,
        ..beside
    };
    tell_debugger(rt, alloc, "a forgetful debugger beside a ticker", forgetful)?;
    tell_scripts(rt, alloc, "scripts of a right debugger", true)?;
    tell_scripts(rt, alloc, "scripts of a careless debugger", false)?;
    tell_session(rt, alloc, "a right debugger on a host", true, true)?;
    tell_session(rt, alloc, "a careless debugger on a host", false, true)?;
    tell_session(rt, alloc, "a forgetful debugger on a host", true, false)
}

fn main(rt: HostRuntime) -> ExitCode {
    match explore_all(&rt, rt.alloc()) {
        Ok(()) => ExitCode::SUCCESS,
        Err(trouble) => {
            let _ = eprintln!(&rt; "test_explorer: {trouble}");
            ExitCode::from(3)
        }
    }
}
