use super::wire::Wire;
use super::{ITS_LINES, ITS_LINES_BY_USER, SPAWN_AND_LIST};
use scenario::run_threads;
use scenario_runs::{RunFault, RunOptions, parse, run};
use std::process::Abort;
use std::sync::Wait;
use std::test::Fail;
use std::thread::Threads;
use stop_handlers::{ByPolicy, Handler};

/// Checks that a writer with this room takes that front of the lines, and that the run ends with this fault. The run
/// has a thread for each user or none.
fn check<R: Abort + Threads + Wait + Sync + AllocGlobal>(
    rt: &R,
    (room, fails): (usize, bool),
    threads: bool,
    want: Option<RunFault>,
) -> Result<(), Fail> {
    let alloc = rt.alloc();
    let mut writer = Wire::new(alloc, b"", room, fails);
    let scenario = parse(alloc, SPAWN_AND_LIST.as_bytes())?;
    let handlers: Vec<Handler<ByPolicy>> = Vec::new(alloc);
    let options = RunOptions { user: None };
    let (ended, lines) = if threads {
        let ended = run_threads(rt, alloc, &scenario, handlers, options, &mut writer);
        (ended, ITS_LINES_BY_USER)
    } else {
        let ended = run(alloc, &scenario, handlers, options, &mut writer);
        (ended, ITS_LINES)
    };
    assert!(rt; ended.err() == want, "at {room}");
    assert!(rt;
        lines.as_bytes().get(..room) == Some(writer.taken.as_slice()),
        "at {room}"
    );
    Ok(())
}

#[test]
fn writers_that_end(rt: HostRuntime) -> Result<(), Fail> {
    for (fails, threads) in [(true, false), (false, false), (true, true), (false, true)] {
        for room in 0..ITS_LINES.len() {
            check(&rt, (room, fails), threads, Some(RunFault::Write))?;
        }
        check(&rt, (ITS_LINES.len(), fails), threads, None)?;
    }
    Ok(())
}
