//! A scenario with a policy and no handler for it.

use scenario::run_threads;
use scenario_runs::{RunFault, RunOptions, bind, parse, run};
use std::alloc::Global;
use std::test::Fail;
use stop_handlers::{ByPolicy, Handler};

const INSTALL: &[u8] = br#"{"steps":[
{"user":1001,"op":"spawn"},
{"user":1001,"op":"install","caller":1000,"rules":[]}
]}"#;

fn none(alloc: Global) -> Vec<Handler<ByPolicy>> {
    Vec::new(alloc)
}

#[test]
fn a_list_of_steps_is_refused(rt: HostRuntime) -> Result<(), Fail> {
    let alloc = rt.alloc();
    let scenario = parse(alloc, INSTALL)?;
    let bound = bind(alloc, &scenario, none(alloc));
    assert_eq!(rt; bound.err(), Some(RunFault::Mismatch));
    Ok(())
}

#[test]
fn a_run_is_refused(rt: HostRuntime) -> Result<(), Fail> {
    let alloc = rt.alloc();
    let scenario = parse(alloc, INSTALL)?;
    let mut writer = Vec::new(alloc);
    let options = RunOptions { user: None };
    let ended = run(alloc, &scenario, none(alloc), options, &mut writer).err();
    assert_eq!(rt; ended, Some(RunFault::Mismatch));
    assert!(rt; writer.is_empty());
    Ok(())
}

#[test]
fn a_run_with_threads_is_refused(rt: HostRuntime) -> Result<(), Fail> {
    let alloc = rt.alloc();
    let scenario = parse(alloc, INSTALL)?;
    let handlers = none(alloc);
    let mut writer = Vec::new(alloc);
    let options = RunOptions { user: None };
    let ended = run_threads(&rt, alloc, &scenario, handlers, options, &mut writer).err();
    assert_eq!(rt; ended, Some(RunFault::Mismatch));
    assert!(rt; writer.is_empty());
    Ok(())
}
