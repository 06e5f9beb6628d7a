//! A scenario's steps and settings, and the faults of scenarios and of their runs.

use requests::{PlainStep, Step};
use scenario::{Fault, RunFault, Scenario, parse, read};
use std::alloc::Global;
use std::fmt::Display;
use test_kit::{TestError, expect};
use trace_stop::Settings;

pub fn check(rt: &impl Print, alloc: Global) -> Result<(), TestError> {
    a_scenario_has_settings_and_steps(alloc)?;
    faults_have_statuses(alloc)?;
    faults_of_runs_have_statuses(alloc)?;
    println!(rt; "scenarios: 3 checks passed")?;
    Ok(())
}

/// Two processes of user 1001, and one of user 1002 between them.
pub const SPAWN_AND_LIST: &str = r#"{"steps":[
{"user":1001,"op":"spawn"},
{"user":1002,"op":"spawn"},
{"user":1001,"op":"spawn"},
{"user":1001,"op":"list","caller":1000}
]}"#;

/// Returns the scenario of the text.
pub fn scenario_of(alloc: Global, text: &str) -> Result<Scenario, TestError> {
    match parse(alloc, text.as_bytes()) {
        Ok(scenario) => Ok(scenario),
        Err(Fault::Memory) => Err(TestError::Memory),
        Err(_) => Err(TestError::Wrong("a scenario has a fault")),
    }
}

/// Checks that the scenario has these steps, under the standard settings.
fn check_steps(scenario: &Scenario, steps: &[PlainStep]) -> Result<(), TestError> {
    expect(
        scenario.settings == Settings::standard(),
        "a scenario has other settings",
    )?;
    let is_whole = scenario.bare_steps().len() == steps.len();
    expect(is_whole, "a scenario has more or fewer steps")?;
    for (found, wanted) in scenario.steps.iter().zip(steps.iter()) {
        expect(found.1 == *wanted, "a scenario has other steps")?;
    }
    Ok(())
}

fn a_scenario_has_settings_and_steps(alloc: Global) -> Result<(), TestError> {
    let steps = [
        Step::Spawn,
        Step::Spawn,
        Step::Spawn,
        Step::List { caller: 1000 },
    ];
    let mut bytes = SPAWN_AND_LIST.as_bytes();
    let read = read(alloc, &mut bytes).ok();
    let read = read.ok_or(TestError::Wrong("a scenario isn't read"))?;
    check_steps(&read, &steps)?;
    check_steps(&scenario_of(alloc, SPAWN_AND_LIST)?, &steps)?;
    let text = r#"{"kill_on_debugger_exit":0,"steps":[]}"#;
    let other = scenario_of(alloc, text)?.settings;
    expect(
        other == Settings::detach_on_exit(),
        "a scenario has other settings",
    )
}

/// Checks the line of a fault, and the exit status of a program that ends with it.
fn check_fault<F: Display>(
    alloc: Global,
    fault: &F,
    status: u8,
    wanted: &str,
) -> Result<(), TestError> {
    let found = format!(in alloc; "{fault} ({status})")?;
    let told = found.as_str().strip_prefix("tracehost: ");
    expect(told == Some(wanted), "a fault has another line or status")
}

fn faults_have_statuses(alloc: Global) -> Result<(), TestError> {
    for (fault, wanted) in [
        (Fault::Read, "cannot read (3)"),
        (Fault::TooLong, "refused: TooLong (1)"),
        (Fault::BadJson, "refused: BadJson (1)"),
        (Fault::TooManySteps, "refused: TooManySteps (1)"),
        (Fault::BadShape(7), "refused: BadShape at step 7 (1)"),
        (Fault::BadUser(7), "refused: BadUser at step 7 (1)"),
        (Fault::BadName(7), "refused: BadName at step 7 (1)"),
        (Fault::BadNumber(7), "refused: BadNumber at step 7 (1)"),
        (
            Fault::TooManyRules(7),
            "refused: TooManyRules at step 7 (1)",
        ),
        (Fault::Memory, "out of memory (3)"),
    ] {
        check_fault(alloc, &fault, fault.status(), wanted)?;
    }
    Ok(())
}

fn faults_of_runs_have_statuses(alloc: Global) -> Result<(), TestError> {
    for (fault, wanted) in [
        (RunFault::Memory, "out of memory (3)"),
        (RunFault::Start, "cannot start a worker (3)"),
        (RunFault::Write, "cannot write (3)"),
        (RunFault::Mismatch, "handlers do not match (3)"),
    ] {
        check_fault(alloc, &fault, fault.status(), wanted)?;
    }
    Ok(())
}
