//! Reads JSON texts as scenarios are read and by `serde_json`, and compares the verdicts and the data. The texts are
//! those on standard input, each after a line with its number of bytes, and texts by chance. It ends with status 1 if
//! one text is read differently.
//!
//! The tests are those of readers and writers that fail, in runs and in sessions line by line. They have a crate of
//! their own, so that the tested crates are proved once.
#![tactic(auto)]

mod by_chance;
mod given;
mod readings;
#[cfg(test)]
mod tests;

use by_chance::text_by_chance;
use given::Given;
use readings::Reading;
use std::alloc::Global;
use std::process::ExitCode;
use test_kit::{Dice, TestError, expect};

/// How many texts by chance are read.
const TEXTS: u32 = 100_000;

/// Reads a text both ways, and returns whether it is a value.
fn is_value_by_both(alloc: Global, text: &[u8]) -> Result<bool, TestError> {
    let (ours, theirs) = (Reading::ours(alloc, text)?, Reading::theirs(alloc, text)?);
    if ours == theirs {
        return Ok(ours.is_value());
    }
    let shown = String::from_utf8_lossy(alloc, text)?;
    Err(TestError::Line(format!(in alloc;
        "{:?} is read as {ours} by us and as {theirs} by serde_json",
        shown.as_str()
    )?))
}

/// Reads the texts on standard input, and returns how many there are.
fn compare_given<R: Input + AllocGlobal>(rt: &R) -> Result<u64, TestError> {
    let mut given = Given::new(rt.alloc(), rt.reader())?;
    let mut count = 0u64;
    for _ in 0..u64::MAX {
        let Some(text) = given.next(rt.alloc())? else {
            break;
        };
        is_value_by_both(rt.alloc(), text.as_slice())?;
        count = count.saturating_add(1);
    }
    Ok(count)
}

/// Reads texts by chance. Some of them, and not all, have to be values.
fn compare_by_chance(alloc: Global) -> Result<(), TestError> {
    let mut dice = Dice::new(2026);
    let mut values = 0u32;
    for _ in 0..TEXTS {
        let text = text_by_chance(alloc, &mut dice)?;
        if is_value_by_both(alloc, text.as_slice())? {
            values = values.saturating_add(1);
        }
    }
    expect(values > TEXTS / 4, "few texts by chance are values")?;
    expect(
        values < TEXTS - TEXTS / 4,
        "most texts by chance are values",
    )
}

fn compare<R: Input + Print + AllocGlobal>(rt: &R) -> Result<(), TestError> {
    let count = compare_given(rt)?;
    compare_by_chance(rt.alloc())?;
    println!(rt; "{count} texts of the input and {TEXTS} by chance are read alike")?;
    Ok(())
}

fn main(rt: HostRuntime) -> ExitCode {
    match compare(&rt) {
        Ok(()) => ExitCode::SUCCESS,
        Err(trouble) => {
            let _ = eprintln!(&rt; "test_scenarios: {trouble}");
            ExitCode::from(trouble.status())
        }
    }
}
