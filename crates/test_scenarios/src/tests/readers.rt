//! Readers that fail or are interrupted, and what is read of a text that is too long.

use super::wire::Wire;
use super::{ITS_LINES, SPAWN_AND_LIST};
use scenario_runs::{Fault, RunOptions, read, run};
use std::test::Fail;
use stop_handlers::{ByPolicy, Handler};

#[test]
fn readers_that_fail(rt: HostRuntime) -> Result<(), Fail> {
    let alloc = rt.alloc();
    for i in 0..SPAWN_AND_LIST.len() {
        let mut reader = Wire::new(alloc, &SPAWN_AND_LIST.as_bytes()[..i], 0, true);
        assert_eq!(rt; read(alloc, &mut reader).err(), Some(Fault::Read), "at {i}");
    }
    Ok(())
}

/// A text with more bytes than a scenario may have is read up to the first of these.
#[test]
fn a_text_that_is_too_long(rt: HostRuntime) -> Result<(), Fail> {
    let bytes = vec![in rt.alloc(); 32u8; 4194306]?;
    let mut reader = bytes.as_slice();
    assert_eq!(rt; read(rt.alloc(), &mut reader).err(), Some(Fault::TooLong));
    assert_eq!(rt; reader.len(), 1);
    Ok(())
}

#[test]
fn a_reader_that_is_interrupted(rt: HostRuntime) -> Result<(), Fail> {
    let alloc = rt.alloc();
    let mut reader = Wire::new(alloc, SPAWN_AND_LIST.as_bytes(), 0, false);
    let scenario = read(alloc, &mut reader)?;
    let handlers: Vec<Handler<ByPolicy>> = Vec::new(alloc);
    let mut lines = Vec::new(alloc);
    let options = RunOptions { user: None };
    run(alloc, &scenario, handlers, options, &mut lines)?;
    assert!(rt; lines.as_slice() == ITS_LINES.as_bytes());
    Ok(())
}
