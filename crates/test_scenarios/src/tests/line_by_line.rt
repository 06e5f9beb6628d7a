//! Sessions line by line with readers and writers that fail.

use super::wire::Wire;
use open_sessions::{ServeError, serve};
use scenario_runs::Style;
use std::io::BufReader;
use std::process::Abort;
use std::test::Fail;
use trace_stop::Settings;

const LINES: &str = "{\"user\":1001,\"op\":\"spawn\"}

{\"user\":1002,\"op\":\"spawn\"}
{\"user\":1001,\"op\":\"fly\"}
{\"user\":1065,\"op\":\"spawn\"}
{\"user\":1001,\"op\":\"list\",\"caller\":7}
{\"user\":1001,\"op\":\"list\",\"caller\":1000}";

const ANSWERS: &str = "1001 1 new 1000 100000
refused BadJson
1002 1 new 2000 104000
refused BadName
refused BadUser
1001 2 error ESRCH 3
1001 3 pids 1000
";

#[test]
fn readers_that_fail(rt: HostRuntime) -> Result<(), Fail> {
    let wire = Wire::new(rt.alloc(), LINES.as_bytes(), 0, true);
    let mut reader = BufReader::new(rt.alloc(), wire)?;
    let mut writer = Vec::new(rt.alloc());
    let ended = serve(
        rt.alloc(),
        Settings::standard(),
        Style::Text,
        &mut reader,
        &mut writer,
    )
    .err();
    assert_eq!(rt; ended, Some(ServeError::Read));
    let before = ANSWERS.len() - "1001 3 pids 1000\n".len();
    assert_eq!(rt; Some(writer.as_slice()), ANSWERS.as_bytes().get(..before));
    Ok(())
}

/// Checks that a writer with room for `room` bytes takes that front of the answers.
fn check_room<R: Abort + AllocGlobal>(rt: &R, room: usize) -> Result<(), Fail> {
    let mut reader = LINES.as_bytes();
    let mut writer = Wire::new(rt.alloc(), b"", room, true);
    let ended = serve(
        rt.alloc(),
        Settings::standard(),
        Style::Text,
        &mut reader,
        &mut writer,
    )
    .err();
    let want = if room < ANSWERS.len() {
        Some(ServeError::Write)
    } else {
        None
    };
    assert!(rt; ended == want, "at {room}");
    assert!(rt;
        ANSWERS.as_bytes().get(..room) == Some(writer.taken.as_slice()),
        "at {room}"
    );
    Ok(())
}

#[test]
fn writers_that_fail(rt: HostRuntime) -> Result<(), Fail> {
    for room in 0..ANSWERS.len() + 1 {
        check_room(&rt, room)?;
    }
    Ok(())
}
