//! Lines of a reader and bytes to a writer that move one byte a call, are interrupted, or fail.

use super::wire::Wire;
use byte_lines::{LineEnd, flush, read_line, write_all};
use std::io::BufReader;
use std::process::Abort;
use std::test::Fail;

#[test]
fn lines_of_a_reader(rt: HostRuntime) -> Result<(), Fail> {
    let wire = Wire::new(rt.alloc(), b"ab\n\nlonger\r\nx", 0, false);
    let mut reader = BufReader::new(rt.alloc(), wire)?;
    let mut line = Vec::new(rt.alloc());
    for (want, end) in [
        ("ab", LineEnd::Feed),
        ("", LineEnd::Feed),
        ("lon", LineEnd::Feed),
        ("x", LineEnd::Input),
        ("", LineEnd::Input),
    ] {
        assert_eq!(rt; read_line(&mut reader, 3, &mut line)?, end, "{want}");
        assert_eq!(rt; line.as_slice(), want.as_bytes());
    }
    Ok(())
}

#[test]
fn readers_that_fail(rt: HostRuntime) -> Result<(), Fail> {
    let wire = Wire::new(rt.alloc(), b"ab\ncd", 0, true);
    let mut reader = BufReader::new(rt.alloc(), wire)?;
    let mut line = Vec::new(rt.alloc());
    assert_eq!(rt; read_line(&mut reader, 3, &mut line)?, LineEnd::Feed);
    for _ in 0..3 {
        assert!(rt; read_line(&mut reader, 3, &mut line).is_err());
    }
    Ok(())
}

/// Checks that a writer with room for `room` bytes takes that front of the bytes.
fn check<R: Abort + AllocGlobal>(rt: &R, room: usize, fails: bool) -> Result<(), Fail> {
    let bytes = b"1001 1 ok\n";
    let mut wire = Wire::new(rt.alloc(), b"", room, fails);
    let is_written = write_all(&mut wire, bytes).is_ok() && flush(&mut wire).is_ok();
    assert!(rt; is_written == (room >= bytes.len()), "at {room}");
    assert!(rt;
        bytes.get(..room.min(bytes.len())) == Some(wire.taken.as_slice()),
        "at {room}"
    );
    Ok(())
}

#[test]
fn writers_that_end(rt: HostRuntime) -> Result<(), Fail> {
    for room in 0..12 {
        check(&rt, room, true)?;
        check(&rt, room, false)?;
    }
    Ok(())
}
