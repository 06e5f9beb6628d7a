//! A reader and writer that does what a reader and a writer may do.

ghost use Rattle.std.specs.Prelude.{◌≡◌, IfOk};

use std::alloc::Global;
use std::io;

/// A reader and writer of some bytes, one at a time and each after an interrupted call. After them it fails, or neither
/// gives nor takes any.
#[derive(Drop)]
pub(super) struct Wire<'a> {
    left: &'a [u8],
    pub(super) taken: Vec<u8>,
    room: usize,
    fails: bool,
    is_interrupted: bool,
}

impl<'a> Wire<'a> {
    /// Returns a wire that gives the bytes `left`, and takes as many as there is room for.
    pub(super) fn new(alloc: Global, left: &'a [u8], room: usize, fails: bool) -> Wire<'a> {
        Wire {
            left,
            taken: Vec::new(alloc),
            room,
            fails,
            is_interrupted: false,
        }
    }

    /// Returns the result of a call that moves no byte.
    fn ended(&self) -> io::Result<usize>
        ensures { IfOk result (λ n. n ≡ 0) }
    {
        if self.fails {
            Err(io::Error::from(io::ErrorKind::Other))
        } else {
            Ok(0)
        }
    }

    fn interrupts(&mut self) -> bool {
        self.is_interrupted = !self.is_interrupted;
        self.is_interrupted
    }
}

impl io::Read for Wire<'_> {
    fn read(&mut self, buf: &mut [u8]) -> io::Result<usize> {
        if self.interrupts() {
            return Err(io::Error::from(io::ErrorKind::Interrupted));
        }
        let Some((first, rest)) = self.left.split_first() else {
            return self.ended();
        };
        if buf.is_empty() {
            return Ok(0);
        }
        buf[0] = *first;
        self.left = rest;
        Ok(1)
    }
}

impl io::Write for Wire<'_> {
    fn write(&mut self, buf: &[u8]) -> io::Result<usize> {
        if self.interrupts() {
            return Err(io::Error::from(io::ErrorKind::Interrupted));
        }
        if self.taken.len() >= self.room {
            return self.ended();
        }
        let Some(first) = buf.first() else {
            return Ok(0);
        };
        self.taken.push(*first)?;
        Ok(1)
    }

    fn flush(&mut self) -> io::Result<()> {
        if self.interrupts() {
            return Err(io::Error::from(io::ErrorKind::Interrupted));
        }
        Ok(())
    }
}
