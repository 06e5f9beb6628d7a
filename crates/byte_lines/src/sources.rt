//! Readers whose contracts tell whether they can fail.
ghost use Rattle.std.specs.Prelude.{◌≡◌, ◌↔◌, Bool, true, false, List, ℕ, [], length, Contains, IfSome, IfOk, IsTrue, OnErr};
ghost use Rattle.std.specs.Io.{StartsWith};
ghost use Rattle.std.specs.Io.BufRead.{Rests, FillKeeps};
ghost use Rattle.std.specs.Io.Buffered.{reader_buffer};
ghost use types.Logic.{sem};

use memchr::memchr;
use std::io;
use std::io::{BufRead, BufReader, Read};

/// A buffered reader whose contract tells whether it may fail. So a contract can tell an error of the reader from
/// one that a caller of it made up.
pub trait LineSource: BufRead {
    ghost may_fail: { Bool };

    ghost buffered: { Self → List ℕ };

    /// Returns the buffered bytes, as `fill_buf` does.
    fn fill(&mut self) -> io::Result<&[u8]>
        ensures front { IfSome (Self.Read.remaining self.old) (λ xs. IfOk result (λ s. StartsWith xs s.now)) }
        ensures end { IfSome (Self.Read.remaining self.old) (λ xs. IfOk result (λ s. length s.now ≡ 0 → xs ≡ [])) }
        ensures* after_borrow { sem 𝓛 (Rests Self.row self.entry (λ new.
            FillKeeps (Self.Read.remaining self.old) (Self.Read.remaining new) (Self.BufRead.consumable_len new) result)) }
        ensures failed { OnErr result (may_fail ≡ true) };

    /// Tests whether a whole line is buffered, so that no read waits for it.
    fn has_line(&self) -> bool
        ensures feed { IsTrue result ↔ Contains (buffered self.now) 10 };
}

impl LineSource for &[u8] {
    ghost may_fail = { false };

    ghost buffered = { λ bytes. bytes.now };

    fn fill(&mut self) -> io::Result<&[u8]> {
        self.fill_buf()
    }

    fn has_line(&self) -> bool {
        memchr(b'\n', self).is_some()
    }
}

impl<R: Read> LineSource for BufReader<R> {
    ghost may_fail = { true };

    ghost buffered = { λ reader. reader_buffer reader };

    fn fill(&mut self) -> io::Result<&[u8]> {
        self.fill_buf()
    }

    fn has_line(&self) -> bool {
        memchr(b'\n', self.buffer()).is_some()
    }
}
