//! A writer that compares what it gets with a text.

ghost use Rattle.std.specs.Prelude.{◌≡◌, ◌≤◌, ◌↔◌, IfOk, IsTrue, Some, None, length, take};
ghost use Rattle.tracehost.specs.Runs.{kept};

use std::alloc::{AllocError, Global};
use std::io::{self, Write};

/// A writer that compares bytes with the expected ones. It keeps them only if they aren't as expected.
#[derive(Drop)]
pub(crate) struct ComparingWriter<'a> {
    alloc: Global,
    expected: &'a [u8],
    /// How many bytes there are, all as expected.
    same: usize,
    /// All bytes, from the first write on that is different.
    text: Option<Vec<u8>>,
    ghost fits: { same ≤ length expected.now },
}

impl<'a> ComparingWriter<'a> {
    /// Returns a writer that has got nothing yet, and compares with these bytes.
    pub(crate) fn new(alloc: Global, expected: &'a [u8]) -> ComparingWriter<'a>
        ensures expected { result.expected.now ≡ expected.now }
        ensures same { result.same ≡ 0 }
        ensures text { result.text ≡ None }
    {
        ComparingWriter {
            alloc,
            expected,
            same: 0,
            text: None,
        }
    }

    /// Tests whether the bytes are these. (Contracts don't know that a writer which was written to still expects them.)
    pub(crate) fn has(&self, bytes: &[u8]) -> bool
        ensures { IsTrue result ↔ (kept self.now.expected.now self.now.same self.now.text ≡ bytes.now) }
    {
        match &self.text {
            Some(text) => text.as_slice() == bytes,
            None => &self.expected[..self.same] == bytes,
        }
    }

    /// Returns a copy of the bytes that were as expected. An error means out of memory.
    fn same_bytes(&self) -> Result<Vec<u8>, AllocError>
        ensures { IfOk result (λ copy. copy.items ≡ take self.now.same self.now.expected.now) }
    {
        Vec::from_slice(self.alloc, &self.expected[..self.same])
    }

    /// Returns the bytes. An error means out of memory.
    pub(crate) fn into_text(self) -> Result<Vec<u8>, AllocError>
        ensures { IfOk result (λ text. text.items ≡ kept self.entry.expected.now self.entry.same self.entry.text) }
    {
        let ComparingWriter {
            alloc,
            expected,
            same,
            text,
        } = self;
        match text {
            Some(text) => Ok(text),
            None => Vec::from_slice(alloc, &expected[..same]),
        }
    }
}

impl Write for ComparingWriter<'_> {
    ghost contents = { λ w. Some (kept w.expected.now w.same w.text) };

    fn write(&mut self, bytes: &[u8]) -> io::Result<usize> {
        match &mut self.text {
            Some(text) => text.extend_from_slice(bytes)?,
            None if self.expected[self.same..].starts_with(bytes) => {
                self.same += bytes.len();
            }
            None => {
                let mut text = self.same_bytes()?;
                text.extend_from_slice(bytes)?;
                self.text = Some(text);
            }
        }
        Ok(bytes.len())
    }

    fn flush(&mut self) -> io::Result<()> {
        Ok(())
    }
}
