//! The texts on standard input.

use byte_lines::{LineEnd, read_line};
use std::alloc::Global;
use std::io;
use std::io::{BufReader, Read};
use test_kit::TestError;

/// The most bytes of a line with a number.
const MOST_DIGITS: usize = 20;

/// A reader of texts, each after a line with its number of bytes.
#[derive(Drop)]
pub(crate) struct Given<I: Read + Drop> {
    reader: BufReader<I>,
}

impl<I: Read + Drop> Given<I> {
    pub(crate) fn new(alloc: Global, input: I) -> io::Result<Given<I>> {
        Ok(Given {
            reader: BufReader::new(alloc, input)?,
        })
    }

    /// Returns the next text, or `None` at the end of the input.
    pub(crate) fn next(&mut self, alloc: Global) -> Result<Option<Vec<u8>>, TestError> {
        let mut line = Vec::new(alloc);
        let Ok(end) = read_line(&mut self.reader, MOST_DIGITS, &mut line) else {
            return Err(TestError::Wrong("the input can't be read"));
        };
        if end == LineEnd::Input && line.is_empty() {
            return Ok(None);
        }
        let number = str::from_utf8(line.as_slice())
            .ok()
            .and_then(|digits| digits.parse::<usize>().ok());
        let Some(length) = number else {
            return Err(TestError::Wrong("a length of the input is no number"));
        };
        let mut text = Vec::new(alloc);
        text.resize(length, 0)?;
        match self.reader.read_exact(text.as_mut_slice()) {
            Ok(()) => Ok(Some(text)),
            Err(_) => Err(TestError::Wrong("the input is cut off")),
        }
    }
}
