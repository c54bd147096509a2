//! The lines of an input, one after another.

use program_io::{exit_no_memory, read_line};
use std::io::{BufReader, Read};
use std::process::ExitCode;

/// A line of an input. The first one is read before any other file is opened: so a closed standard
/// input is noticed.
#[derive(Drop)]
pub(crate) struct Lines<I> {
    reader: BufReader<I>,
    /// Its text; what it has means nothing behind the last line.
    pub(crate) line: Vec<u8>,
    /// Its number, counted from 1.
    pub(crate) number: u64,
    /// Is there one?
    pub(crate) is_there: bool,
}

impl<I: Read + Drop> Lines<I> {
    /// The first line of this input.
    pub(crate) fn open<R: Eprint + AllocGlobal>(rt: &R, input: I) -> Result<Lines<I>, ExitCode> {
        let mut reader = match BufReader::new(rt.alloc(), input) {
            Ok(reader) => reader,
            Err(_) => return Err(exit_no_memory(rt)),
        };
        let mut line = Vec::new(rt.alloc());
        let is_there = read_line(rt, &mut reader, &mut line)?;
        Ok(Lines {
            reader,
            line,
            number: 1,
            is_there,
        })
    }

    /// Goes on to the next one.
    pub(crate) fn advance<R: Eprint>(&mut self, rt: &R) -> Result<(), ExitCode> {
        self.is_there = read_line(rt, &mut self.reader, &mut self.line)?;
        self.number = self.number.saturating_add(1);
        Ok(())
    }
}
