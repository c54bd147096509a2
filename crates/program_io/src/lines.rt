//! Lines of standard input.

ghost use Rattle.std.specs.Prelude.{IfErr};
ghost use Rattle.program_io.specs.Statuses.{IsFailed};

use crate::exit::{exit_no_memory, exit_replay};
use devices::ReadFault;
use forecourt_engines::ReplayFault;
use hex_lines::LINE_OCTETS;
use std::io::{BufRead, ErrorKind, Read};
use std::process::ExitCode;

/// Reads the next line into the buffer, in place of what it holds, without the line feed. Returns
/// false at the end of the input. It stops reading a line as soon as the line is too long. If the
/// input can't be read, prints that and returns the exit status.
pub fn read_line<R: BufRead>(
    rt: &impl Eprint,
    reader: &mut R,
    line: &mut Vec<u8>,
) -> Result<bool, ExitCode>
    ensures failed { IfErr result IsFailed }
{
    line.clear();
    let mut limited = reader.take(LINE_OCTETS as u64 + 1);
    match limited.read_until(b'\n', line) {
        Ok(0) => Ok(false),
        Ok(_) => {
            if line.last() == Some(&b'\n') {
                line.pop();
            }
            Ok(true)
        }
        Err(error) if error.kind() == ErrorKind::OutOfMemory => Err(exit_no_memory(rt)),
        Err(_) => Err(exit_replay(rt, Some(ReplayFault::Read(ReadFault::Failed)))),
    }
}
