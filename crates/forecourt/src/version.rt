//! What `--version` prints after the version: which program this is, and from what it was made.

ghost use Rattle.std.specs.Prelude.{◌≡◌, ◌++◌, IfOk, codes, string_bytes};
ghost use Rattle.hex.specs.Hex.{encode_lower};
ghost use Rattle.sha2.specs.Sha256.{sha256};

use sha2::{Digest, Sha256};
use std::alloc::{AllocError, Global};
use std::fs;
use std::io::ErrorKind;
use std::rt::Files;

/// This program, as the system has it.
const PROGRAM: &str = "/proc/self/exe";

/// What a package says of its program: the line of its SHA-256, then of what it was made.
const RECORD: &str = "/usr/share/forecourt/build";

/// Returns the line of this program's SHA-256. If a package brought exactly this program, the lines
/// of the commit and of the kit from which it was made follow. The text is empty if the system
/// doesn't show the program.
pub fn build_lines<R: Files + AllocGlobal>(rt: &R) -> Result<String, AllocError> {
    let program = match fs::read(rt, PROGRAM) {
        Ok(program) => program,
        Err(error) if error.kind() == ErrorKind::OutOfMemory => return Err(AllocError),
        Err(_) => return Ok(String::new(rt.alloc())),
    };
    let line = digest_line(rt.alloc(), &program)?;
    match fs::read_to_string(rt, RECORD) {
        Ok(record) if record.starts_with(line.as_str()) => Ok(record),
        Err(error) if error.kind() == ErrorKind::OutOfMemory => Err(AllocError),
        _ => Ok(line),
    }
}

/// The line of a program's SHA-256.
fn digest_line(alloc: Global, program: &[u8]) -> Result<String, AllocError>
    ensures { IfOk result (λ line. string_bytes line
        ≡ codes "sha256 " ++ encode_lower (sha256 program.now) ++ codes "\n") }
{
    let mut line = String::from_str(alloc, "sha256 ")?;
    line.push_str(hex::encode(alloc, Sha256::digest(program))?.as_str())?;
    line.push('\n')?;
    Ok(line)
}
