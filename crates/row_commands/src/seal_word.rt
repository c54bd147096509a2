//! A seal that a command is asked for.

ghost use Rattle.std.specs.Prelude.{◌≡◌, ◌⊎◌, IfErr, IfOk, IfSome, IsSome, None, option_map};
ghost use Rattle.std.specs.Prelude.{string_bytes};
ghost use Rattle.std.specs.Process.{exit_status};
ghost use Rattle.program_io.specs.declared.exit.TheConstants.{COMMAND_LINE, NO_MEMORY};
ghost use Rattle.row_commands.specs.SealWords.{seal_said};

use program_io::{COMMAND_LINE, exit_no_memory, exit_with};
use site_base::NoMemory;
use std::alloc::Global;
use std::process::ExitCode;

/// The octets of a seal.
const SEAL_OCTETS: usize = 32;

/// Reads the value of `--seal`, and returns it as 64 digits in lower case. Without one, returns
/// None. If the value is wrong or memory runs out, prints that and returns the exit status.
pub fn read_seal<R: Eprint + AllocGlobal>(
    rt: &R,
    word: Option<&str>,
) -> Result<Option<String>, ExitCode>
    ensures none { word.entry ≡ None → IfOk result (λ seal. seal ≡ None) }
    ensures said { IfOk result (λ seal. IfSome word.entry
        (λ w. IsSome seal × (option_map string_bytes seal ≡ seal_said w.now))) }
    ensures failed { IfErr result (λ status. (exit_status status ≡ COMMAND_LINE)
        ⊎ (exit_status status ≡ NO_MEMORY)) }
{
    let Some(word) = word else {
        return Ok(None);
    };
    match parse_seal(rt.alloc(), word) {
        Ok(Some(seal)) => Ok(Some(seal)),
        Ok(None) => Err(exit_with(
            eprintln!(rt; "error: '--seal {word}' says no seal: give 64 hexadecimal digits"),
            COMMAND_LINE,
        )),
        Err(NoMemory) => Err(exit_no_memory(rt)),
    }
}

/// The seal that a word says, in lower case. None where it isn't 64 hexadecimal digits.
fn parse_seal(alloc: Global, word: &str) -> Result<Option<String>, NoMemory>
    ensures { IfOk result (λ seal. option_map string_bytes seal ≡ seal_said word.now) }
{
    let mut octets = [0u8; SEAL_OCTETS];
    match hex::decode_to_slice(word, &mut octets) {
        Ok(()) => Ok(Some(hex::encode(alloc, octets)?)),
        Err(_) => Ok(None),
    }
}
