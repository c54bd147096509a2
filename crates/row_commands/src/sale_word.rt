//! A sale that a command is asked for.

ghost use Rattle.std.specs.Prelude.{◌≡◌, IfErr};
ghost use Rattle.std.specs.Process.{exit_status};
ghost use Rattle.program_io.specs.declared.exit.TheConstants.{COMMAND_LINE};

use program_io::{COMMAND_LINE, exit_with};
use sales_table::SaleName;
use site_base::{FpNo, Seq, ShiftNo};
use std::process::ExitCode;

/// Reads the point, shift and number of a sale from a word such as 3/2/17. If the word is wrong,
/// prints that and returns the exit status.
pub fn read_sale(rt: &impl Eprint, word: &str) -> Result<SaleName, ExitCode>
    ensures failed { IfErr result (λ status. exit_status status ≡ COMMAND_LINE) }
{
    match parse_sale(word) {
        Some(sale) => Ok(sale),
        None => Err(exit_with(
            eprintln!(rt;
                "error: '{word}' says no sale: give its point, shift and number, as 3/2/17"
            ),
            COMMAND_LINE,
        )),
    }
}

/// The sale that this word says.
fn parse_sale(word: &str) -> Option<SaleName> {
    let (point, rest) = word.split_once("/")?;
    let (shift, number) = rest.split_once("/")?;
    let point = u8::try_from(parse_number(point)?).ok()?;
    Some(SaleName {
        shift: ShiftNo::new(parse_number(shift)?)?,
        point: FpNo::new(point)?,
        number: Seq::new(parse_number(number)?)?,
    })
}

/// The number that this word says, in digits.
fn parse_number(word: &str) -> Option<u16> {
    // `parse` takes a plus before the digits.
    if word.starts_with('+') {
        return None;
    }
    word.parse::<u16>().ok()
}
