//! Reads the text of one line.

ghost use Rattle.std.specs.Prelude.{◌≡◌, true, false, IfOk, OnOk, MatchResult};
ghost use Rattle.std.specs.Io.BufRead.{strip_last};
ghost use Rattle.hex.specs.Hex.{decode_of};
ghost use Rattle.hex_lines.specs.LineTexts.{Says};
ghost use Rattle.hex_lines.specs.Lines.{is_skipped, without_spaces};

use crate::plain_digits::{LANES, read_digits};
use site_base::NoMemory;

/// The most octets that a line may have before its line feed.
pub const LINE_OCTETS: usize = 65_536;

/// Returns the line without a carriage return at its end.
pub fn text_of(line: &[u8]) -> &[u8]
    ensures { result.now ≡ strip_last 13 line.now }
{
    match line {
        [front @ .., 13] => front,
        _ => line,
    }
}

/// What the text of a line says.
#[derive(Clone, Copy, Debug, PartialEq, Eq)]
pub enum LineText {
    /// Nothing: without its spaces it is empty, or a comment.
    Skipped,
    /// Octets, in hexadecimal.
    Octets,
    /// It is no comment, and not hexadecimal.
    NotHexadecimal,
}

/// Reads the text of a line, in which spaces don't count. Its octets replace what `octets` holds.
/// `kept` is room for the text without its spaces.
pub fn read_octets(
    text: &[u8],
    kept: &mut Vec<u8>,
    octets: &mut Vec<u8>,
) -> Result<LineText, NoMemory>
    ensures { IfOk result (λ said. Says said text.now octets.new.items) }
{
    if is_plain(text, octets)? {
        return Ok(LineText::Octets);
    }
    put_without_spaces(text, kept)?;
    if skips(kept) {
        return Ok(LineText::Skipped);
    }
    if decode(kept, octets)? {
        return Ok(LineText::Octets);
    }
    Ok(LineText::NotHexadecimal)
}

/// Whether the text is plain digits, and long enough to be read as such, as most lines are; if so,
/// its octets take the place of what the buffer holds.
fn is_plain(text: &[u8], octets: &mut Vec<u8>) -> Result<bool, NoMemory>
    ensures { IfOk result (λ is. is ≡ true → Says LineText.Octets text.now octets.new.items) }
{
    if text.len() < 2 * LANES || text.len() % 2 != 0 {
        return Ok(false);
    }
    octets.resize(text.len() / 2, 0)?;
    Ok(read_digits(text, octets.as_mut_slice()))
}

/// Puts the text without its spaces in place of what the buffer holds.
fn put_without_spaces(text: &[u8], kept: &mut Vec<u8>) -> Result<(), NoMemory>
    ensures { OnOk result (kept.new.items ≡ without_spaces text.now) }
{
    kept.clear();
    for octet in text {
        if *octet != b' ' {
            kept.push(*octet)?;
        }
    }
    Ok(())
}

/// Is it an empty line or a comment?
pub fn skips(kept: &[u8]) -> bool
    ensures { result ≡ is_skipped kept.now }
{
    match kept {
        [] => true,
        [first, ..] => *first == b'#',
    }
}

/// Returns whether the text is hexadecimal. If it is, its octets replace what the buffer holds.
pub fn decode(text: &[u8], octets: &mut Vec<u8>) -> Result<bool, NoMemory>
    ensures { IfOk result (λ is. MatchResult (decode_of text.now)
        (λ bytes. (is ≡ true) × (octets.new.items ≡ bytes)) (λ _. is ≡ false)) }
{
    octets.resize(text.len() / 2, 0)?;
    Ok(hex::decode_to_slice(text, octets.as_mut_slice()).is_ok())
}
