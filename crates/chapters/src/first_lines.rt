//! The lines at the beginning of a chapter.

ghost use Rattle.std.specs.Prelude.{◌≡◌, ◌++◌, ◌∷◌, ◌≤◌, [], IfErr, IfOk, OnOk, false, length};
ghost use Rattle.std.specs.Prelude.{string_bytes, true};
ghost use Rattle.chapters.specs.ChapterText.{after_line, first_lines, site_line, text_of_lines};
ghost use Rattle.chapters.specs.ChapterText.{site_name, title_line};
ghost use Rattle.chapters.specs.Readers.{IsOfText, begins_so, first_fault, third_fault};

use crate::fault::HistoryFault;
use sha2::{Digest, Sha256};
use site_base::NoMemory;
use std::alloc::Global;

/// Returns the name of the site of a site file: the SHA-256 of its octets, in lower case
/// hexadecimal.
pub fn site_name(alloc: Global, site_file: &[u8]) -> Result<String, NoMemory>
    ensures { IfOk result (λ name. string_bytes name ≡ site_name site_file.now) }
{
    Ok(hex::encode(alloc, Sha256::digest(site_file))?)
}

/// Appends the line with the chapter's number.
pub(crate) fn put_title(number: u64, text: &mut String) -> Result<(), NoMemory>
    ensures { OnOk result (string_bytes text.new
        ≡ string_bytes text.old ++ text_of_lines (title_line number ∷ [])) }
{
    write!(text, "# witsomar history 1 chapter {number}\n")?;
    Ok(())
}

/// Appends the line with the name of the site.
pub(crate) fn put_site(site: &str, text: &mut String) -> Result<(), NoMemory>
    ensures { OnOk result (string_bytes text.new
        ≡ string_bytes text.old ++ text_of_lines (site_line site.now ∷ [])) }
{
    write!(text, "# site {site}\n")?;
    Ok(())
}

/// Appends the line with the seal before the chapter.
pub(crate) fn put_after(seal: &str, text: &mut String) -> Result<(), NoMemory>
    ensures { OnOk result (string_bytes text.new
        ≡ string_bytes text.old ++ text_of_lines (after_line seal.now ∷ [])) }
{
    write!(text, "# after {seal}\n")?;
    Ok(())
}

/// The first lines of the chapter of this number, with which the text begins.
pub(crate) fn meet_first_lines(
    alloc: Global,
    site: &str,
    number: u64,
    after: &str,
    text: &[u8],
) -> Result<String, HistoryFault>
    requires { 1 ≤ number }
    ensures lines { IfOk result (λ first. string_bytes first
        ≡ text_of_lines (first_lines site.now number after.now)) }
    ensures begins { IfOk result (λ first.
        begins_so text.now (first_lines site.now number after.now) ≡ true) }
    ensures within { IfOk result (λ first. length (string_bytes first) ≤ length text.now) }
    ensures other { IfErr result (λ fault. IsOfText fault
        → begins_so text.now (first_lines site.now number after.now) ≡ false) }
    ensures named { IfErr result (λ fault. IsOfText fault
        → fault ≡ first_fault number (first_lines site.now number after.now) text.now) }
{
    let mut first = String::new(alloc);
    put_title(number, &mut first)?;
    if !text.starts_with(first.as_bytes()) {
        return Err(HistoryFault::Line(number, 1));
    }
    put_site(site, &mut first)?;
    if !text.starts_with(first.as_bytes()) {
        return Err(HistoryFault::Line(number, 2));
    }
    put_after(after, &mut first)?;
    if !text.starts_with(first.as_bytes()) {
        return Err(third_fault(number));
    }
    Ok(first)
}

/// The fault of a chapter of this number whose third line alone is another.
fn third_fault(number: u64) -> HistoryFault
    requires { 1 ≤ number }
    ensures { result ≡ third_fault number }
{
    if number == 1 {
        HistoryFault::Line(1, 3)
    } else {
        HistoryFault::NotAfter(number, number - 1)
    }
}
