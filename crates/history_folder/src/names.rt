//! The names of a history's files.

ghost use Rattle.std.specs.Prelude.{◌≡◌, ◌≢◌, ◌++◌, ◌∷◌, ◌+◌, ◌<◌, ◌%◌, [], ℕ, IfOk, IfSome};
ghost use Rattle.std.specs.Prelude.{IfNone, OnOk, string_bytes};
ghost use Rattle.history_folder.specs.Names.{IsChapter, chapter_name, digits_of, path_in};

use site_base::NoMemory;
use std::alloc::Global;

/// The name of a history folder's copy of its site file.
pub const SITE_FILE: &str = "site.toml";

/// What the name of a chapter's file ends with.
const ENDING: &str = ".journal";

/// The digits of the number that such a name begins with.
const DIGITS: usize = 6;

/// Returns the name of the file of the chapter of this number: six digits and an ending.
pub fn chapter_name(alloc: Global, number: u64) -> Result<String, NoMemory>
    requires { IsChapter number }
    ensures { IfOk result (λ name. string_bytes name ≡ chapter_name number) }
{
    let tens = number / 10;
    let hundreds = tens / 10;
    let thousands = hundreds / 10;
    let more = thousands / 10;
    let mut name = String::new(alloc);
    push_digit(&mut name, more / 10)?;
    push_digit(&mut name, more)?;
    push_digit(&mut name, thousands)?;
    push_digit(&mut name, hundreds)?;
    push_digit(&mut name, tens)?;
    push_digit(&mut name, number)?;
    name.push_str(ENDING)?;
    Ok(name)
}

/// Appends the last digit of a number.
fn push_digit(text: &mut String, number: u64) -> Result<(), NoMemory>
    ensures { OnOk result
        (string_bytes text.new ≡ string_bytes text.old ++ (48 + number % 10) ∷ []) }
{
    text.push(char::from(b'0' + (number % 10) as u8))?;
    Ok(())
}

/// Returns the number of the chapter whose file has this name; None for any other name.
pub fn chapter_number(name: &str) -> Option<u64>
    ensures chapter { IfSome result (λ n. IsChapter n × (name.now ≡ chapter_name n)) }
    ensures other { IfNone result ((n : ℕ) → IsChapter n → name.now ≢ chapter_name n) }
{
    let Some(digits) = name.strip_suffix(ENDING) else {
        return None;
    };
    match read_digits(digits.as_bytes()) {
        Some(number) if number > 0 => Some(number),
        _ => None,
    }
}

/// The number that these six digits say.
fn read_digits(digits: &[u8]) -> Option<u64>
    ensures digits { IfSome result (λ n. (n < 1000000) × (digits.now ≡ digits_of 6 n)) }
    ensures other { IfNone result ((n : ℕ) → digits.now ≢ digits_of 6 n) }
{
    if digits.len() != DIGITS {
        return None;
    }
    let mut number = 0;
    for digit in digits {
        if !digit.is_ascii_digit() {
            return None;
        }
        number = number * 10 + u64::from(*digit - b'0');
    }
    Some(number)
}

/// Returns the path of the file of this name in a folder.
pub fn path_in(alloc: Global, folder: &str, name: &str) -> Result<String, NoMemory>
    ensures { IfOk result (λ path. string_bytes path ≡ path_in folder.now name.now) }
{
    let mut path = String::from_str(alloc, folder)?;
    path.push('/')?;
    path.push_str(name)?;
    Ok(path)
}
