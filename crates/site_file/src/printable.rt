//! An unknown key as it is printed.

ghost use Rattle.std.specs.Prelude.{◌≡◌, IfOk, string_bytes, take, map};
ghost use Rattle.site_file.specs.Keys.{printed_key, printed_octet};

use std::alloc::{AllocError, Global};
use std::fmt;
use std::marker::Model;

/// The octets of an unknown key that are printed.
const PRINTED_OCTETS: usize = 20;

/// An unknown key as it is printed: its first 20 octets, each outside 21 to 7E (hexadecimal) as a
/// question mark.
#[derive(Debug, Drop)]
pub struct PrintedKey {
    text: String,
}

impl Model for PrintedKey {
    ghost use Rattle.std.specs.Prelude.{ℕ, List, string_bytes};

    ghost Value = { List ℕ };

    ghost view = { λ k. string_bytes k.text };
}

impl PrintedKey {
    /// Returns the key with these octets as it is printed.
    #[tactic(auto, unfolding(crate::specs::Keys::printed_key))]
    pub fn new(alloc: Global, key: &[u8]) -> Result<PrintedKey, AllocError>
        ensures { IfOk result (λ k. k ≡ printed_key key.now) }
    {
        let mut text = String::new(alloc);
        let shown = front(key);
        for octet in shown {
            text.push(printable_char(*octet))?;
        }
        Ok(PrintedKey { text })
    }

    /// Returns the printed text.
    pub fn as_str(&self) -> &str
        ensures { result.now ≡ self.now }
    {
        self.text.as_str()
    }
}

/// As many octets as are printed.
fn front(key: &[u8]) -> &[u8]
    ensures { result.now ≡ take PRINTED_OCTETS key.now }
{
    if key.len() < PRINTED_OCTETS {
        key
    } else {
        &key[..PRINTED_OCTETS]
    }
}

fn printable_char(octet: u8) -> char
    ensures { result ≡ printed_octet octet }
{
    if 0x21 <= octet && octet <= 0x7E {
        char::from(octet)
    } else {
        '?'
    }
}

impl fmt::Display for PrintedKey {
    ghost use Rattle.std.specs.Prelude.{Some};

    ghost output = { λ key. Some key };

    fn fmt<W: fmt::Write>(&self, f: &mut fmt::Formatter<W>) -> fmt::Result {
        f.write_str(self.text.as_str())
    }
}
