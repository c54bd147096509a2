//! The names of products.

ghost use Rattle.std.specs.Prelude.{◌≡◌, true, is_some, IfOk, IfSome, string_bytes};
ghost use Rattle.std.specs.List.{list_all};
ghost use Rattle.site_base.specs.Names.{is_name, is_name_octet};

use crate::memory::NoMemory;
use std::alloc::Global;
use std::marker::Model;

/// The octets of a product's longest name.
pub const NAME_OCTETS: usize = 20;

/// A product's name: 1 to `NAME_OCTETS` of a to z, 0 to 9 and hyphen, by its type. Contracts see
/// its octets.
#[derive(Debug, Drop)]
pub struct ProductName {
    text: String,
}

impl Model for ProductName {
    ghost use Rattle.std.specs.Prelude.{◌≡◌, ℕ, List, true, string_bytes};
    ghost use Rattle.site_base.specs.Names.{is_name};

    ghost Value = { List ℕ };

    ghost view = { λ n. string_bytes n.text };

    ghost invariant = { λ n. is_name (string_bytes n.text) ≡ true };
}

impl ProductName {
    /// Returns the name of this text. None exactly if it isn't fit. It takes no memory.
    pub fn new(text: String) -> Option<ProductName>
        ensures fit { is_some result ≡ is_name (string_bytes text) }
        ensures value { IfSome result (λ name. name ≡ string_bytes text) }
    {
        if is_fit(text.as_str().as_bytes()) {
            Some(ProductName { text })
        } else {
            None
        }
    }

    /// Returns the name's text.
    pub fn as_str(&self) -> &str
        ensures value { result.now ≡ self.now }
        ensures fit { is_name self.now ≡ true }
    {
        self.text.as_str()
    }

    /// Returns a copy of the name.
    pub fn copy(&self, alloc: Global) -> Result<ProductName, NoMemory>
        ensures { IfOk result (λ name. name ≡ self.now) }
    {
        let text = String::from_str(alloc, self.text.as_str())?;
        Ok(ProductName { text })
    }

    /// Returns the name's text, as a `String` again.
    pub fn into_string(self) -> String
        ensures { string_bytes result ≡ self }
    {
        self.text
    }
}

/// Is this fit as a product's name?
fn is_fit(octets: &[u8]) -> bool
    ensures { result ≡ is_name octets.now }
{
    1 <= octets.len() && octets.len() <= NAME_OCTETS && are_in_names(octets)
}

fn are_in_names(octets: &[u8]) -> bool
    ensures { result ≡ list_all is_name_octet octets.now }
{
    octets.iter().all(|octet| is_in_names(*octet))
}

fn is_in_names(octet: u8) -> bool
    ensures { result ≡ is_name_octet octet }
{
    matches!(octet, b'a'..=b'z' | b'0'..=b'9' | b'-')
}
