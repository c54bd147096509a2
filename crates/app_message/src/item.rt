//! One item of a message.

ghost use Rattle.std.specs.Prelude.{◌≡◌, ◌≤◌, length};
ghost use Rattle.app_message.specs.declared.sizes.TheConstants.{LONGEST_CONTENT};
ghost use Rattle.app_message.specs.Telegram.{entry, IsEntry};

use std::marker::Model;

/// An item, read in place in a message: a data identifier and its content, at most 254 octets.
#[derive(Debug, Drop)]
pub struct Item<'a> {
    id: u8,
    content: &'a [u8],
}

impl<'a> Model for Item<'a> {
    ghost use Rattle.app_message.specs.Telegram.{Entry, entry, IsEntry};

    ghost Value = { Entry };

    ghost view = { λ i. entry i.id i.content.now };

    ghost invariant = { λ i. IsEntry (entry i.id i.content.now) };
}

impl<'a> Item<'a> {
    /// An item of this content.
    pub(crate) fn new(id: u8, content: &'a [u8]) -> Item<'a>
        requires { length content.now ≤ LONGEST_CONTENT }
        ensures value { result ≡ entry id content.now }
        ensures valid { IsEntry result }
    {
        Item { id, content }
    }

    /// Returns the data identifier.
    pub fn id(&self) -> u8
        ensures { result ≡ self.now.id }
    {
        self.id
    }

    /// Returns the content, at most 254 octets.
    pub fn content(&self) -> &'a [u8]
        ensures value { result.now ≡ self.now.content }
        ensures bound { length result.now ≤ LONGEST_CONTENT }
    {
        self.content
    }
}
