//! The items of a message.

ghost use Rattle.std.specs.Prelude.{◌≡◌, ◌==◌, length};
ghost use Rattle.std.specs.Iterator.{YieldsFirst, item_count};
ghost use Rattle.app_message.specs.Bodies.{entries_in, AreItems};

use crate::item::Item;
use std::marker::Model;

/// The items of a message, or of one that is being made, from some item on, read in place. A
/// contract sees them as a list.
#[derive(Drop)]
pub struct Items<'a> {
    rest: &'a [u8],
}

impl<'a> Model for Items<'a> {
    ghost use Rattle.std.specs.Prelude.{List};
    ghost use Rattle.app_message.specs.Telegram.{Entry};
    ghost use Rattle.app_message.specs.Bodies.{entries_in, AreItems};

    ghost Value = { List Entry };

    ghost view = { λ i. entries_in i.rest.now };

    ghost invariant = { λ i. AreItems i.rest.now };
}

impl<'a> Items<'a> {
    /// The items that these octets list.
    pub(crate) fn new(octets: &'a [u8]) -> Items<'a>
        requires { AreItems octets.now }
        ensures { result ≡ entries_in octets.now }
    {
        Items { rest: octets }
    }

    /// Is no item left?
    pub fn is_empty(&self) -> bool
        ensures { result ≡ (length self.now == 0) }
    {
        self.rest.is_empty()
    }
}

impl<'a> Iterator for Items<'a> {
    type Item = Item<'a>;

    ghost next_gives = { YieldsFirst (λ rest. rest) };

    ghost remaining = { item_count (λ rest. rest) };

    fn next(&mut self) -> Option<Item<'a>> {
        let [id, size, after @ ..] = self.rest else {
            return None;
        };
        let (content, rest) = after.split_at(usize::from(*size));
        self.rest = rest;
        Some(Item::new(*id, content))
    }
}
