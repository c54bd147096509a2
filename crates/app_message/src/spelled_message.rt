//! A message that is read in place.

ghost use Rattle.std.specs.Prelude.{◌≡◌, ◌≤◌, ◌∷◌, length, IfOk, OnOk, OnErr};
ghost use Rattle.app_message.specs.declared.sizes.TheConstants.{LONGEST_ADDRESS};
ghost use Rattle.app_message.specs.Bodies.{of_body, IsBody};
ghost use Rattle.app_message.specs.Spelling.{IsMessage};

use crate::items::Items;
use crate::kind::Kind;
use crate::message::Message;
use crate::parts;
use crate::reading::Head;
use crate::token::Token;
use site_base::NoMemory;
use std::alloc::Global;
use std::marker::Model;

/// A message that is read in place: its head, and its body in the octets from which it was read. It
/// is as valid as a `Message`.
#[derive(Drop)]
pub struct SpelledMessage<'a> {
    head: Head,
    body: &'a [u8],
}

impl<'a> Model for SpelledMessage<'a> {
    ghost use Rattle.app_message.specs.Telegram.{Telegram};
    ghost use Rattle.app_message.specs.Bodies.{of_body, IsBody};

    ghost Value = { Telegram };

    ghost view = { λ m. of_body m.head.to m.head.from m.head.kind m.head.token m.body.now };

    ghost invariant = { λ m. IsBody
        (of_body m.head.to m.head.from m.head.kind m.head.token m.body.now) m.body.now };
}

impl<'a> SpelledMessage<'a> {
    /// The message of this head and this body.
    pub(crate) fn new(head: Head, body: &'a [u8]) -> SpelledMessage<'a>
        requires { IsBody (of_body head.to head.from head.kind head.token body.now) body.now }
        ensures { result ≡ of_body head.to head.from head.kind head.token body.now }
    {
        SpelledMessage { head, body }
    }

    /// The message, copied.
    pub(crate) fn to_message(self, alloc: Global) -> Result<Message, NoMemory>
        ensures { IfOk result (λ m. m ≡ self.entry) }
    {
        let SpelledMessage { head, body: octets } = self;
        let body = Vec::from_slice(alloc, octets)?;
        Ok(Message::of_body(head.to, head.from, head.kind, head.token, body))
    }

    /// The message, copied to the place of another one, whose room serves again. After `NoMemory`
    /// that one is as it was.
    pub(crate) fn copy_to(self, place: &mut Message) -> Result<(), NoMemory>
        ensures to_message { OnOk result (place.new ≡ self.entry) }
        ensures err { OnErr result (place.new ≡ place.old) }
    {
        let SpelledMessage { head, body } = self;
        place.set(head, body)
    }

    /// Returns the recipient, as subnet and node.
    pub fn to(&self) -> [u8; 2]
        ensures { result ≡ self.now.to }
    {
        self.head.to
    }

    /// Returns the originator, as subnet and node.
    pub fn from(&self) -> [u8; 2]
        ensures { result ≡ self.now.from }
    {
        self.head.from
    }

    /// Returns what the message is for.
    pub fn kind(&self) -> Kind
        ensures { result ≡ self.now.kind }
    {
        self.head.kind
    }

    /// Returns the number that a reply repeats.
    pub fn token(&self) -> Token
        ensures { result ≡ self.now.token }
    {
        self.head.token
    }

    /// Returns the database address, 1 to 8 octets.
    pub fn address(&self) -> &'a [u8]
        ensures value { result.now ≡ self.now.address }
        ensures least { 1 ≤ length result.now }
        ensures most { length result.now ≤ LONGEST_ADDRESS }
    {
        parts::split(self.body).0
    }

    /// Returns the items, in strictly rising order of their identifiers.
    pub fn items(&self) -> Items<'a>
        ensures value { result ≡ self.now.items }
        ensures valid { IsMessage self.now }
    {
        Items::new(parts::split(self.body).1)
    }

    /// The address as it is spelled: its length, and its octets.
    pub(crate) fn spelled_address(&self) -> &'a [u8]
        ensures text { result.now ≡ length self.now.address ∷ self.now.address }
        ensures valid { IsMessage self.now }
    {
        &self.body[..usize::from(self.body[0]) + 1]
    }
}
