//! A message, valid by its type.

ghost use Rattle.std.specs.Prelude.{◌≡◌, ◌≢◌, ◌≤◌, true, false, IfOk, OnOk, OnErr, IfErr};
ghost use Rattle.std.specs.Prelude.{IfSome, length, Some};
ghost use Rattle.std.specs.Result.{IsErrOf};
ghost use Rattle.app_message.specs.declared.sizes.TheConstants.{LONGEST_ADDRESS, LONGEST_BODY};
ghost use Rattle.app_message.specs.Telegram.{telegram, entries};
ghost use Rattle.app_message.specs.Spelling.{IsMessage, body, head_text};
ghost use Rattle.app_message.specs.Bodies.{of_body, with_items, IsBody};
ghost use Rattle.app_message.specs.Parts.{parts_fault, do_rise};

use crate::draft::Draft;
use crate::fault::MessageFault;
use crate::items::Items;
use crate::kind::Kind;
use crate::parts;
use crate::reading::Head;
use crate::spelled_message::SpelledMessage;
use crate::token::Token;
use site_base::NoMemory;
use std::alloc::Global;
use std::marker::Model;

/// A message: exactly what can be spelled. Its address has 1 to 8 octets, the identifiers of its
/// items strictly rise, each content has at most 254 octets, and the address and the items take 2
/// to 1,024 octets in all. Address and items are in one place, as they are spelled.
#[derive(Debug, Drop)]
pub struct Message {
    to: [u8; 2],
    from: [u8; 2],
    kind: Kind,
    token: Token,
    body: Vec<u8>,
}

impl Model for Message {
    ghost use Rattle.app_message.specs.Telegram.{Telegram};
    ghost use Rattle.app_message.specs.Bodies.{of_body, IsBody};

    ghost Value = { Telegram };

    ghost view = { λ m. of_body m.to m.from m.kind m.token m.body.items };

    ghost invariant = { λ m. IsBody (of_body m.to m.from m.kind m.token m.body.items)
        m.body.items };
}

impl Message {
    /// Makes a message of these parts, which are copied: the recipient and the originator as subnet
    /// and node, the database address, and the items as pairs of identifier and content.
    ///
    /// `BadLength` if the address is empty or above 8 octets, or if the address and the items take
    /// more than 1,024 octets in all (each of them has one octet for its length, and an item one
    /// for its identifier). Otherwise `BadItem` if an identifier isn't above the one before it, or
    /// a content has more than 254 octets. `NoMemory` if a copy can't be allocated.
    pub fn try_new(
        alloc: Global,
        to: [u8; 2],
        from: [u8; 2],
        kind: Kind,
        token: Token,
        address: &[u8],
        items: &[(u8, &[u8])],
    ) -> Result<Message, MessageFault>
        // An accepted message is the parts handed in, which can be spelled.
        ensures made { IfOk result (λ m. m
            ≡ telegram to from kind token address.now (entries items.now)) }
        ensures accepted { OnOk result
            (IsMessage (telegram to from kind token address.now (entries items.now))) }

        // Want of memory aside, refused parts can't be spelled, and the first fault is told.
        ensures refused { IfErr result
            (λ e. e ≢ MessageFault.NoMemory
            → ¬ IsMessage (telegram to from kind token address.now (entries items.now))) }
        ensures fault { IfErr result (λ e. e ≢ MessageFault.NoMemory
            → parts_fault address.now (entries items.now) ≡ Some e) }

        // Whatever memory there is, faulty parts are told their first fault.
        ensures faulty { IfSome (parts_fault address.now (entries items.now))
            (λ e. IsErrOf result e) }
    {
        parts::check(address, items)?;
        let mut draft = Draft::try_new(alloc, to, from, kind, token, address, room_of(items))?;
        put_all(&mut draft, items)?;
        draft.finish()
    }

    /// The message of these octets of a body.
    pub(crate) fn of_body(
        to: [u8; 2],
        from: [u8; 2],
        kind: Kind,
        token: Token,
        body: Vec<u8>,
    ) -> Message
        requires { IsBody (of_body to from kind token body.items) body.items }
        ensures { result ≡ of_body to from kind token body.items }
    {
        Message {
            to,
            from,
            kind,
            token,
            body,
        }
    }

    /// Takes the place of this message: that of this head and these octets of a body, which are
    /// copied into its room. After `NoMemory` it is as it was.
    pub(crate) fn set(&mut self, head: Head, body: &[u8]) -> Result<(), NoMemory>
        requires { IsBody (of_body head.to head.from head.kind head.token body.now) body.now }
        ensures set { OnOk result (self.new
            ≡ of_body head.to head.from head.kind head.token body.now) }
        ensures err { OnErr result (self.new ≡ self.old) }
    {
        self.body
            .reserve(body.len().saturating_sub(self.body.len()))?;
        self.body.clear();
        match self.body.extend_from_slice(body) {
            Ok(()) => {}
            Err(_) => unreachable!(),
        }
        let (to, from) = (head.to, head.from);
        self.to = to;
        self.from = from;
        self.kind = head.kind;
        self.token = head.token;
        Ok(())
    }

    /// Returns the recipient, as subnet and node.
    pub fn to(&self) -> [u8; 2]
        ensures { result ≡ self.now.to }
    {
        self.to
    }

    /// Returns the originator, as subnet and node.
    pub fn from(&self) -> [u8; 2]
        ensures { result ≡ self.now.from }
    {
        self.from
    }

    /// Returns what the message is for.
    pub fn kind(&self) -> Kind
        ensures { result ≡ self.now.kind }
    {
        self.kind
    }

    /// Returns the number that a reply repeats.
    pub fn token(&self) -> Token
        ensures { result ≡ self.now.token }
    {
        self.token
    }

    /// Returns the database address, 1 to 8 octets.
    pub fn address(&self) -> &[u8]
        ensures value { result.now ≡ self.now.address }
        ensures least { 1 ≤ length result.now }
        ensures most { length result.now ≤ LONGEST_ADDRESS }
    {
        self.as_spelled().address()
    }

    /// Returns the items, in strictly rising order of their identifiers.
    pub fn items(&self) -> Items<'_>
        ensures value { result ≡ self.now.items }
        ensures valid { IsMessage self.now }
    {
        self.as_spelled().items()
    }

    /// Returns the message as one that is read in place.
    pub fn as_spelled(&self) -> SpelledMessage<'_>
        ensures { result ≡ self.now }
    {
        let head = Head {
            to: self.to,
            from: self.from,
            kind: self.kind,
            token: self.token,
            len: self.body.len(),
        };
        SpelledMessage::new(head, &self.body)
    }

    /// Are the two messages the same?
    pub fn is(&self, other: &Message) -> bool
        ensures same { result ≡ true → self.now ≡ other.now }
        ensures other { result ≡ false → self.now ≢ other.now }
    {
        self.to == other.to
            && self.from == other.from
            && self.kind == other.kind
            && self.token == other.token
            && self.body == other.body
    }

    /// Returns the memory of the message, for another one. Its octets mean nothing any more. It
    /// takes no memory.
    pub fn into_buffer(self) -> Vec<u8> {
        self.body
    }

    /// Returns the first eight octets of its spelling: recipient, originator, code 00, kind and
    /// token, and the number of octets of the body.
    pub fn head(&self) -> [u8; 8]
        ensures { result ≡ head_text self.now (length (body self.now)) }
    {
        let status = self.kind.code() * 32 + self.token.get();
        let [high, low] = (self.body.len() as u16).to_be_bytes();
        let (to, from) = (self.to, self.from);
        [to[0], to[1], from[0], from[1], 0, status, high, low]
    }

    /// Returns the rest of its spelling, the body: the number of the address's octets, the address,
    /// and the items.
    pub fn body(&self) -> &[u8]
        ensures text { result.now ≡ body self.now }
        ensures most { length result.now ≤ LONGEST_BODY }
    {
        &self.body
    }
}

/// The octets that these items take.
fn room_of(items: &[(u8, &[u8])]) -> usize {
    let mut room = 0usize;
    for (_, content) in items {
        room = room.saturating_add(content.len()).saturating_add(2);
    }
    room
}

/// Puts items whose contents fit behind each other.
fn put_all(draft: &mut Draft, items: &[(u8, &[u8])]) -> Result<(), MessageFault>
    requires { do_rise 0 (entries items.now) ≡ true }
    ensures put { OnOk result (draft.new ≡ with_items draft.old (entries items.now)) }
    ensures fault { IfErr result (λ e. e ≡ MessageFault.NoMemory) }
{
    for (id, content) in items {
        draft.put(*id, content)?;
    }
    Ok(())
}
