//! A message that is being made.

ghost use Rattle.std.specs.Prelude.{◌≡◌, ◌≢◌, ◌≤◌, ◌<◌, ◌⊎◌, [], ◌++◌, Some, None, length, IfOk};
ghost use Rattle.std.specs.Prelude.{IfErr, OnOk};
ghost use Rattle.std.specs.Prelude.{OnErr, vec_capacity, ◌+◌};
ghost use Rattle.std.specs.Result.{IsErrOf};
ghost use Rattle.app_message.specs.declared.sizes.TheConstants.{LONGEST_ADDRESS, LONGEST_CONTENT};
ghost use Rattle.app_message.specs.Telegram.{telegram, entry};
ghost use Rattle.app_message.specs.Spelling.{item_text, IsMessage};
ghost use Rattle.app_message.specs.Parts.{parts_fault, do_rise};
ghost use Rattle.app_message.specs.Bodies.{of_body, with_item};

use crate::fault::MessageFault;
use crate::items::Items;
use crate::kind::Kind;
use crate::message::Message;
use crate::parts;
use crate::sizes::{LONGEST_ADDRESS, LONGEST_BODY, LONGEST_CONTENT};
use crate::spelled_message::SpelledMessage;
use crate::token::Token;
use site_base::NoMemory;
use std::alloc::{AllocError, Global};
use std::marker::Model;

/// A message that is being made. Its items are written one after another, in their final place, and
/// are checked when it is finished.
#[derive(Drop)]
pub struct Draft {
    to: [u8; 2],
    from: [u8; 2],
    kind: Kind,
    token: Token,
    body: Vec<u8>,
}

impl Model for Draft {
    ghost use Rattle.app_message.specs.Telegram.{Telegram};
    ghost use Rattle.app_message.specs.Bodies.{of_body, IsDraft};

    ghost Value = { Telegram };

    ghost view = { λ d. of_body d.to d.from d.kind d.token d.body.items };

    ghost invariant = { λ d. IsDraft (of_body d.to d.from d.kind d.token d.body.items)
        d.body.items };
}

impl Draft {
    /// Begins a message without items: the recipient and the originator as subnet and node, and the
    /// database address, which is copied. It has room for this many octets of items (an item takes
    /// two and its content), so that putting these should take no memory. `BadLength` if the
    /// address is empty or above 8 octets; `NoMemory` if the room can't be allocated.
    pub fn try_new(
        alloc: Global,
        to: [u8; 2],
        from: [u8; 2],
        kind: Kind,
        token: Token,
        address: &[u8],
        room: usize,
    ) -> Result<Draft, MessageFault>
        ensures made { IfOk result (λ d. d ≡ telegram to from kind token address.now []) }
        ensures least { OnOk result (1 ≤ length address.now) }
        ensures most { OnOk result (length address.now ≤ LONGEST_ADDRESS) }
        ensures fault { IfErr result (λ e. e ≢ MessageFault.NoMemory
            → (e ≡ MessageFault.BadLength)
            × ((length address.now ≡ 0) ⊎ (LONGEST_ADDRESS < length address.now))) }

        // Whatever memory there is, such an address is refused.
        ensures faulty { (length address.now ≡ 0) ⊎ (LONGEST_ADDRESS < length address.now)
            → IsErrOf result MessageFault.BadLength }
    {
        parts::check_address(address)?;
        parts::know_types(&to, &from, token);
        let mut body = Vec::with_capacity(alloc, room.saturating_add(address.len() + 1))?;
        body.push(address.len() as u8)?;
        body.extend_from_slice(address)?;
        Ok(Draft {
            to,
            from,
            kind,
            token,
            body,
        })
    }

    /// Begins a message without items that goes back to the originator of another one: its
    /// recipient is that originator, and its token and database address are that message's. It
    /// replaces the content of the buffer, with room for this many octets of items, so that a
    /// buffer that was used before should take no memory. `NoMemory` if the room can't be
    /// allocated; then the buffer is lost.
    #[inline(always)]
    pub fn back(
        request: &SpelledMessage<'_>,
        from: [u8; 2],
        kind: Kind,
        buffer: Vec<u8>,
        room: usize,
    ) -> Result<Draft, NoMemory>
        ensures made { IfOk result (λ d. d
            ≡ telegram request.now.from from kind request.now.token request.now.address []) }
        ensures least { OnOk result (1 ≤ length request.now.address) }
        ensures most { OnOk result (length request.now.address ≤ LONGEST_ADDRESS) }
    {
        let (to, token) = (request.from(), request.token());
        parts::know_types(&to, &from, token);
        let mut body = buffer;
        body.clear();
        body.reserve(room.saturating_add(1 + LONGEST_ADDRESS))?;
        put_address(&mut body, request.spelled_address())?;
        Ok(Draft {
            to,
            from,
            kind,
            token,
            body,
        })
    }

    /// Appends an item. `BadItem` if its content has more than 254 octets; `NoMemory` if there was
    /// no room and none can be allocated. A refused item changes nothing.
    #[inline(always)]
    pub fn put(&mut self, id: u8, content: &[u8]) -> Result<(), MessageFault>
        ensures added { OnOk result (self.new ≡ with_item self.old (entry id content.now)) }
        ensures err { OnErr result (self.new ≡ self.old) }
        ensures long { LONGEST_CONTENT < length content.now → IsErrOf result MessageFault.BadItem }
        ensures fault { IfErr result (λ e. length content.now ≤ LONGEST_CONTENT
            → e ≡ MessageFault.NoMemory) }
    {
        if content.len() > LONGEST_CONTENT {
            return Err(MessageFault::BadItem);
        }
        put_item(&mut self.body, id, content)?;
        Ok(())
    }

    /// Returns the message, if it can be spelled. `BadLength` if the address and the items take
    /// more than 1,024 octets in all (each has one octet for its length, and an item one for its
    /// identifier); otherwise `BadItem` if an identifier isn't above the one before it. It takes no
    /// memory.
    pub fn finish(self) -> Result<Message, MessageFault>
        ensures made { IfOk result (λ m. m ≡ self) }
        ensures accepted { OnOk result (IsMessage self) }
        ensures fault { IfErr result (λ e. parts_fault self.address self.items ≡ Some e) }
    {
        if self.body.len() > LONGEST_BODY {
            return Err(MessageFault::BadLength);
        }
        if !rise(self.items()) {
            return Err(MessageFault::BadItem);
        }
        Ok(Message::of_body(self.to, self.from, self.kind, self.token, self.body))
    }

    /// Returns the message without a check, because its parts are known to have no fault. It takes
    /// no memory.
    pub fn into_message(self) -> Message
        requires { parts_fault self.address self.items ≡ None }
        ensures { result ≡ self }
    {
        Message::of_body(self.to, self.from, self.kind, self.token, self.body)
    }

    /// The items so far.
    fn items(&self) -> Items<'_>
        ensures { result ≡ self.now.items }
    {
        Items::new(parts::split(&self.body).1)
    }
}

/// Whether the identifiers strictly rise.
fn rise(items: Items<'_>) -> bool
    ensures { result ≡ do_rise 0 items.entry }
{
    let mut low = 0u16;
    for item in items {
        // Each content has at most 254 octets, by its type.
        let _content = item.content();
        if u16::from(item.id()) < low {
            return false;
        }
        low = u16::from(item.id()) + 1;
    }
    true
}

/// Appends an address as it is spelled. Most have one octet, which is put without a call; there is
/// room for it.
#[inline(always)]
fn put_address(out: &mut Vec<u8>, spelled: &[u8]) -> Result<(), AllocError>
    requires { length out.old.items + 2 ≤ vec_capacity out.old }
    ensures { OnOk result (out.new.items ≡ out.old.items ++ spelled.now) }
{
    match spelled {
        [size, octet] => {
            out.push_reserved(*size);
            out.push_reserved(*octet);
            Ok(())
        }
        _ => out.extend_from_slice(spelled),
    }
}

/// Appends an item: its identifier, its length and its content.
#[inline(always)]
fn put_item(out: &mut Vec<u8>, id: u8, content: &[u8]) -> Result<(), AllocError>
    requires { length content.now ≤ LONGEST_CONTENT }
    ensures ok { OnOk result (out.new.items ≡ out.old.items ++ item_text (entry id content.now)) }
    ensures err { OnErr result (out.new.items ≡ out.old.items) }
{
    out.reserve(content.len() + 2)?;
    out.push_reserved(id);
    out.push_reserved(content.len() as u8);
    out.extend_from_slice(content)
}
