//! A list of messages.

ghost use Rattle.std.specs.Prelude.{◌≡◌, ◌==◌, [], ◌∷◌, ◌++◌, length, OnOk};

use crate::message::Message;
use crate::spelled_message::SpelledMessage;
use site_base::NoMemory;
use std::alloc::Global;
use std::marker::Model;

/// Messages in their order. A contract sees them as a list. After them there are cleared messages,
/// whose memory is used again.
#[derive(Debug, Drop)]
pub struct Messages {
    items: Vec<Message>,
    // So many of these are the list.
    len: usize,
}

impl Model for Messages {
    ghost use Rattle.std.specs.Prelude.{List, ◌≤◌, length, take};
    ghost use Rattle.app_message.specs.Telegram.{Telegram};

    ghost Value = { List Telegram };

    ghost view = { λ m. take m.len m.items.items };

    ghost invariant = { λ m. m.len ≤ length m.items.items };
}

impl Messages {
    /// Returns no messages. It takes no memory.
    pub fn new(alloc: Global) -> Messages
        ensures { result ≡ [] }
    {
        Messages {
            items: Vec::new(alloc),
            len: 0,
        }
    }

    /// Returns these messages. It takes no memory.
    pub fn from_vec(items: Vec<Message>) -> Messages
        ensures { result ≡ items.items }
    {
        let len = items.len();
        Messages { items, len }
    }

    /// Returns the messages as a `Vec`. It takes no memory.
    pub fn into_vec(self) -> Vec<Message>
        ensures { result.items ≡ self }
    {
        let mut items = self.items;
        items.truncate(self.len);
        items
    }

    /// Clears the list. The memory of its messages is used for the next ones.
    pub fn clear(&mut self)
        ensures { self.new ≡ [] }
    {
        self.len = 0;
    }

    /// Copies a message behind the others, into the room of one that was cleared where there is
    /// one.
    pub(crate) fn push(
        &mut self,
        alloc: Global,
        spelled: SpelledMessage<'_>,
    ) -> Result<(), NoMemory>
        ensures { OnOk result (self.new ≡ self.old ++ spelled.entry ∷ []) }
    {
        if self.len < self.items.len() {
            let cleared = &mut self.items[self.len];
            spelled.copy_to(cleared)?;
        } else {
            self.items.push(spelled.to_message(alloc)?)?;
        }
        self.len += 1;
        Ok(())
    }

    /// Returns the messages as a slice.
    pub fn as_slice(&self) -> &[Message]
        ensures { result.now ≡ self.now }
    {
        &self.items[..self.len]
    }

    /// Returns the number of messages.
    pub fn len(&self) -> usize
        ensures { result ≡ length self.now }
    {
        self.len
    }

    /// Are there no messages?
    pub fn is_empty(&self) -> bool
        ensures { result ≡ (length self.now == 0) }
    {
        self.len == 0
    }
}
