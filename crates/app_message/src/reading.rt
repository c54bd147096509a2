//! Reads one message from the front of octets, in stages.

ghost use Rattle.std.specs.Prelude.{◌≡◌, ◌+◌, ◌*◌, ◌%◌, ◌≤◌, ◌<◌, length, slice_index};
ghost use Rattle.std.specs.Prelude.{IfOk, OnOk};
ghost use Rattle.app_message.specs.declared.sizes.TheConstants.{HEADER, LONGEST_BODY};
ghost use Rattle.app_message.specs.declared.sizes.TheConstants.{SHORTEST_BODY};
ghost use Rattle.app_message.specs.Spelling.{IsHead};
ghost use Rattle.app_message.specs.Grammar.{kind_at, length_at, header_at, item_at, items_at};
ghost use Rattle.app_message.specs.Grammar.{address_at, body_at, front_at};
ghost use Rattle.app_message.specs.Bodies.{entries_in};
ghost use Rattle.app_message.specs.Reading.{Gives, header};

use crate::fault::GrammarFault;
use crate::item::Item;
use crate::kind::Kind;
use crate::parts;
use crate::sizes::{HEADER, LONGEST_ADDRESS, LONGEST_BODY, LONGEST_CONTENT, SHORTEST_BODY};
use crate::spelled_message::SpelledMessage;
use crate::token::Token;

/// Why no message was read.
#[derive(Clone, Copy, Debug, PartialEq, Eq)]
pub enum Stop {
    /// The octets end before the message does.
    Short,
    /// The octets begin with a fault.
    Fault(GrammarFault),
}

/// The first eight octets of a message.
#[derive(Clone, Copy)]
pub struct Head {
    pub to: [u8; 2],
    pub from: [u8; 2],
    pub kind: Kind,
    pub token: Token,
    pub len: usize,
}

fn kind_of(bits: u8) -> Result<Kind, Stop>
    ensures { Gives (λ k. k) result (kind_at bits) }
{
    match bits {
        0 => Ok(Kind::Read),
        1 => Ok(Kind::Answer),
        2 => Ok(Kind::Write),
        3 => Ok(Kind::Report),
        4 => Ok(Kind::Notice),
        7 => Ok(Kind::Ack),
        _ => Err(Stop::Fault(GrammarFault::BadKind)),
    }
}

fn length_of(high: u8, low: u8) -> Result<usize, Stop>
    ensures { Gives (λ n. n) result (length_at (high * 256 + low)) }
{
    let len = usize::from(high) * 256 + usize::from(low);
    if len < SHORTEST_BODY {
        return Err(Stop::Fault(GrammarFault::BadLength));
    }
    if len > LONGEST_BODY {
        return Err(Stop::Fault(GrammarFault::BadLength));
    }
    Ok(len)
}

#[tactic(auto, unfolding(crate::specs::Grammar::header_at))]
fn head_of(octets: &[u8]) -> Result<Head, Stop>
    ensures exact { Gives header result (header_at octets.now) }
    ensures long { IfOk result (λ h. HEADER ≤ length octets.now) }
{
    if octets.len() < HEADER {
        return Err(Stop::Short);
    }
    if octets[4] != 0 {
        return Err(Stop::Fault(GrammarFault::BadCode));
    }
    let kind = kind_of(octets[5] / 32)?;
    let len = length_of(octets[6], octets[7])?;
    Ok(Head {
        to: [octets[0], octets[1]],
        from: [octets[2], octets[3]],
        kind,
        token: Token::of_status(octets[5]),
        len,
    })
}

#[tactic(auto, unfolding(crate::specs::Grammar::item_at))]
fn item_of(low: u16, octets: &[u8]) -> Result<(Item<'_>, &[u8]), Stop>
    ensures exact { Gives (λ x. (x.0, x.1.now)) result (item_at low octets.now) }
    ensures shorter { IfOk result (λ x. length x.1.now < length octets.now) }
{
    if octets.len() < 2 {
        return Err(Stop::Fault(GrammarFault::BadItem));
    }
    if u16::from(octets[0]) < low {
        return Err(Stop::Fault(GrammarFault::BadItem));
    }
    let size = usize::from(octets[1]);
    if size > LONGEST_CONTENT {
        return Err(Stop::Fault(GrammarFault::BadItem));
    }
    let after = &octets[2..];
    if after.len() < size {
        return Err(Stop::Fault(GrammarFault::BadItem));
    }
    let (content, rest) = after.split_at(size);
    Ok((Item::new(octets[0], content), rest))
}

/// Whether these octets list items without a fault.
fn check_items(octets: &[u8]) -> Result<(), Stop>
    ensures { Gives (λ _. entries_in octets.now) result
        (items_at (length octets.now) 0 octets.now) }
{
    let mut rest = octets;
    let mut low = 0u16;
    while !rest.is_empty() {
        let (item, after) = item_of(low, rest)?;
        low = u16::from(item.id()) + 1;
        rest = after;
    }
    Ok(())
}

/// Whether the address that these octets begin with stands within them.
#[tactic(auto, unfolding(crate::specs::Grammar::address_at))]
fn check_address(octets: &[u8]) -> Result<(), Stop>
    requires { 0 < length octets.now }
    ensures exact { Gives (λ _. slice_index octets.now 0) result (address_at octets.now) }
    ensures within { OnOk result (slice_index octets.now 0 < length octets.now) }
{
    if octets[0] == 0 {
        return Err(Stop::Fault(GrammarFault::BadLength));
    }
    if usize::from(octets[0]) > LONGEST_ADDRESS {
        return Err(Stop::Fault(GrammarFault::BadLength));
    }
    if octets.len() < usize::from(octets[0]) + 1 {
        return Err(Stop::Fault(GrammarFault::BadLength));
    }
    Ok(())
}

#[tactic(auto, unfolding(crate::specs::Grammar::body_at))]
fn body_of(head: Head, octets: &[u8]) -> Result<SpelledMessage<'_>, Stop>
    requires head { IsHead head.to head.from head.token }
    requires least { SHORTEST_BODY ≤ length octets.now }
    requires most { length octets.now ≤ LONGEST_BODY }
    ensures { Gives (λ m. m) result (body_at (header head) octets.now) }
{
    check_address(octets)?;
    let (_address, items) = parts::split(octets);
    check_items(items)?;
    Ok(SpelledMessage::new(head, octets))
}

/// Reads the message at the front, in place, and returns it with the octets after it.
#[tactic(auto, unfolding(crate::specs::Grammar::front_at))]
pub fn front(octets: &[u8]) -> Result<(SpelledMessage<'_>, &[u8]), Stop>
    ensures exact { Gives (λ x. (x.0, x.1.now)) result (front_at octets.now) }
    ensures shorter { IfOk result (λ x. length x.1.now < length octets.now) }
{
    let head = head_of(octets)?;
    let after = &octets[HEADER..];
    if after.len() < head.len {
        return Err(Stop::Short);
    }
    let (body, rest) = after.split_at(head.len);
    Ok((body_of(head, body)?, rest))
}
