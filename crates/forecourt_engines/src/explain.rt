//! Messages in words, for people who read a trace.

ghost use Rattle.std.specs.Prelude.{◌≡◌, IfOk};
ghost use Rattle.forecourt_engines.specs.Meanings.{Means};

use app_message::{Message, Token};
use device_map::{MapFault, decode_change, decode_number, decode_reply, request_of};
use site_base::{Actor, Event, FpNo, NoMemory, NumberMeaning, Reply, TillNo, write_reply};
use std::alloc::Global;
use std::fmt;

/// What a message means.
#[derive(Clone, Copy, Debug, PartialEq, Eq)]
pub enum Meaning {
    /// An actor asks the site for an event.
    Asked(Actor, Event),
    /// The site answers with a reply.
    Told(Reply),
    /// The site answers with a number in place of a reply.
    Numbered(u8),
    /// The site sends a dispenser the notice of a change.
    Changed(Event),
    /// It asks for nothing, and the site doesn't send such a message: why it is no request.
    NotAsked(MapFault),
}

/// A message in words: `t1 Open 3, token 2`; `to t1, token 2: Done`; `to d3: Open 3`;
/// `from t1, token 7: 53 UnknownItem`.
#[derive(Clone, Copy, Debug, PartialEq, Eq)]
pub struct Explanation {
    /// The recipient.
    pub to: [u8; 2],
    /// The originator.
    pub from: [u8; 2],
    /// The token.
    pub token: Token,
    /// What it means.
    pub meaning: Meaning,
}

/// Returns what a message means: the event that it asks for, or what the site says with it. It
/// returns a meaning only if docs/PROTOCOL.md has exactly this message for it.
pub fn explain(alloc: Global, message: &Message) -> Result<Explanation, NoMemory>
    ensures to { IfOk result (λ told. told.to ≡ message.now.to) }
    ensures from { IfOk result (λ told. told.from ≡ message.now.from) }
    ensures token { IfOk result (λ told. told.token ≡ message.now.token) }
    ensures meaning { IfOk result (λ told. Means message.now told.meaning) }
{
    let meaning = meaning_of(alloc, message)?;
    Ok(Explanation {
        to: message.to(),
        from: message.from(),
        token: message.token(),
        meaning,
    })
}

fn meaning_of(alloc: Global, message: &Message) -> Result<Meaning, NoMemory>
    ensures { IfOk result (λ meaning. Means message.now meaning) }
{
    let fault = match request_of(message) {
        Ok((actor, event)) => return Ok(Meaning::Asked(actor, event)),
        Err(fault) => fault,
    };
    if let Some(reply) = decode_reply(alloc, message)? {
        return Ok(Meaning::Told(reply));
    }
    if let Some(number) = decode_number(alloc, message)? {
        if NumberMeaning::of_no_reply(number).is_some() {
            return Ok(Meaning::Numbered(number));
        }
    }
    if let Some(event) = decode_change(alloc, message)? {
        return Ok(Meaning::Changed(event));
    }
    Ok(Meaning::NotAsked(fault))
}

impl fmt::Display for Explanation {
    fn fmt<W: fmt::Write>(&self, f: &mut fmt::Formatter<W>) -> fmt::Result {
        match &self.meaning {
            Meaning::Asked(actor, event) => {
                write!(f, "{} {}, token {}", actor, event, self.token.get())
            }
            Meaning::Told(reply) => {
                write!(f, "to {}, token {}: ", Node(self.to), self.token.get())?;
                write_reply(f, reply)
            }
            Meaning::Numbered(number) => {
                write!(f, "to {}, token {}: ", Node(self.to), self.token.get())?;
                write_number(f, *number)
            }
            Meaning::Changed(event) => write!(f, "to {}: {}", Node(self.to), event),
            Meaning::NotAsked(fault) => {
                write!(f, "from {}, token {}: ", Node(self.from), self.token.get())?;
                write_number(f, fault.number())
            }
        }
    }
}

/// A number that stands in place of a reply, and its name: `30 BookFull`.
fn write_number<W: fmt::Write>(f: &mut fmt::Formatter<W>, number: u8) -> fmt::Result {
    let name = NumberMeaning::of_no_reply(number).map_or("", |meaning| meaning.name());
    write!(f, "{number} {name}")
}

/// A node: `t1` is that of till 1, `d3` that of the dispenser of point 3, others as subnet and node
/// in hexadecimal.
#[derive(Clone, Copy)]
struct Node([u8; 2]);

impl fmt::Display for Node {
    fn fmt<W: fmt::Write>(&self, f: &mut fmt::Formatter<W>) -> fmt::Result {
        let [subnet, node] = self.0;
        match subnet {
            0x02 if TillNo::new(node).is_some() => write!(f, "t{node}"),
            0x03 if FpNo::new(node).is_some() => write!(f, "d{node}"),
            _ => write!(f, "{subnet:02x} {node:02x}"),
        }
    }
}
