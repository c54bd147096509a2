//! Reads replies back from their messages.

ghost use Rattle.std.specs.Prelude.{◌≡◌, IfOk, IfSome};
ghost use Rattle.device_map.specs.Replies.{told_message, told_number};

use crate::address::Database;
use crate::decimal::Digits;
use crate::ids;
use crate::reply::{number_like, reply_like};
use app_message::{Kind, Message};
use site_base::{
    Answer, Cents, Millilitres, Mills, NoMemory, NozzleNo, PointState, PointView, Preset,
    ProductNo, ProductView, Refusal, Reply, ShiftNo, SiteView, Status, TillNo, TransactionView,
};
use std::alloc::Global;

/// Returns the reply in a message from the site, if it has one. Then the message is exactly the
/// protocol's for that reply.
pub fn decode_reply(alloc: Global, message: &Message) -> Result<Option<Reply>, NoMemory>
    ensures { IfOk result (λ told. IfSome told
        (λ reply. message.now ≡ told_message message.now reply)) }
{
    match read(message) {
        None => Ok(None),
        Some(reply) => {
            // What was read is right where it is spelled so again.
            if message.is(&reply_like(alloc, message, &reply)?) {
                return Ok(Some(reply));
            }
            Ok(None)
        }
    }
}

/// Returns the number that a message from the site has in place of a reply, if it has one. Then the
/// message is exactly the protocol's for that number.
pub fn decode_number(alloc: Global, message: &Message) -> Result<Option<u8>, NoMemory>
    ensures { IfOk result (λ told. IfSome told
        (λ number. message.now ≡ told_number message.now number)) }
{
    match octet(message, ids::RESULT) {
        None => Ok(None),
        Some(number) => {
            if message.is(&number_like(alloc, message, number)?) {
                return Ok(Some(number));
            }
            Ok(None)
        }
    }
}

/// A reply that may be told.
fn read(message: &Message) -> Option<Reply> {
    match message.kind() {
        Kind::Ack => match octet(message, ids::RESULT)? {
            0 => Some(Ok(outcome(message)?)),
            number => Some(Err(refusal(message, number)?)),
        },
        Kind::Answer => Some(Ok(view(message)?)),
        _ => None,
    }
}

fn outcome(message: &Message) -> Option<Answer> {
    match octet(message, ids::OUTCOME)? {
        0 => Some(Answer::Done),
        1 => Some(Answer::Calling),
        2 => start(message),
        3 => Some(Answer::Flowed(number(message, ids::VOLUME)?)),
        4 => Some(Answer::HungUp),
        5 => Some(Answer::NoSale),
        6 => read_sold(message),
        7 => Some(Answer::Stopped),
        8 => Some(Answer::Ending),
        9 => Some(Answer::Locked),
        10 => Some(Answer::Unlocked),
        11 => Some(Answer::Cleared(cents(message)?)),
        12 => Some(Answer::ShiftClosed(shift(message)?)),
        13 => read_drawn(message),
        _ => None,
    }
}

fn start(message: &Message) -> Option<Answer> {
    let price = price(message)?;
    let preset = preset(message)?;
    Some(Answer::Start { preset, price })
}

fn read_sold(message: &Message) -> Option<Answer> {
    let growth = number(message, ids::VOLUME)?;
    let [high, low] = two_octets(message, ids::SEQUENCE)?.to_be_bytes();
    let seq = Digits::new(high, low).seq().ok()?;
    Some(Answer::Sold { seq, growth })
}

fn read_drawn(message: &Message) -> Option<Answer> {
    let growth = number(message, ids::VOLUME)?;
    Some(Answer::Drawn { growth })
}

fn refusal(message: &Message, told: u8) -> Option<Refusal> {
    match told {
        1 => Some(Refusal::NotSignedOn),
        2 => Some(Refusal::SignedOn),
        3 => Some(Refusal::NoSuchPoint),
        4 => Some(Refusal::NoSuchNozzle),
        5 => Some(Refusal::NoSuchProduct),
        6 => Some(Refusal::NoSuchTransaction),
        7 => Some(Refusal::NotManager),
        8 => Some(Refusal::BadPrice),
        9 => Some(Refusal::BadPreset),
        12 => Some(Refusal::NotYours),
        13 => Some(Refusal::NotYourPoint),
        15 => Some(Refusal::BufferFull),
        16 => Some(Refusal::SequenceSpent),
        19 => Some(Refusal::MeterJump),
        21 => Some(Refusal::NotLocked),
        23 => Some(Refusal::Ending),
        24 => Some(Refusal::ShiftsSpent),
        25 => Some(Refusal::MeterSpent),
        _ => refusal_with_detail(told, number(message, ids::DETAIL)?),
    }
}

/// A refusal with a detail.
fn refusal_with_detail(told: u8, detail: u64) -> Option<Refusal> {
    let short = u8::try_from(detail).ok();
    match told {
        10 => Some(Refusal::WrongState(state(short?)?)),
        11 => Some(Refusal::AssignedToOther(TillNo::new(short?)?)),
        14 => Some(Refusal::WrongNozzle(NozzleNo::new(short?)?)),
        17 => Some(Refusal::MeterGap(Millilitres::new(detail)?)),
        18 => Some(Refusal::MeterBack(Millilitres::new(detail)?)),
        20 => Some(Refusal::LockedByOther(TillNo::new(short?)?)),
        22 => Some(Refusal::AlreadyCleared(TillNo::new(short?)?)),
        _ => None,
    }
}

/// What a read told, by the database that it read.
fn view(message: &Message) -> Option<Answer> {
    match Database::at(message.address()).ok()? {
        Database::Site => Some(Answer::SiteIs(site(message)?)),
        Database::Point(_) => Some(Answer::PointIs(point(message)?)),
        Database::Transaction(_, _) => Some(Answer::TransactionIs(transaction(message)?)),
        Database::Product(_) => Some(Answer::ProductIs(product(message)?)),
    }
}

fn point(message: &Message) -> Option<PointView> {
    Some(PointView {
        state: state(octet(message, ids::STATE)?)?,
        out: NozzleNo::new(octet(message, ids::NOZZLE_OUT)?),
        holder: TillNo::new(octet(message, ids::HOLDER)?),
        ending: octet(message, ids::ENDING)? == 1,
        test: octet(message, ids::TEST) == Some(1),
        preset: preset(message)?,
        prepaid: four_octets(message, ids::PREPAID),
        price: four_octets(message, ids::PRICE)?,
        volume: number(message, ids::VOLUME)?,
    })
}

fn transaction(message: &Message) -> Option<TransactionView> {
    let prepaid = four_octets(message, ids::PREPAID)?;
    Some(TransactionView {
        price: price(message)?,
        volume: Millilitres::new(number(message, ids::VOLUME)?)?,
        cents: cents(message)?,
        prepaid: if prepaid == 0 { None } else { Some(prepaid) },
        status: status(octet(message, ids::STATUS)?)?,
        till: TillNo::new(octet(message, ids::TILL)?),
        product: ProductNo::new(octet(message, ids::PRODUCT)?)?,
    })
}

fn product(message: &Message) -> Option<ProductView> {
    Some(ProductView {
        price: price(message)?,
        metered: number(message, ids::METERED)?,
        running: number(message, ids::RUNNING)?,
        payable: number(message, ids::PAYABLE)?,
        locked: number(message, ids::LOCKED)?,
        cleared: number(message, ids::CLEARED)?,
        adjusted: number(message, ids::ADJUSTED)?,
    })
}

fn site(message: &Message) -> Option<SiteView> {
    Some(SiteView {
        cents: number(message, ids::CENTS)?,
        shift: shift(message)?,
    })
}

fn preset(message: &Message) -> Option<Preset> {
    if let Some(millilitres) = four_octets(message, ids::PRESET_VOLUME) {
        return Some(Preset::Volume(millilitres));
    }
    match four_octets(message, ids::PRESET_MONEY) {
        Some(cents) => Some(Preset::Money(cents)),
        None => Some(Preset::Unset),
    }
}

fn price(message: &Message) -> Option<Mills> {
    Mills::new(four_octets(message, ids::PRICE)?)
}

fn cents(message: &Message) -> Option<Cents> {
    Cents::new(number(message, ids::CENTS)?)
}

fn shift(message: &Message) -> Option<ShiftNo> {
    ShiftNo::new(two_octets(message, ids::SHIFT)?)
}

/// The state with this number.
fn state(number: u8) -> Option<PointState> {
    match number {
        1 => Some(PointState::Inoperative),
        2 => Some(PointState::Closed),
        3 => Some(PointState::Idle),
        4 => Some(PointState::Calling),
        5 => Some(PointState::Authorised),
        6 => Some(PointState::Started),
        7 => Some(PointState::SuspendedStarted),
        8 => Some(PointState::Fuelling),
        9 => Some(PointState::SuspendedFuelling),
        _ => None,
    }
}

/// The status with this number.
fn status(number: u8) -> Option<Status> {
    match number {
        1 => Some(Status::Cleared),
        2 => Some(Status::Payable),
        3 => Some(Status::Locked),
        _ => None,
    }
}

/// The number of an item, where it is one of an octet.
fn octet(message: &Message, id: u8) -> Option<u8> {
    u8::try_from(number(message, id)?).ok()
}

/// The number of an item, where it is one of two octets.
fn two_octets(message: &Message, id: u8) -> Option<u16> {
    u16::try_from(number(message, id)?).ok()
}

/// The number of an item, where it is one of four octets.
fn four_octets(message: &Message, id: u8) -> Option<u32> {
    u32::try_from(number(message, id)?).ok()
}

/// The number that an item of at most eight octets spells, if the message has it.
fn number(message: &Message, id: u8) -> Option<u64> {
    for item in message.items() {
        if item.id() == id {
            return read_number(item.content());
        }
    }
    None
}

/// The number that at most eight octets spell.
fn read_number(octets: &[u8]) -> Option<u64> {
    if octets.len() > 8 {
        return None;
    }
    let mut number = 0u64;
    for octet in octets {
        number = (number << 8) | u64::from(*octet);
    }
    Some(number)
}
