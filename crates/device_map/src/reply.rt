//! Replies to messages.

ghost use Rattle.std.specs.Prelude.{◌≡◌, ◌≤◌, [], length, unwrap_or, IfOk, OnOk};
ghost use Rattle.app_message.specs.Telegram.{telegram};
ghost use Rattle.app_message.specs.Bodies.{with_items};
ghost use Rattle.device_map.specs.Replies.{answer_kind, preset_items, prepaid_items};
ghost use Rattle.device_map.specs.Replies.{point_items, test_items};
ghost use Rattle.device_map.specs.Replies.{standing_items};
ghost use Rattle.device_map.specs.Replies.{transaction_items, product_items, site_items, outcome};
ghost use Rattle.device_map.specs.Replies.{answer_items, refusal_items};
ghost use Rattle.device_map.specs.Replies.{reply_items, reply_kind, reply_message, number_message};
ghost use Rattle.device_map.specs.Replies.{fault_message, AreShort, back, told_message};
ghost use Rattle.device_map.specs.Replies.{told_number};

use crate::decimal::packed_digits;
use crate::item_writing::{put_eight, put_four, put_octet, put_two};
use crate::{ids, node};
use app_message::{Draft, Kind, Message, MessageFault, SpelledMessage, StreamFault, Token};
use site_base::{
    Answer, Cents, Mills, NoMemory, NozzleNo, PointView, Preset, ProductView, Refusal, Reply, Seq,
    ShiftNo, SiteView, TillNo, TransactionView,
};
use std::alloc::Global;

/// No reply's items take more octets, so that a reply takes one growth.
const ROOM: usize = 96;

/// Returns the message that answers this request with a reply. It goes from the site to the
/// request's originator, with the request's token and address. An accepted read is answered by an
/// Answer, everything else by an Ack.
pub fn reply_of(alloc: Global, request: &Message, reply: &Reply) -> Result<Message, NoMemory>
    ensures { IfOk result (λ message. message ≡ reply_message request.now reply.now) }
{
    reply_in(Vec::new(alloc), &request.as_spelled(), reply)
}

/// Returns the same message, written into a buffer, whose content is replaced. The buffer is lost
/// after `NoMemory`.
#[inline(always)]
pub fn reply_in(
    buffer: Vec<u8>,
    request: &SpelledMessage<'_>,
    reply: &Reply,
) -> Result<Message, NoMemory>
    ensures { IfOk result (λ message. message ≡ reply_message request.now reply.now) }
{
    let mut draft = begin_reply(buffer, request, kind_of(reply))?;
    put_reply(&mut draft, reply)?;
    Ok(finish_message(draft))
}

/// Returns the message that answers with a number in place of a reply: why no row was made, or why
/// the request means no event.
pub fn refusal_of(alloc: Global, request: &Message, number: u8) -> Result<Message, NoMemory>
    ensures { IfOk result (λ message. message ≡ number_message request.now number) }
{
    refusal_in(Vec::new(alloc), &request.as_spelled(), number)
}

/// Returns the same message, written into a buffer, whose content is replaced. The buffer is lost
/// after `NoMemory`.
pub fn refusal_in(
    buffer: Vec<u8>,
    request: &SpelledMessage<'_>,
    number: u8,
) -> Result<Message, NoMemory>
    ensures { IfOk result (λ message. message ≡ number_message request.now number) }
{
    let mut draft = begin_reply(buffer, request, Kind::Ack)?;
    put_octet(&mut draft, ids::RESULT, number)?;
    Ok(finish_message(draft))
}

/// Returns the message that answers with this reply. It has the recipient, the token and the
/// address of another message.
pub fn reply_like(alloc: Global, message: &Message, reply: &Reply) -> Result<Message, NoMemory>
    ensures { IfOk result (λ m. m ≡ told_message message.now reply.now) }
{
    let address = message.address();
    let (to, site, token) = (message.to(), node::site(), message.token());
    let mut again = begin_message(alloc, to, site, kind_of(reply), token, address)?;
    put_reply(&mut again, reply)?;
    Ok(finish_message(again))
}

/// Returns the message that answers with this number. It has the recipient, the token and the
/// address of another message.
pub fn number_like(alloc: Global, message: &Message, number: u8) -> Result<Message, NoMemory>
    ensures { IfOk result (λ m. m ≡ told_number message.now number) }
{
    let address = message.address();
    let (to, site, token) = (message.to(), node::site(), message.token());
    let mut again = begin_message(alloc, to, site, Kind::Ack, token, address)?;
    put_octet(&mut again, ids::RESULT, number)?;
    Ok(finish_message(again))
}

/// Returns the message that says why a stream ended: an Ack with the site's address, to the
/// originator and with the token of the faulty header.
pub fn stream_refusal(alloc: Global, fault: &StreamFault) -> Result<Message, NoMemory>
    ensures { IfOk result (λ message. message ≡ fault_message fault.now) }
{
    let address = [ids::SITE_ADDRESS];
    let (to, site) = (fault.originator, node::site());
    let mut draft = begin_message(alloc, to, site, Kind::Ack, fault.token, &address)?;
    put_octet(&mut draft, ids::RESULT, fault.fault.number())?;
    Ok(finish_message(draft))
}

/// A message without items yet, from the site to the originator of the request, with its token and
/// address.
#[inline(always)]
fn begin_reply(buffer: Vec<u8>, request: &SpelledMessage<'_>, kind: Kind) -> Result<Draft, NoMemory>
    ensures value { IfOk result (λ draft. draft ≡ back request.now kind []) }
    ensures least { OnOk result (1 ≤ length request.now.address) }
    ensures most { OnOk result (length request.now.address ≤ 8) }
{
    Draft::back(request, node::site(), kind, buffer, ROOM)
}

/// Begins a message without items.
pub fn begin_message(
    alloc: Global,
    to: [u8; 2],
    from: [u8; 2],
    kind: Kind,
    token: Token,
    address: &[u8],
) -> Result<Draft, NoMemory>
    requires least { 1 ≤ length address.now }
    requires most { length address.now ≤ 8 }
    ensures { IfOk result (λ draft. draft ≡ telegram to from kind token address.now []) }
{
    match Draft::try_new(alloc, to, from, kind, token, address, ROOM) {
        Ok(draft) => Ok(draft),
        Err(fault) => match fault {
            MessageFault::NoMemory => Err(NoMemory),
            _ => unreachable!(),
        },
    }
}

/// Returns the message of a draft whose items are short.
pub fn finish_message(draft: Draft) -> Message
    requires short { AreShort draft.items }
    requires least { 1 ≤ length draft.address }
    requires most { length draft.address ≤ 8 }
    ensures { result ≡ draft }
{
    draft.into_message()
}

fn kind_of(reply: &Reply) -> Kind
    ensures { result ≡ reply_kind reply.now }
{
    match reply {
        Ok(answer) => answer_kind(answer),
        Err(_) => Kind::Ack,
    }
}

/// An Answer where something was read, else an Ack.
fn answer_kind(answer: &Answer) -> Kind
    ensures { result ≡ answer_kind answer.now }
{
    match answer {
        Answer::Done | Answer::Calling | Answer::Start { .. } | Answer::Flowed(_) => Kind::Ack,
        Answer::HungUp | Answer::NoSale | Answer::Sold { .. } | Answer::Stopped => Kind::Ack,
        Answer::Ending | Answer::Locked | Answer::Unlocked | Answer::Cleared(_) => Kind::Ack,
        Answer::ShiftClosed(_) | Answer::Drawn { .. } => Kind::Ack,
        Answer::PointIs(_) | Answer::TransactionIs(_) => Kind::Answer,
        Answer::ProductIs(_) | Answer::SiteIs(_) => Kind::Answer,
    }
}

#[inline(always)]
fn put_reply(draft: &mut Draft, reply: &Reply) -> Result<(), NoMemory>
    ensures { OnOk result (draft.new ≡ with_items draft.old (reply_items reply.now)) }
{
    match reply {
        Ok(answer) => put_answer(draft, answer),
        Err(refusal) => put_refusal(draft, refusal),
    }
}

fn put_refusal(draft: &mut Draft, refusal: &Refusal) -> Result<(), NoMemory>
    ensures { OnOk result (draft.new ≡ with_items draft.old (refusal_items refusal.now)) }
{
    put_octet(draft, ids::RESULT, refusal.number())?;
    if let Some(detail) = refusal.detail() {
        put_eight(draft, ids::DETAIL, detail)?;
    }
    Ok(())
}

#[inline(always)]
fn put_answer(draft: &mut Draft, answer: &Answer) -> Result<(), NoMemory>
    ensures { OnOk result (draft.new ≡ with_items draft.old (answer_items answer.now)) }
{
    match answer {
        Answer::Done => put_outcome(draft, 0),
        Answer::Calling => put_outcome(draft, 1),
        Answer::Start { preset, price } => put_start(draft, *preset, *price),
        Answer::Flowed(growth) => put_flowed(draft, *growth),
        Answer::HungUp => put_outcome(draft, 4),
        Answer::NoSale => put_outcome(draft, 5),
        Answer::Sold { seq, growth } => put_sold(draft, *seq, *growth),
        Answer::Stopped => put_outcome(draft, 7),
        Answer::Ending => put_outcome(draft, 8),
        Answer::Locked => put_outcome(draft, 9),
        Answer::Unlocked => put_outcome(draft, 10),
        Answer::Cleared(cents) => put_cleared(draft, *cents),
        Answer::ShiftClosed(shift) => put_shift(draft, *shift),
        Answer::Drawn { growth } => put_drawn(draft, *growth),
        Answer::PointIs(view) => put_point(draft, view),
        Answer::TransactionIs(view) => put_transaction(draft, view),
        Answer::ProductIs(view) => put_product(draft, view),
        Answer::SiteIs(view) => put_site(draft, view),
    }
}

fn put_outcome(draft: &mut Draft, number: u8) -> Result<(), NoMemory>
    ensures { OnOk result (draft.new ≡ with_items draft.old (outcome number)) }
{
    put_octet(draft, ids::RESULT, 0)?;
    put_octet(draft, ids::OUTCOME, number)
}

fn put_start(draft: &mut Draft, preset: Preset, price: Mills) -> Result<(), NoMemory>
    ensures { OnOk result (draft.new
        ≡ with_items draft.old (answer_items (Answer.Start preset price))) }
{
    put_outcome(draft, 2)?;
    put_preset(draft, preset)?;
    put_four(draft, ids::PRICE, price.get())
}

fn put_flowed(draft: &mut Draft, growth: u64) -> Result<(), NoMemory>
    ensures { OnOk result (draft.new ≡ with_items draft.old (answer_items (Answer.Flowed growth))) }
{
    put_outcome(draft, 3)?;
    put_eight(draft, ids::VOLUME, growth)
}

fn put_sold(draft: &mut Draft, seq: Seq, growth: u64) -> Result<(), NoMemory>
    ensures { OnOk result (draft.new
        ≡ with_items draft.old (answer_items (Answer.Sold seq growth))) }
{
    put_outcome(draft, 6)?;
    put_eight(draft, ids::VOLUME, growth)?;
    put_two(draft, ids::SEQUENCE, packed_digits(seq.get()))
}

fn put_cleared(draft: &mut Draft, cents: Cents) -> Result<(), NoMemory>
    ensures { OnOk result (draft.new ≡ with_items draft.old (answer_items (Answer.Cleared cents))) }
{
    put_outcome(draft, 11)?;
    put_eight(draft, ids::CENTS, cents.get())
}

fn put_shift(draft: &mut Draft, shift: ShiftNo) -> Result<(), NoMemory>
    ensures { OnOk result (draft.new
        ≡ with_items draft.old (answer_items (Answer.ShiftClosed shift))) }
{
    put_outcome(draft, 12)?;
    put_two(draft, ids::SHIFT, shift.get())
}

fn put_drawn(draft: &mut Draft, growth: u64) -> Result<(), NoMemory>
    ensures { OnOk result (draft.new ≡ with_items draft.old (answer_items (Answer.Drawn growth))) }
{
    put_outcome(draft, 13)?;
    put_eight(draft, ids::VOLUME, growth)
}

fn put_point(draft: &mut Draft, view: &PointView) -> Result<(), NoMemory>
    ensures { OnOk result (draft.new ≡ with_items draft.old (point_items view.now)) }
{
    put_standing(draft, view)?;
    put_test(draft, view.test)?;
    put_preset(draft, view.preset)?;
    put_four(draft, ids::PRICE, view.price)?;
    put_eight(draft, ids::VOLUME, view.volume)?;
    put_prepaid(draft, view.prepaid)
}

#[tactic(auto, unfolding(crate::specs::Replies::standing_items))]
fn put_standing(draft: &mut Draft, view: &PointView) -> Result<(), NoMemory>
    ensures { OnOk result (draft.new ≡ with_items draft.old (standing_items view.now)) }
{
    put_octet(draft, ids::STATE, view.state.number())?;
    put_octet(draft, ids::NOZZLE_OUT, nozzle_number(view.out))?;
    put_octet(draft, ids::HOLDER, till_number(view.holder))?;
    put_octet(draft, ids::ENDING, u8::from(view.ending))
}

fn put_transaction(draft: &mut Draft, view: &TransactionView) -> Result<(), NoMemory>
    ensures { OnOk result (draft.new ≡ with_items draft.old (transaction_items view.now)) }
{
    put_four(draft, ids::PRICE, view.price.get())?;
    put_eight(draft, ids::VOLUME, view.volume.get())?;
    put_eight(draft, ids::CENTS, view.cents.get())?;
    put_four(draft, ids::PREPAID, view.prepaid.unwrap_or(0))?;
    put_octet(draft, ids::STATUS, view.status.number())?;
    put_octet(draft, ids::TILL, till_number(view.till))?;
    put_octet(draft, ids::PRODUCT, view.product.get())
}

fn put_product(draft: &mut Draft, view: &ProductView) -> Result<(), NoMemory>
    ensures { OnOk result (draft.new ≡ with_items draft.old (product_items view.now)) }
{
    put_four(draft, ids::PRICE, view.price.get())?;
    put_eight(draft, ids::METERED, view.metered)?;
    put_eight(draft, ids::RUNNING, view.running)?;
    put_eight(draft, ids::PAYABLE, view.payable)?;
    put_eight(draft, ids::LOCKED, view.locked)?;
    put_eight(draft, ids::CLEARED, view.cleared)?;
    put_eight(draft, ids::ADJUSTED, view.adjusted)
}

fn put_site(draft: &mut Draft, view: &SiteView) -> Result<(), NoMemory>
    ensures { OnOk result (draft.new ≡ with_items draft.old (site_items view.now)) }
{
    put_eight(draft, ids::CENTS, view.cents)?;
    put_two(draft, ids::SHIFT, view.shift.get())
}

fn put_test(draft: &mut Draft, test: bool) -> Result<(), NoMemory>
    ensures { OnOk result (draft.new ≡ with_items draft.old (test_items test)) }
{
    if test {
        put_octet(draft, ids::TEST, 1)
    } else {
        Ok(())
    }
}

/// Puts the preset, if one is set.
pub fn put_preset(draft: &mut Draft, preset: Preset) -> Result<(), NoMemory>
    ensures { OnOk result (draft.new ≡ with_items draft.old (preset_items preset)) }
{
    match preset {
        Preset::Unset => Ok(()),
        Preset::Volume(millilitres) => put_four(draft, ids::PRESET_VOLUME, millilitres),
        Preset::Money(cents) => put_four(draft, ids::PRESET_MONEY, cents),
    }
}

fn put_prepaid(draft: &mut Draft, prepaid: Option<u32>) -> Result<(), NoMemory>
    ensures { OnOk result (draft.new ≡ with_items draft.old (prepaid_items prepaid)) }
{
    match prepaid {
        None => Ok(()),
        Some(cents) => put_four(draft, ids::PREPAID, cents),
    }
}

/// The nozzle's number, or 0 for none.
fn nozzle_number(nozzle: Option<NozzleNo>) -> u8
    ensures { result ≡ unwrap_or nozzle 0 }
{
    match nozzle {
        Some(nozzle) => nozzle.get(),
        None => 0,
    }
}

/// The till's number, or 0 for none.
fn till_number(till: Option<TillNo>) -> u8
    ensures { result ≡ unwrap_or till 0 }
{
    match till {
        Some(till) => till.get(),
        None => 0,
    }
}
