//! The request that asks for an event.

ghost use Rattle.std.specs.Prelude.{◌≡◌, ◌≤◌, [], false, length, IfNone, IfOk, IfSome, OnOk};
ghost use Rattle.app_message.specs.Bodies.{with_items};
ghost use Rattle.app_message.specs.Telegram.{telegram};
ghost use Rattle.device_map.specs.Laws.{AsksFor, is_own};
ghost use Rattle.device_map.specs.Nodes.{site_node};
ghost use Rattle.device_map.specs.Ways.{address_of, content_items, items_of, may_send, node_of};
ghost use Rattle.device_map.specs.Ways.{sends, way_to};

use crate::address::Database;
use crate::item_writing::{put_command, put_eight, put_four, put_octet};
use crate::reply::{begin_message, finish_message, put_preset};
use crate::way::{Content, Way};
use crate::{ids, node};
use app_message::{Draft, Kind, Message, Token};
use site_base::{Actor, Event, NoMemory};
use std::alloc::Global;

/// Returns the request of an actor for an event, with this token: the only message that asks for it
/// so. None if the event isn't of the actor's kind: a till doesn't report, and a dispenser does
/// nothing else.
pub fn encode_request(
    alloc: Global,
    token: Token,
    actor: Actor,
    event: Event,
) -> Result<Option<Message>, NoMemory>
    ensures found { IfOk result (λ found. IfSome found (λ m. AsksFor token actor event m)) }
    ensures other { IfOk result (λ found. IfNone found (is_own actor event ≡ false)) }
    ensures kind { IfOk result (λ found. IfNone found
        (sends actor (way_to event).kind ≡ false)) }
{
    let way = Way::to(event);
    if !may_send(&actor, way.kind) {
        return Ok(None);
    }
    let _ = token.get();
    let mut draft = begin_request(alloc, token, &actor, &way)?;
    put_items(&mut draft, &way)?;
    Ok(Some(finish_message(draft)))
}

/// Does the actor send messages of this kind? A till sends reads and writes, a dispenser reports.
fn may_send(actor: &Actor, kind: Kind) -> bool
    ensures range { result ≡ may_send actor.now kind }
    ensures kind { result ≡ sends actor.now kind }
{
    match actor {
        Actor::Till(till) => {
            let _ = till.get();
            matches!(kind, Kind::Read | Kind::Write)
        }
        Actor::Dispenser(point) => {
            let _ = point.get();
            matches!(kind, Kind::Report)
        }
    }
}

/// The request without its items.
fn begin_request(alloc: Global, token: Token, actor: &Actor, way: &Way) -> Result<Draft, NoMemory>
    ensures value { IfOk result (λ draft. draft
        ≡ telegram site_node (node_of actor.now) way.now.kind token
        (address_of way.now.database) []) }
    ensures least { 1 ≤ length (address_of way.now.database) }
    ensures most { length (address_of way.now.database) ≤ 8 }
{
    let from = node_of(actor);
    match way.database {
        Database::Site => begin(alloc, from, way, token, &[ids::SITE_ADDRESS]),
        Database::Point(p) => begin(alloc, from, way, token, &[ids::POINT_ADDRESS + p.get()]),
        Database::Product(q) => begin(alloc, from, way, token, &[ids::PRODUCT_ADDRESS + q.get()]),
        Database::Transaction(p, digits) => {
            let (point, seq) = (ids::POINT_ADDRESS + p.get(), digits.seq);
            match digits.shift {
                None => {
                    let address = [point, ids::TRANSACTION_FORM, seq.high, seq.low];
                    begin(alloc, from, way, token, &address)
                }
                Some(shift) => {
                    let (high, low) = (shift.high, shift.low);
                    let address = [point, ids::SHIFT_FORM, high, low, seq.high, seq.low];
                    begin(alloc, from, way, token, &address)
                }
            }
        }
    }
}

/// A request of this way's kind to this address.
fn begin(
    alloc: Global,
    from: [u8; 2],
    way: &Way,
    token: Token,
    address: &[u8],
) -> Result<Draft, NoMemory>
    requires least { 1 ≤ length address.now }
    requires most { length address.now ≤ 8 }
    ensures { IfOk result (λ draft. draft
        ≡ telegram site_node from way.now.kind token address.now []) }
{
    begin_message(alloc, node::site(), from, way.kind, token, address)
}

/// Subnet and node of an actor.
fn node_of(actor: &Actor) -> [u8; 2]
    ensures { result ≡ node_of actor.now }
{
    match actor {
        Actor::Till(till) => node::till(*till),
        Actor::Dispenser(point) => node::dispenser(*point),
    }
}

/// Puts the command, if there is one, and what it carries.
#[tactic(auto, unfolding(crate::specs::Items::four_octets))]
fn put_items(draft: &mut Draft, way: &Way) -> Result<(), NoMemory>
    ensures { OnOk result (draft.new
        ≡ with_items draft.old (items_of way.now.command way.now.content)) }
{
    match (way.command, way.content) {
        (None, content) => put_content(draft, content),
        (Some(id), Content::Price(mills)) => put_four(draft, id, mills),
        (Some(id), content) => {
            put_command(draft, id)?;
            put_content(draft, content)
        }
    }
}

/// Puts what stands behind a command.
fn put_content(draft: &mut Draft, content: Content) -> Result<(), NoMemory>
    ensures { OnOk result (draft.new ≡ with_items draft.old (content_items content)) }
{
    match content {
        Content::Nothing | Content::Price(_) => Ok(()),
        Content::Limit(preset) => put_preset(draft, preset),
        Content::Payment(cents) => put_four(draft, ids::PRESET_MONEY, cents),
        Content::Meter(nozzle, reading) => {
            put_octet(draft, ids::NOZZLE, nozzle.get())?;
            put_eight(draft, ids::READING, reading.get())
        }
    }
}
