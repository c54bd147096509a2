//! Messages to events.

ghost use Rattle.device_map.specs.Stages.{Gives};
ghost use Rattle.device_map.specs.Commands.{bare, commands, reading_of};
ghost use Rattle.device_map.specs.Requests.{first_item, plain_event, event_by, event_among};
ghost use Rattle.device_map.specs.Requests.{command_in};
ghost use Rattle.device_map.specs.Requests.{read_by, event_at, request_at};

use crate::address::Database;
use crate::decimal::SaleDigits;
use crate::fault::MapFault;
use crate::{further_items, ids, node};
use app_message::{Item, Items, Kind, Message, SpelledMessage};
use site_base::{Actor, Event, FpNo, ProductNo};

/// Returns the actor and the event that the message means, or its first fault, in the order of
/// `MapFault`'s variants. The message has to be a request, for this site, from a node that may ask
/// it, to a database that has requests of this kind, with exactly the items of that request.
#[inline(always)]
pub fn request_of(message: &Message) -> Result<(Actor, Event), MapFault>
    ensures { Gives result (request_at message.now) }
{
    request_in(&message.as_spelled())
}

/// Returns the same for a message that is read in place.
#[tactic(auto, unfolding(crate::specs::Requests::request_at))]
#[inline(always)]
pub fn request_in(message: &SpelledMessage<'_>) -> Result<(Actor, Event), MapFault>
    ensures { Gives result (request_at message.now) }
{
    node::check_request(message.kind())?;
    node::check_recipient(message.to())?;
    let actor = node::actor_of(message.kind(), message.from())?;
    let database = Database::at(message.address())?;
    let event = event_of(message.kind(), database, message.items())?;
    Ok((actor, event))
}

#[tactic(auto, unfolding(crate::specs::Requests::command_in))]
#[inline(always)]
fn event_of(kind: Kind, database: Database, items: Items<'_>) -> Result<Event, MapFault>
    ensures { Gives result (event_at kind database items.entry) }
{
    match kind {
        Kind::Read => read_event(database, items),
        Kind::Write => write_event(database, items),
        Kind::Report => report_event(database, items),
        _ => Err(MapFault::BadAddress),
    }
}

fn read_event(database: Database, items: Items<'_>) -> Result<Event, MapFault>
    ensures { Gives result (read_by (reading_of database) items.entry) }
{
    match database {
        Database::Site => bare_event(Event::ReadSite, &[], items),
        Database::Point(point) => bare_event(Event::ReadPoint(point), &[], items),
        Database::Transaction(point, digits) => {
            Ok(Event::ReadTransaction(point, further_items::sale(digits, items)?))
        }
        Database::Product(product) => bare_event(Event::ReadProduct(product), &[], items),
    }
}

#[tactic(auto, unfolding(crate::specs::Requests::command_in))]
fn write_event(database: Database, items: Items<'_>) -> Result<Event, MapFault>
    ensures { Gives result (command_in (commands Kind.Write database) items.entry) }
{
    let (command, behind) = first_of(items)?;
    match database {
        Database::Site => site_event(&command, behind),
        Database::Point(point) => point_event(point, &command, behind),
        Database::Transaction(point, digits) => sale_event(point, digits, &command, behind),
        Database::Product(product) => product_event(product, &command, behind),
    }
}

#[tactic(auto, unfolding(crate::specs::Requests::command_in))]
fn report_event(database: Database, items: Items<'_>) -> Result<Event, MapFault>
    ensures { Gives result (command_in (commands Kind.Report database) items.entry) }
{
    match database {
        Database::Point(point) => {
            let (command, behind) = first_of(items)?;
            reported_event(point, &command, behind)
        }
        _ => Err(MapFault::BadAddress),
    }
}

/// The command, which stands first, and the items behind it.
fn first_of(mut items: Items<'_>) -> Result<(Item<'_>, Items<'_>), MapFault>
    ensures { Gives result (first_item items.entry) }
{
    let command = items.next().ok_or(MapFault::ItemMissing)?;
    Ok((command, items))
}

/// What a till may ask of the site.
fn site_event(command: &Item<'_>, items: Items<'_>) -> Result<Event, MapFault>
    ensures { Gives result
        (event_among (commands Kind.Write Database.Site) command.now items.entry) }
{
    let content = command.content();
    match command.id() {
        ids::SIGN_ON => bare_event(Event::SignOn, content, items),
        ids::SIGN_OFF => bare_event(Event::SignOff, content, items),
        ids::CLOSE_SHIFT => bare_event(Event::CloseShift, content, items),
        _ => Err(MapFault::UnknownItem),
    }
}

/// What a till may ask of a fuelling point.
fn point_event(point: FpNo, command: &Item<'_>, items: Items<'_>) -> Result<Event, MapFault>
    ensures { Gives result
        (event_among (commands Kind.Write (Database.Point point)) command.now items.entry) }
{
    let content = command.content();
    match command.id() {
        ids::OPEN => bare_event(Event::Open(point), content, items),
        ids::CLOSE => bare_event(Event::Close(point), content, items),
        ids::RELEASE => plain_event(
            Event::Release(point, further_items::preset(items)?),
            content,
        ),
        ids::TERMINATE => bare_event(Event::Terminate(point), content, items),
        ids::SUSPEND => bare_event(Event::Suspend(point), content, items),
        ids::RESUME => bare_event(Event::Resume(point), content, items),
        ids::ASSIGN => bare_event(Event::Assign(point), content, items),
        ids::UNASSIGN => bare_event(Event::Unassign(point), content, items),
        ids::PREPAY => plain_event(Event::Prepay(point, further_items::money(items)?), content),
        ids::TEST_RELEASE => bare_event(Event::TestRelease(point), content, items),
        ids::REPLACE_METER => {
            let (nozzle, reading) = further_items::meter(items)?;
            plain_event(Event::ReplaceMeter(point, nozzle, reading), content)
        }
        _ => Err(MapFault::UnknownItem),
    }
}

/// What a till may ask of a transaction of a fuelling point.
fn sale_event(
    point: FpNo,
    digits: SaleDigits,
    command: &Item<'_>,
    items: Items<'_>,
) -> Result<Event, MapFault>
    ensures { Gives result
        (event_among (commands Kind.Write (Database.Transaction point digits)) command.now
        items.entry) }
{
    let content = command.content();
    match command.id() {
        ids::LOCK => plain_event(
            Event::Lock(point, further_items::sale(digits, items)?),
            content,
        ),
        ids::UNLOCK => plain_event(
            Event::Unlock(point, further_items::sale(digits, items)?),
            content,
        ),
        ids::CLEAR => plain_event(
            Event::Clear(point, further_items::sale(digits, items)?),
            content,
        ),
        _ => Err(MapFault::UnknownItem),
    }
}

/// What a till may ask of a product.
fn product_event(
    product: ProductNo,
    command: &Item<'_>,
    items: Items<'_>,
) -> Result<Event, MapFault>
    ensures { Gives result
        (event_among (commands Kind.Write (Database.Product product)) command.now items.entry) }
{
    match command.id() {
        ids::SET_PRICE => {
            further_items::expect_nothing(items)?;
            let price = further_items::four_octets(command.content())?;
            Ok(Event::SetPrice(product, price))
        }
        _ => Err(MapFault::UnknownItem),
    }
}

/// What the dispenser of a fuelling point may report.
fn reported_event(point: FpNo, command: &Item<'_>, items: Items<'_>) -> Result<Event, MapFault>
    ensures { Gives result
        (event_among (commands Kind.Report (Database.Point point)) command.now items.entry) }
{
    let content = command.content();
    match command.id() {
        ids::ONLINE => bare_event(Event::Online(point), content, items),
        ids::OFFLINE => bare_event(Event::Offline(point), content, items),
        ids::LIFT => {
            let (nozzle, reading) = further_items::meter(items)?;
            plain_event(Event::Lift(point, nozzle, reading), content)
        }
        ids::FLOW => {
            let (nozzle, reading) = further_items::meter(items)?;
            plain_event(Event::Flow(point, nozzle, reading), content)
        }
        ids::HANG_UP => {
            let (nozzle, reading) = further_items::meter(items)?;
            plain_event(Event::HangUp(point, nozzle, reading), content)
        }
        _ => Err(MapFault::UnknownItem),
    }
}

/// The event of a request with nothing behind its command and no content in it.
fn bare_event(event: Event, content: &[u8], items: Items<'_>) -> Result<Event, MapFault>
    ensures { Gives result (event_by (bare event) content.now items.entry) }
{
    further_items::expect_nothing(items)?;
    plain_event(event, content)
}

/// The event of a command without content.
fn plain_event(event: Event, content: &[u8]) -> Result<Event, MapFault>
    ensures { Gives result (plain_event content.now event) }
{
    if content.is_empty() {
        Ok(event)
    } else {
        Err(MapFault::BadNumber)
    }
}
