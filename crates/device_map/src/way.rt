//! The way to each event: the kind of message, the database, the command, and what the command
//! carries.

ghost use Rattle.std.specs.Prelude.{◌≡◌, true};
ghost use Rattle.site_base.specs.declared.limits.TheConstants.{POINTS, PRODUCTS};
ghost use Rattle.site_base.specs.Ranges.{is_between};
ghost use Rattle.device_map.specs.Laws.{is_in_range, is_meter, is_preset, is_sale};
ghost use Rattle.device_map.specs.Ways.{by_command, digits_of, reading, sale_digits};
ghost use Rattle.device_map.specs.Ways.{shift_digits, way_to};

use crate::address::Database;
use crate::decimal::{Digits, SaleDigits};
use crate::ids;
use app_message::Kind;
use site_base::{Event, FpNo, Millilitres, NozzleNo, Preset, ProductNo, SaleId, Seq, ShiftNo};

/// What a command carries, in it and after it.
#[derive(Clone, Copy)]
pub enum Content {
    /// Nothing.
    Nothing,
    /// The preset of a release, if one is set.
    Limit(Preset),
    /// Prepaid cents.
    Payment(u32),
    /// A nozzle, and the reading of its meter.
    Meter(NozzleNo, Millilitres),
    /// A price in mills, which is in the command itself.
    Price(u32),
}

/// A kind of message to a database, with a command or without, and what the command carries.
#[derive(Clone, Copy)]
pub struct Way {
    /// The kind of message.
    pub kind: Kind,
    /// The database to which it goes.
    pub database: Database,
    /// The command; None in a read.
    pub command: Option<u8>,
    /// What the command carries.
    pub content: Content,
}

impl Way {
    /// Returns the way to this event.
    pub fn to(event: Event) -> Way
        ensures way { result ≡ way_to event }
        ensures range { is_in_range event ≡ true }
    {
        match event {
            Event::SignOn => command(Database::Site, ids::SIGN_ON),
            Event::SignOff => command(Database::Site, ids::SIGN_OFF),
            Event::Open(p) => command(point(p), ids::OPEN),
            Event::Close(p) => command(point(p), ids::CLOSE),
            Event::Assign(p) => command(point(p), ids::ASSIGN),
            Event::Unassign(p) => command(point(p), ids::UNASSIGN),
            Event::Release(p, preset) => write(point(p), ids::RELEASE, limit(preset)),
            Event::Prepay(p, cents) => write(point(p), ids::PREPAY, Content::Payment(cents)),
            Event::TestRelease(p) => command(point(p), ids::TEST_RELEASE),
            Event::Suspend(p) => command(point(p), ids::SUSPEND),
            Event::Resume(p) => command(point(p), ids::RESUME),
            Event::Terminate(p) => command(point(p), ids::TERMINATE),
            Event::ReplaceMeter(p, n, r) => write(point(p), ids::REPLACE_METER, meter(n, r)),
            Event::ReadPoint(p) => read(point(p)),
            Event::Lock(p, sale) => command(transaction(p, sale), ids::LOCK),
            Event::Unlock(p, sale) => command(transaction(p, sale), ids::UNLOCK),
            Event::Clear(p, sale) => command(transaction(p, sale), ids::CLEAR),
            Event::ReadTransaction(p, sale) => read(transaction(p, sale)),
            Event::SetPrice(q, mills) => write(product(q), ids::SET_PRICE, Content::Price(mills)),
            Event::ReadProduct(q) => read(product(q)),
            Event::CloseShift => command(Database::Site, ids::CLOSE_SHIFT),
            Event::ReadSite => read(Database::Site),
            Event::Online(p) => report(p, ids::ONLINE, Content::Nothing),
            Event::Offline(p) => report(p, ids::OFFLINE, Content::Nothing),
            Event::Lift(p, n, r) => report(p, ids::LIFT, meter(n, r)),
            Event::Flow(p, n, r) => report(p, ids::FLOW, meter(n, r)),
            Event::HangUp(p, n, r) => report(p, ids::HANG_UP, meter(n, r)),
        }
    }
}

/// A till's command to a database, which carries nothing.
fn command(database: Database, id: u8) -> Way
    ensures { result ≡ by_command Kind.Write database id Content.Nothing }
{
    write(database, id, Content::Nothing)
}

/// A till's command to a database, and what it carries.
fn write(database: Database, id: u8, content: Content) -> Way
    ensures { result ≡ by_command Kind.Write database id content }
{
    Way {
        kind: Kind::Write,
        database,
        command: Some(id),
        content,
    }
}

/// A till's read of a database.
fn read(database: Database) -> Way
    ensures { result ≡ reading database }
{
    Way {
        kind: Kind::Read,
        database,
        command: None,
        content: Content::Nothing,
    }
}

/// A dispenser's command to a point, and what it carries.
fn report(p: FpNo, id: u8, content: Content) -> Way
    ensures way { result ≡ by_command Kind.Report (Database.Point p) id content }
    ensures range { is_between 1 POINTS p ≡ true }
{
    Way {
        kind: Kind::Report,
        database: point(p),
        command: Some(id),
        content,
    }
}

/// The database of a point.
fn point(p: FpNo) -> Database
    ensures database { result ≡ Database.Point p }
    ensures range { is_between 1 POINTS p ≡ true }
{
    let _ = p.get();
    Database::Point(p)
}

/// The database of a product.
fn product(q: ProductNo) -> Database
    ensures database { result ≡ Database.Product q }
    ensures range { is_between 1 PRODUCTS q ≡ true }
{
    let _ = q.get();
    Database::Product(q)
}

/// The database of a transaction of a point.
fn transaction(p: FpNo, sale: SaleId) -> Database
    ensures database { result ≡ Database.Transaction p (sale_digits sale) }
    ensures point { is_between 1 POINTS p ≡ true }
    ensures range { is_sale sale ≡ true }
{
    let _ = p.get();
    let shift = shift_digits(sale.shift);
    let seq = seq_digits(sale.seq);
    Database::Transaction(p, SaleDigits { shift, seq })
}

/// The digits of a shift, where one is named.
fn shift_digits(shift: Option<ShiftNo>) -> Option<Digits>
    ensures { result ≡ shift_digits shift }
{
    match shift {
        None => None,
        Some(shift) => Some(Digits::of(shift.get())),
    }
}

/// The digits of a transaction's number.
fn seq_digits(seq: Seq) -> Digits
    ensures { result ≡ digits_of seq }
{
    Digits::of(seq.get())
}

/// A preset.
fn limit(preset: Preset) -> Content
    ensures content { result ≡ Content.Limit preset }
    ensures range { is_preset preset ≡ true }
{
    match preset {
        Preset::Unset => Content::Limit(Preset::Unset),
        Preset::Volume(millilitres) => Content::Limit(Preset::Volume(millilitres)),
        Preset::Money(cents) => Content::Limit(Preset::Money(cents)),
    }
}

/// A nozzle and the reading of its meter.
fn meter(nozzle: NozzleNo, reading: Millilitres) -> Content
    ensures content { result ≡ Content.Meter nozzle reading }
    ensures range { is_meter nozzle reading ≡ true }
{
    let _ = (nozzle.get(), reading.get());
    Content::Meter(nozzle, reading)
}
