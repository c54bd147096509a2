//! The event that words say.

ghost use Rattle.std.specs.Prelude.{◌≡◌, [], ◌∷◌, true, decimal, map, IfOk, OnErr};
ghost use Rattle.site_base.specs.declared.event.Event.{Event};
ghost use Rattle.site_base.specs.Words.{limit_words, meter_word, sale_word};
ghost use Rattle.forecourt_engines.specs.EventNames.{IsSaid};
ghost use Rattle.device_map.specs.Laws.{is_preset, is_sale};

use crate::words::behind_name::{
    read_meter, read_nothing, read_point, read_point_amount, read_product, read_product_amount,
    read_release, read_sale,
};
use crate::words::event_name::{EventName, LoneName, MeterName, PointName, SaleName};
use crate::words::wrong_word::WrongWord;
use site_base::{Event, FpNo, Millilitres, NozzleNo, Preset, ProductNo, SaleId};

/// Reads the event of this name and the words after it.
#[tactic(auto, using(crate::proofs::Unsaid::unsaid))]
pub fn read_event(name: EventName, words: &[&[u8]]) -> Result<Event, WrongWord>
    ensures found { IfOk result (λ event. IsSaid name (map (λ w. w.now) words.now) event) }
    ensures other { OnErr result ((event : Event)
        → ¬ IsSaid name (map (λ w. w.now) words.now) event) }
{
    match name {
        EventName::Alone(name) => {
            read_nothing(words)?;
            Ok(make_lone_event(name))
        }
        EventName::OfPoint(name) => {
            let p = read_point(words)?;
            Ok(make_point_event(name, p))
        }
        EventName::OfMeter(name) => {
            let (p, n, reading) = read_meter(words)?;
            Ok(make_meter_event(name, p, n, reading))
        }
        EventName::OfSale(name) => {
            let (p, sale) = read_sale(words)?;
            Ok(make_sale_event(name, p, sale))
        }
        EventName::Release => {
            let (p, preset) = read_release(words)?;
            Ok(make_release(p, preset))
        }
        EventName::Prepay => {
            let (p, cents) = read_point_amount(words)?;
            Ok(make_prepay(p, cents))
        }
        EventName::SetPrice => {
            let (q, mills) = read_product_amount(words)?;
            Ok(make_price_change(q, mills))
        }
        EventName::ReadProduct => {
            let q = read_product(words)?;
            Ok(make_product_read(q))
        }
    }
}

/// An event of which nothing is said.
fn make_lone_event(name: LoneName) -> Event
    ensures { IsSaid (EventName.Alone name) [] result }
{
    match name {
        LoneName::SignOn => Event::SignOn,
        LoneName::SignOff => Event::SignOff,
        LoneName::CloseShift => Event::CloseShift,
        LoneName::ReadSite => Event::ReadSite,
    }
}

/// An event that names a point alone.
fn make_point_event(name: PointName, p: FpNo) -> Event
    ensures { IsSaid (EventName.OfPoint name) (decimal p ∷ []) result }
{
    let _ = p.get();
    match name {
        PointName::Open => Event::Open(p),
        PointName::Close => Event::Close(p),
        PointName::Assign => Event::Assign(p),
        PointName::Unassign => Event::Unassign(p),
        PointName::TestRelease => Event::TestRelease(p),
        PointName::Suspend => Event::Suspend(p),
        PointName::Resume => Event::Resume(p),
        PointName::Terminate => Event::Terminate(p),
        PointName::ReadPoint => Event::ReadPoint(p),
        PointName::Online => Event::Online(p),
        PointName::Offline => Event::Offline(p),
    }
}

/// An event of a nozzle's meter.
fn make_meter_event(name: MeterName, p: FpNo, n: NozzleNo, reading: Millilitres) -> Event
    ensures { IsSaid (EventName.OfMeter name) (decimal p ∷ meter_word n reading ∷ []) result }
{
    let _ = (p.get(), n.get(), reading.get());
    match name {
        MeterName::ReplaceMeter => Event::ReplaceMeter(p, n, reading),
        MeterName::Lift => Event::Lift(p, n, reading),
        MeterName::Flow => Event::Flow(p, n, reading),
        MeterName::HangUp => Event::HangUp(p, n, reading),
    }
}

/// An event of a transaction.
fn make_sale_event(name: SaleName, p: FpNo, sale: SaleId) -> Event
    requires { is_sale sale ≡ true }
    ensures { IsSaid (EventName.OfSale name) (sale_word p sale ∷ []) result }
{
    let _ = p.get();
    match name {
        SaleName::Lock => Event::Lock(p, sale),
        SaleName::Unlock => Event::Unlock(p, sale),
        SaleName::Clear => Event::Clear(p, sale),
        SaleName::ReadTransaction => Event::ReadTransaction(p, sale),
    }
}

/// A release, and what it is limited by.
fn make_release(p: FpNo, preset: Preset) -> Event
    requires { is_preset preset ≡ true }
    ensures { IsSaid EventName.Release (decimal p ∷ limit_words preset) result }
{
    let _ = p.get();
    Event::Release(p, preset)
}

/// A prepayment of these cents.
fn make_prepay(p: FpNo, cents: u32) -> Event
    ensures { IsSaid EventName.Prepay (decimal p ∷ decimal cents ∷ []) result }
{
    let _ = p.get();
    Event::Prepay(p, cents)
}

/// A product's new price.
fn make_price_change(q: ProductNo, mills: u32) -> Event
    ensures { IsSaid EventName.SetPrice (decimal q ∷ decimal mills ∷ []) result }
{
    let _ = q.get();
    Event::SetPrice(q, mills)
}

/// A read of a product.
fn make_product_read(q: ProductNo) -> Event
    ensures { IsSaid EventName.ReadProduct (decimal q ∷ []) result }
{
    let _ = q.get();
    Event::ReadProduct(q)
}
