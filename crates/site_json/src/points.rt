//! The fuelling points as JSON.

ghost use Rattle.std.specs.Prelude.{◌≡◌, ◌≤◌, ◌++◌, length, map, IfOk, OnOk};
ghost use Rattle.serde_json.specs.View.{view};
ghost use Rattle.site_base.specs.declared.limits.TheConstants.{NOZZLES};
ghost use Rattle.site_book.specs.Book.{site_of_book};
ghost use Rattle.site_json.specs.Nozzles.{nozzles_data};
ghost use Rattle.site_json.specs.Points.{cents_so_far, fuelling_data, left_cents, point_data};
ghost use Rattle.site_json.specs.Points.{point_shown, points_data, preset_cents};
ghost use Rattle.site_json.specs.Points.{preset_millilitres, product_out, state_word};

use crate::figures::{figure_if, widen};
use crate::nozzles::nozzle_values;
use crate::sessions::{PeerSession, is_connected};
use serde_json::{Value, json};
use site_base::{
    Millilitres, Mills, NoMemory, NozzleNo, PointEntry, PointState, PointView, Preset, TillNo,
    amount_of,
};
use site_book::SiteBook;
use std::alloc::{AllocError, Global};

/// Returns the configured points, in their order. `sessions` says which dispensers are connected.
pub fn point_values(
    alloc: Global,
    book: &SiteBook,
    sessions: &[PeerSession],
) -> Result<Vec<Value>, NoMemory>
    ensures { IfOk result (λ values. map view values.items
        ≡ points_data (site_of_book book.now) sessions.now book.now.config.points) }
{
    let mut values = Vec::new(alloc);
    for point in book.config().points() {
        add_point(alloc, book, sessions, point, &mut values)?;
    }
    Ok(values)
}

/// Adds a configured point, as the site has it.
fn add_point(
    alloc: Global,
    book: &SiteBook,
    sessions: &[PeerSession],
    point: &PointEntry,
    values: &mut Vec<Value>,
) -> Result<(), NoMemory>
    requires { length point.now.nozzles ≤ NOZZLES }
    ensures { OnOk result (map view values.new.items ≡ map view values.old.items
        ++ point_shown (site_of_book book.now) sessions.now point.now) }
{
    if let Some(shown) = book.point(point.number) {
        let is_connected = is_connected(sessions, point.number);
        let nozzles = nozzle_values(alloc, book, point)?;
        values.push(point_value(alloc, is_connected, nozzles, point, &shown)?)?;
    }
    Ok(())
}

/// A point as a read shows it, whose dispenser is connected or not, with these nozzles.
fn point_value(
    alloc: Global,
    is_connected: bool,
    nozzles: Vec<Value>,
    point: &PointEntry,
    shown: &PointView,
) -> Result<Value, AllocError>
    ensures { IfOk result (λ value. view value
        ≡ point_data is_connected (map view nozzles.items) point.now shown.now) }
{
    let nozzles = Value::Array(nozzles);
    let fuelling = fuelling_value(alloc, shown)?;
    let holder = figure_if(till_number(shown.holder));
    let nozzle = figure_if(nozzle_number(shown.out));
    let product = figure_if(product_out(point, shown.out));
    json!(in alloc; {
        "dispenser connected": is_connected,
        "fuelling": fuelling,
        "holder": holder,
        "nozzle": nozzle,
        "nozzles": nozzles,
        "number": point.number.get(),
        "product": product,
        "state": shown.state.number(),
        "state name": state_word(shown.state)
    })
}

/// The fuelling to come or under way.
fn fuelling_value(alloc: Global, shown: &PointView) -> Result<Value, AllocError>
    ensures { IfOk result (λ value. view value ≡ fuelling_data shown.now) }
{
    let cents = figure_if(cents_so_far(shown));
    let left = figure_if(left_cents(shown));
    let prepaid = figure_if(widen(shown.prepaid));
    let preset_cents = figure_if(preset_cents(&shown.preset));
    let preset_millilitres = figure_if(preset_millilitres(&shown.preset));
    json!(in alloc; {
        "cents": cents,
        "ending": shown.ending,
        "left cents": left,
        "millilitres": shown.volume,
        "mills": shown.price,
        "prepaid": prepaid,
        "preset cents": preset_cents,
        "preset millilitres": preset_millilitres,
        "test": shown.test
    })
}

/// Returns the name of a state.
pub fn state_word(state: PointState) -> &'static str
    ensures { result.now ≡ state_word state }
{
    match state {
        PointState::Inoperative => "inoperative",
        PointState::Closed => "closed",
        PointState::Idle => "idle",
        PointState::Calling => "calling",
        PointState::Authorised => "authorised",
        PointState::Started => "started",
        PointState::SuspendedStarted => "suspended started",
        PointState::Fuelling => "fuelling",
        PointState::SuspendedFuelling => "suspended fuelling",
    }
}

/// The cents of the fuelling so far; none unless it has started, with a price taken.
fn cents_so_far(shown: &PointView) -> Option<u64>
    ensures { result ≡ cents_so_far shown.now }
{
    let volume = Millilitres::new(shown.volume)?;
    let price = Mills::new(shown.price)?;
    Some(amount_of(volume, price).get())
}

/// What is left of what was prepaid, where it was.
fn left_cents(shown: &PointView) -> Option<u64>
    ensures { result ≡ left_cents shown.now }
{
    let prepaid = widen(shown.prepaid)?;
    match cents_so_far(shown) {
        Some(cents) => Some(prepaid.saturating_sub(cents)),
        None => Some(prepaid),
    }
}

/// The cents of a preset of money.
fn preset_cents(preset: &Preset) -> Option<u64>
    ensures { result ≡ preset_cents preset.now }
{
    match preset {
        Preset::Money(cents) => Some(u64::from(*cents)),
        _ => None,
    }
}

/// The millilitres of a preset volume.
fn preset_millilitres(preset: &Preset) -> Option<u64>
    ensures { result ≡ preset_millilitres preset.now }
{
    match preset {
        Preset::Volume(millilitres) => Some(u64::from(*millilitres)),
        _ => None,
    }
}

/// The product of the nozzle that is out.
fn product_out(point: &PointEntry, out: Option<NozzleNo>) -> Option<u64>
    ensures { result ≡ product_out point.now.nozzles out }
{
    let place = usize::from(out?.get()) - 1;
    let nozzle = point.nozzles.as_slice().get(place)?;
    Some(u64::from(nozzle.product.get()))
}

/// The number of a nozzle.
fn nozzle_number(nozzle: Option<NozzleNo>) -> Option<u64>
    ensures { result ≡ nozzle }
{
    Some(u64::from(nozzle?.get()))
}

/// The number of a till.
fn till_number(till: Option<TillNo>) -> Option<u64>
    ensures { result ≡ till }
{
    Some(u64::from(till?.get()))
}
