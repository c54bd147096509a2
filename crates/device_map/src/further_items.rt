//! Reads what follows a command, or what a read carries. First it checks which items there are,
//! then their widths and the ranges of their numbers. Identifiers rise. So a listed item is missing
//! if it isn't the next one, and what is left over is unknown (53).

ghost use Rattle.std.specs.Prelude.{◌≡◌};
ghost use Rattle.device_map.specs.Stages.{Gives};
ghost use Rattle.device_map.specs.Further.{items_end, preset_in, money_in, meter_in, sale_in};
ghost use Rattle.device_map.specs.Further.{four_octets_in, nozzle_in, reading_in};

use crate::decimal::SaleDigits;
use crate::fault::MapFault;
use crate::ids;
use app_message::{Item, Items};
use site_base::{Millilitres, NozzleNo, Preset, SaleId};

/// Checks that nothing follows.
pub fn expect_nothing(items: Items<'_>) -> Result<(), MapFault>
    ensures { Gives result (items_end items.entry) }
{
    if items.is_empty() {
        Ok(())
    } else {
        Err(MapFault::UnknownItem)
    }
}

/// Reads a preset volume, or preset money, or nothing.
#[tactic(auto, unfolding(crate::specs::Further::preset_in))]
pub fn preset(mut items: Items<'_>) -> Result<Preset, MapFault>
    ensures { Gives result (preset_in items.entry) }
{
    let Some(item) = items.next() else {
        return Ok(Preset::Unset);
    };
    if !items.is_empty() {
        return Err(MapFault::UnknownItem);
    }
    match item.id() {
        ids::PRESET_VOLUME => Ok(Preset::Volume(four_octets(item.content())?)),
        ids::PRESET_MONEY => Ok(Preset::Money(four_octets(item.content())?)),
        _ => Err(MapFault::UnknownItem),
    }
}

/// Reads preset money.
#[tactic(auto, unfolding(crate::specs::Further::money_in))]
pub fn money(mut items: Items<'_>) -> Result<u32, MapFault>
    ensures { Gives result (money_in items.entry) }
{
    let money = items.next().ok_or(MapFault::ItemMissing)?;
    if money.id() != ids::PRESET_MONEY || !items.is_empty() {
        return Err(MapFault::UnknownItem);
    }
    four_octets(money.content())
}

/// Reads a nozzle and the reading of its meter.
#[tactic(auto, unfolding(crate::specs::Further::meter_in))]
pub fn meter(mut items: Items<'_>) -> Result<(NozzleNo, Millilitres), MapFault>
    ensures { Gives result (meter_in items.entry) }
{
    let first = items.next().ok_or(MapFault::ItemMissing)?;
    let Some(second) = items.next() else {
        if first.id() == ids::NOZZLE || first.id() == ids::READING {
            return Err(MapFault::ItemMissing);
        }
        return Err(MapFault::UnknownItem);
    };
    if first.id() != ids::NOZZLE || second.id() != ids::READING || !items.is_empty() {
        return Err(MapFault::UnknownItem);
    }
    let nozzle = nozzle(&first)?;
    let reading = reading(&second)?;
    Ok((nozzle, reading))
}

/// Checks that nothing follows, and reads the sale that the address names.
#[tactic(auto, unfolding(crate::specs::Further::sale_in))]
pub fn sale(digits: SaleDigits, items: Items<'_>) -> Result<SaleId, MapFault>
    ensures { Gives result (sale_in digits items.entry) }
{
    expect_nothing(items)?;
    digits.sale()
}

/// Returns the number in a content of four octets.
pub fn four_octets(content: &[u8]) -> Result<u32, MapFault>
    ensures { Gives result (four_octets_in content.now) }
{
    match content {
        [a, b, c, d] => Ok(u32::from_be_bytes([*a, *b, *c, *d])),
        _ => Err(MapFault::BadNumber),
    }
}

fn nozzle(item: &Item<'_>) -> Result<NozzleNo, MapFault>
    ensures { Gives result (nozzle_in item.now) }
{
    let [number] = item.content() else {
        return Err(MapFault::BadNumber);
    };
    match NozzleNo::new(*number) {
        Some(nozzle) => Ok(nozzle),
        None => Err(MapFault::BadNumber),
    }
}

fn reading(item: &Item<'_>) -> Result<Millilitres, MapFault>
    ensures { Gives result (reading_in item.now) }
{
    let [a, b, c, d, e, f, g, h] = item.content() else {
        return Err(MapFault::BadNumber);
    };
    match Millilitres::new(u64::from_be_bytes([*a, *b, *c, *d, *e, *f, *g, *h])) {
        Some(reading) => Ok(reading),
        None => Err(MapFault::BadNumber),
    }
}
