//! What a report for people says about the gaps of its rows.

ghost use Rattle.std.specs.Prelude.{◌≡◌, ◌++◌, IfOk, OnOk, flat_map, option_map};
ghost use Rattle.site_base.specs.Members.{member};
ghost use Rattle.meter_table.specs.People.{litres, litres_up};
ghost use Rattle.meter_table.specs.ReportLines.{difference_words, gap_words, jump_line};
ghost use Rattle.meter_table.specs.ReportLines.{nozzle_words, open_line, product_at};
ghost use Rattle.meter_table.specs.ReportLines.{product_words};

use crate::gap::Replacement;
use crate::gap_list::GapList;
use crate::people::{put_litres, put_litres_up};
use crate::words::put_number;
use row_tally::RefusedRun;
use sales_table::name_of;
use site_base::{
    FpNo, Millilitres, NoMemory, NozzleNo, PointEntry, ProductEntry, ProductNo, SiteConfig,
};
use std::alloc::{AllocError, Global};

/// Returns what a report for people says about these gaps: an empty line, then a line for each
/// replaced meter and one for each open gap. Without any it is empty.
pub fn gap_words(alloc: Global, config: &SiteConfig, gaps: &GapList) -> Result<Vec<u8>, NoMemory>
    ensures { IfOk result (λ text. text.items ≡ gap_words config.now gaps.now) }
{
    let mut lines = Vec::new(alloc);
    put_jumps(alloc, config, gaps.replaced(), &mut lines)?;
    put_open(alloc, config, gaps.unsettled(), &mut lines)?;
    if lines.is_empty() {
        return Ok(lines);
    }
    let mut text = Vec::from_slice(alloc, b"\n")?;
    text.extend_from_slice(&lines)?;
    Ok(text)
}

/// Appends a line for each of these replaced meters.
fn put_jumps(
    alloc: Global,
    config: &SiteConfig,
    replaced: &[Replacement],
    text: &mut Vec<u8>,
) -> Result<(), AllocError>
    ensures { OnOk result (text.new.items
        ≡ text.old.items ++ flat_map (jump_line config.now) replaced.now) }
{
    for x in replaced {
        put_jump(alloc, config, x, text)?;
    }
    Ok(())
}

/// Appends the line of a replaced meter.
fn put_jump(
    alloc: Global,
    config: &SiteConfig,
    x: &Replacement,
    text: &mut Vec<u8>,
) -> Result<(), AllocError>
    ensures { OnOk result (text.new.items ≡ text.old.items ++ jump_line config.now x.now) }
{
    put_words("meter replaced: ", text)?;
    put_nozzle(config, x.point, x.nozzle, text)?;
    put_words(": the old one read ", text)?;
    put_reading(alloc, x.old, text)?;
    put_words(", the new one began at ", text)?;
    put_reading(alloc, x.new, text)?;
    put_difference(alloc, x.new, x.old, text)
}

/// Appends a line for each of these open gaps.
fn put_open(
    alloc: Global,
    config: &SiteConfig,
    runs: &[RefusedRun],
    text: &mut Vec<u8>,
) -> Result<(), AllocError>
    ensures { OnOk result (text.new.items
        ≡ text.old.items ++ flat_map (open_line config.now) runs.now) }
{
    for x in runs {
        put_run(alloc, config, x, text)?;
    }
    Ok(())
}

/// Appends the line of an open gap.
fn put_run(
    alloc: Global,
    config: &SiteConfig,
    x: &RefusedRun,
    text: &mut Vec<u8>,
) -> Result<(), AllocError>
    ensures { OnOk result (text.new.items ≡ text.old.items ++ open_line config.now x.now) }
{
    put_words("open gap: ", text)?;
    put_nozzle(config, x.point, x.nozzle, text)?;
    put_words(": ", text)?;
    put_reading(alloc, x.expected, text)?;
    put_words(" expected, ", text)?;
    put_reading(alloc, x.reported, text)?;
    put_words(" reported", text)?;
    put_difference(alloc, x.reported, x.expected, text)
}

/// Appends how far one reading is above another, and ends the line.
fn put_difference(
    alloc: Global,
    up: Millilitres,
    down: Millilitres,
    text: &mut Vec<u8>,
) -> Result<(), AllocError>
    ensures { OnOk result (text.new.items ≡ text.old.items ++ difference_words up down) }
{
    put_words(", difference ", text)?;
    put_step(alloc, up, down, text)?;
    put_words(" litres\n", text)
}

/// Appends how far one reading is above another, in litres.
fn put_step(
    alloc: Global,
    up: Millilitres,
    down: Millilitres,
    text: &mut Vec<u8>,
) -> Result<(), AllocError>
    ensures { OnOk result (text.new.items ≡ text.old.items ++ litres_up up down) }
{
    put_litres_up(alloc, up.get(), down.get(), text)
}

/// Appends a reading in litres.
fn put_reading(alloc: Global, reading: Millilitres, text: &mut Vec<u8>) -> Result<(), AllocError>
    ensures { OnOk result (text.new.items ≡ text.old.items ++ litres reading) }
{
    put_litres(alloc, reading.get(), text)
}

/// Appends a nozzle, with its product.
#[tactic(auto, unfolding(crate::specs::ReportLines::nozzle_words))]
fn put_nozzle(
    config: &SiteConfig,
    p: FpNo,
    n: NozzleNo,
    text: &mut Vec<u8>,
) -> Result<(), AllocError>
    ensures { OnOk result (text.new.items ≡ text.old.items ++ nozzle_words config.now p n) }
{
    put_words("point ", text)?;
    put_number(u64::from(p.get()), text)?;
    put_words(" nozzle ", text)?;
    put_number(u64::from(n.get()), text)?;
    put_product(config.products(), product_at(config.points(), p, n), text)
}

/// Appends a product's number and name, if there is one.
fn put_product(
    products: &[ProductEntry],
    product: Option<ProductNo>,
    text: &mut Vec<u8>,
) -> Result<(), AllocError>
    ensures { OnOk result (text.new.items
        ≡ text.old.items ++ product_words products.now product) }
{
    let Some(q) = product else {
        return Ok(());
    };
    put_words(", ", text)?;
    put_number(u64::from(q.get()), text)?;
    put_words(" ", text)?;
    put_words(name_of(products, q), text)
}

/// The product that nozzle n of point p delivers. None of a nozzle that isn't configured.
fn product_at(points: &[PointEntry], p: FpNo, n: NozzleNo) -> Option<ProductNo>
    ensures { result ≡ product_at p n points.now }
{
    for point in points {
        if point.number == p {
            return product_of(point, n);
        }
    }
    None
}

/// The product that nozzle n of this point delivers.
fn product_of(point: &PointEntry, n: NozzleNo) -> Option<ProductNo>
    ensures { result ≡ option_map (λ x. x.product) (member n point.now.nozzles) }
{
    let place = usize::from(n.get()) - 1;
    let nozzle = point.nozzles.as_slice().get(place)?;
    Some(nozzle.product)
}

/// Appends words.
fn put_words(words: &str, text: &mut Vec<u8>) -> Result<(), AllocError>
    ensures { OnOk result (text.new.items ≡ text.old.items ++ words.now) }
{
    text.extend_from_slice(words.as_bytes())
}
