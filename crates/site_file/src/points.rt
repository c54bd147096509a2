//! The fuelling points of a site file.

ghost use Rattle.std.specs.Prelude.{◌≡◌, ◌≤◌, []};
ghost use Rattle.toml.specs.View.{view, items_view, table_view};
ghost use Rattle.site_file.specs.declared.key.Key.TheVariants as key;
ghost use Rattle.site_file.specs.Saying.{Gives};
ghost use Rattle.site_file.specs.SiteFile as spec;

use crate::by_number::Products;
use crate::fault::ConfigFault;
use crate::key::Key;
use crate::unknown_keys::with_keys;
use crate::values::{list_at, number_at, read_whole, table, value_at};
use site_base::{
    FpNo, GREATEST_READING, Listing, Millilitres, NOZZLES, NozzleEntry, POINTS, PointEntry,
    ProductNo,
};
use std::alloc::Global;
use toml::{Table, Value};

/// Returns the fuelling points of a site file, in configured order.
#[tactic(auto, unfolding(crate::specs::SiteFile::points_of))]
pub fn points_of(
    alloc: Global,
    products: &Products,
    file: &Table,
) -> Result<Vec<PointEntry>, ConfigFault>
    ensures { Gives (λ v. v.items) result (spec.points_of products.now (table_view file.now)) }
{
    let members = list_at(file, Key::Point, usize::from(POINTS))?;
    points_in(alloc, products, members)
}

fn points_in(
    alloc: Global,
    products: &Products,
    members: &[Value],
) -> Result<Vec<PointEntry>, ConfigFault>
    ensures { Gives (λ v. v.items) result
        (spec.points_from products.now [] (items_view members.now)) }
{
    let mut points = Vec::new(alloc);
    for member in members {
        let point = point_of(alloc, products, &points, member)?;
        points.push(point)?;
    }
    Ok(points)
}

/// A point whose number isn't among those taken.
#[tactic(auto, unfolding(crate::specs::SiteFile::point_of))]
fn point_of(
    alloc: Global,
    products: &Products,
    taken: &[PointEntry],
    value: &Value,
) -> Result<PointEntry, ConfigFault>
    ensures { Gives (λ p. p) result (spec.point_of products.now taken.now (view value.now)) }
{
    let point = table(value, Key::Point)?;
    with_keys(alloc, point, &[Key::Number, Key::Nozzles])?;
    let number = point_number(taken, point)?;
    let nozzles = nozzles_of(alloc, products, point)?;
    Ok(PointEntry {
        number,
        nozzles: Listing::from(nozzles),
    })
}

/// A number that none of the points taken has.
#[tactic(auto, unfolding(crate::specs::SiteFile::point_number))]
fn point_number(taken: &[PointEntry], point: &Table) -> Result<FpNo, ConfigFault>
    ensures { Gives (λ n. n) result (spec.point_number taken.now (table_view point.now)) }
{
    let number = number_at(point, Key::Number, 1, u64::from(POINTS))?;
    let number = FpNo::new(number as u8).unwrap();
    if is_among(number, taken) {
        Err(ConfigFault::Repeated(Key::Number))
    } else {
        Ok(number)
    }
}

fn is_among(number: FpNo, taken: &[PointEntry]) -> bool
    ensures { result ≡ spec.has_point taken.now number }
{
    taken.iter().any(|point| point.number.get() == number.get())
}

/// The nozzles of a point, the nth being nozzle n.
#[tactic(auto, unfolding(crate::specs::SiteFile::nozzles_of))]
fn nozzles_of(
    alloc: Global,
    products: &Products,
    point: &Table,
) -> Result<Vec<NozzleEntry>, ConfigFault>
    ensures { Gives (λ v. v.items) result (spec.nozzles_of products.now (table_view point.now)) }
{
    let members = list_at(point, Key::Nozzles, usize::from(NOZZLES))?;
    nozzles_in(alloc, products, members)
}

fn nozzles_in(
    alloc: Global,
    products: &Products,
    members: &[Value],
) -> Result<Vec<NozzleEntry>, ConfigFault>
    ensures { Gives (λ v. v.items) result
        (spec.nozzles_from products.now [] (items_view members.now)) }
{
    let mut nozzles = Vec::new(alloc);
    for member in members {
        let nozzle = nozzle_of(alloc, products, member)?;
        nozzles.push(nozzle)?;
    }
    Ok(nozzles)
}

/// A nozzle of a product that is there.
#[tactic(auto, unfolding(crate::specs::SiteFile::nozzle_of))]
fn nozzle_of(alloc: Global, products: &Products, value: &Value) -> Result<NozzleEntry, ConfigFault>
    ensures { Gives (λ n. n) result (spec.nozzle_of products.now (view value.now)) }
{
    let nozzle = table(value, Key::Nozzles)?;
    with_keys(alloc, nozzle, &[Key::Product, Key::Reading])?;
    let number = read_whole(value_at(nozzle, Key::Product)?, Key::Product)?;
    let product = product_in(products, number)?;
    let reading = reading_of(nozzle)?;
    Ok(NozzleEntry { product, reading })
}

/// The product of this number.
fn product_in(products: &Products, number: i64) -> Result<ProductNo, ConfigFault>
    ensures { Gives (λ q. q) result (spec.product_in products.now number) }
{
    let Ok(number) = u64::try_from(number) else {
        return Err(ConfigFault::UnknownProduct);
    };
    match products.get(number) {
        Some(product) => Ok(product),
        None => Err(ConfigFault::UnknownProduct),
    }
}

fn reading_of(nozzle: &Table) -> Result<Millilitres, ConfigFault>
    ensures { Gives (λ m. m) result
        (spec.number_at key.Reading 0 GREATEST_READING (table_view nozzle.now)) }
{
    let reading = number_at(nozzle, Key::Reading, 0, GREATEST_READING)?;
    Ok(Millilitres::new(reading).unwrap())
}
