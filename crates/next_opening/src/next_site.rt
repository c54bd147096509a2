//! The configuration that continues a book.

ghost use Rattle.std.specs.Prelude.{◌≡◌, ◌≤◌, length, map, IfOk};
ghost use Rattle.site_base.specs.declared.limits.TheConstants.{NOZZLES};
ghost use Rattle.site_book.specs.Book.{site_of_book};
ghost use Rattle.written_site.specs.SiteState.{opening};
ghost use Rattle.next_opening.specs.NextOpening.{GoesOnFrom, next_opening, priced};
ghost use Rattle.next_opening.specs.NextOpening.{prices_today, read_from, with_last_reading};
ghost use Rattle.next_opening.specs.NextOpening.{with_last_readings};

use site_base::{
    FpNo, Listing, Mills, NoMemory, NozzleEntry, NozzleNo, PointEntry, ProductEntry, ProductView,
    SiteConfig,
};
use site_book::SiteBook;
use std::alloc::Global;

/// Returns the configuration with which the next history begins: that of the book, but with the
/// present prices and each nozzle's last reading. A site that opens with it has the book's prices
/// and last readings.
pub fn next_config(alloc: Global, book: &SiteBook) -> Result<SiteConfig, NoMemory>
    ensures next { IfOk result (λ c. c ≡ next_opening book.now.config (site_of_book book.now)) }
    ensures goes_on { IfOk result (λ c. GoesOnFrom (site_of_book book.now) (opening c)) }
{
    // The rows of a book are a legal history, and its configuration is fit.
    let _ = book.len();
    let config = book.config();
    let (_, _) = (config.products(), config.points());
    let managers = Vec::from_slice(alloc, config.managers())?;
    let products = products_today(alloc, book)?;
    let points = points_read(alloc, book)?;
    match SiteConfig::try_new(config.rows(), managers, products, points) {
        Some(next) => Ok(next),
        // A configuration stays fit, whatever its prices and readings are.
        None => unreachable!(),
    }
}

/// The products of a book, each at its price of today.
fn products_today(alloc: Global, book: &SiteBook) -> Result<Vec<ProductEntry>, NoMemory>
    ensures { IfOk result (λ products. products.items
        ≡ priced book.now.config.products (prices_today (site_of_book book.now))) }
{
    let totals = book.totals(alloc)?;
    let products = book.config().products();
    let at_prices = priced_products(alloc, products, totals.products.as_slice())?;
    Ok(at_prices)
}

/// The products, each at the price that is shown of it.
fn priced_products(
    alloc: Global,
    products: &[ProductEntry],
    views: &[ProductView],
) -> Result<Vec<ProductEntry>, NoMemory>
    requires { length views.now ≡ length products.now }
    ensures { IfOk result (λ products_at. products_at.items
        ≡ priced products.now (map (λ v. v.price) views.now)) }
{
    let mut at_prices = Vec::new(alloc);
    for at in 0..products.len() {
        at_prices.push(priced_product(alloc, &products[at], views[at].price)?)?;
    }
    Ok(at_prices)
}

/// A product at another price.
fn priced_product(
    alloc: Global,
    product: &ProductEntry,
    price: Mills,
) -> Result<ProductEntry, NoMemory>
    ensures { IfOk result (λ p. p ≡ record product.now { price = price }) }
{
    let name = product.name.copy(alloc)?;
    Ok(ProductEntry {
        number: product.number,
        name,
        price,
    })
}

/// The points of a book, each of their nozzles with its last reading.
fn points_read(alloc: Global, book: &SiteBook) -> Result<Vec<PointEntry>, NoMemory>
    ensures { IfOk result (λ points. points.items
        ≡ map (with_last_readings (site_of_book book.now).nozzles) book.now.config.points) }
{
    let mut points = Vec::new(alloc);
    for point in book.config().points() {
        let nozzles = nozzles_read(alloc, book, point)?;
        points.push(PointEntry {
            number: point.number,
            nozzles: Listing::from(nozzles),
        })?;
    }
    Ok(points)
}

/// The nozzles of a point, each with its last reading: nozzle n is the nth.
fn nozzles_read(
    alloc: Global,
    book: &SiteBook,
    point: &PointEntry,
) -> Result<Vec<NozzleEntry>, NoMemory>
    requires { length point.now.nozzles ≤ NOZZLES }
    ensures { IfOk result (λ nozzles. nozzles.items
        ≡ read_from (site_of_book book.now).nozzles point.now.number 1 point.now.nozzles) }
{
    let mut nozzles = Vec::new(alloc);
    for (place, nozzle) in point.nozzles.as_slice().iter().enumerate() {
        let Some(number) = NozzleNo::new(place as u8 + 1) else {
            unreachable!();
        };
        nozzles.push(nozzle_read(book, point.number, number, nozzle))?;
    }
    Ok(nozzles)
}

/// A nozzle with its last reading.
fn nozzle_read(book: &SiteBook, p: FpNo, n: NozzleNo, nozzle: &NozzleEntry) -> NozzleEntry
    ensures { result ≡ with_last_reading (site_of_book book.now).nozzles p n nozzle.now }
{
    match book.reading(p, n) {
        Some(reading) => NozzleEntry { reading, ..*nozzle },
        None => *nozzle,
    }
}
