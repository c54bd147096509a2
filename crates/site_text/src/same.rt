//! Are two configurations the same?

ghost use Rattle.std.specs.Prelude.{◌≡◌, ◌↔◌, IsTrue};

use site_base::{NozzleEntry, PointEntry, ProductEntry, SiteConfig, TillNo};

/// Are two configurations the same? They have the same rows, the same managers, the same products
/// and the same points with the same nozzles and readings, each in the same order.
pub fn is_same_site(left: &SiteConfig, right: &SiteConfig) -> bool
    ensures { IsTrue result ↔ (left.now ≡ right.now) }
{
    left.rows() == right.rows()
        && are_same_tills(left.managers(), right.managers())
        && are_same_products(left.products(), right.products())
        && are_same_points(left.points(), right.points())
}

fn are_same_tills(left: &[TillNo], right: &[TillNo]) -> bool
    ensures { IsTrue result ↔ (left.now ≡ right.now) }
{
    match (left, right) {
        ([], []) => true,
        ([x, xs @ ..], [y, ys @ ..]) => x.get() == y.get() && are_same_tills(xs, ys),
        _ => false,
    }
}

fn are_same_products(left: &[ProductEntry], right: &[ProductEntry]) -> bool
    ensures { IsTrue result ↔ (left.now ≡ right.now) }
{
    match (left, right) {
        ([], []) => true,
        ([x, xs @ ..], [y, ys @ ..]) => is_same_product(x, y) && are_same_products(xs, ys),
        _ => false,
    }
}

fn is_same_product(left: &ProductEntry, right: &ProductEntry) -> bool
    ensures { IsTrue result ↔ (left.now ≡ right.now) }
{
    left.number.get() == right.number.get()
        && left.name.as_str() == right.name.as_str()
        && left.price.get() == right.price.get()
}

fn are_same_points(left: &[PointEntry], right: &[PointEntry]) -> bool
    ensures { IsTrue result ↔ (left.now ≡ right.now) }
{
    match (left, right) {
        ([], []) => true,
        ([x, xs @ ..], [y, ys @ ..]) => is_same_point(x, y) && are_same_points(xs, ys),
        _ => false,
    }
}

fn is_same_point(left: &PointEntry, right: &PointEntry) -> bool
    ensures { IsTrue result ↔ (left.now ≡ right.now) }
{
    left.number.get() == right.number.get()
        && are_same_nozzles(left.nozzles.as_slice(), right.nozzles.as_slice())
}

fn are_same_nozzles(left: &[NozzleEntry], right: &[NozzleEntry]) -> bool
    ensures { IsTrue result ↔ (left.now ≡ right.now) }
{
    match (left, right) {
        ([], []) => true,
        ([x, xs @ ..], [y, ys @ ..]) => is_same_nozzle(x, y) && are_same_nozzles(xs, ys),
        _ => false,
    }
}

fn is_same_nozzle(left: &NozzleEntry, right: &NozzleEntry) -> bool
    ensures { IsTrue result ↔ (left.now ≡ right.now) }
{
    left.product.get() == right.product.get() && left.reading.get() == right.reading.get()
}
