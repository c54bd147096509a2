//! The ranges of the numbers in a configuration, which their types guarantee where they are read.

ghost use Rattle.std.specs.Prelude.{◌≡◌, true, nat_le};
ghost use Rattle.std.specs.List.{list_all};
ghost use Rattle.site_base.specs.declared.limits.TheConstants.{PRODUCTS};
ghost use Rattle.site_base.specs.declared.amounts.TheConstants.{GREATEST_READING};
ghost use Rattle.site_base.specs.Ranges.{is_between};
ghost use Rattle.site_base.specs.Prices.{prices_of, are_in_range};
ghost use Rattle.written_site.specs.Sound.{IsFit};

use site_base::{NozzleEntry, PointEntry, PriceBook, ProductEntry, ProductNo, SiteConfig};

/// States that a site can open from this configuration, which has these prices: it is fit, and each
/// of its numbers is in its range.
pub fn are_fit(config: &SiteConfig, prices: &PriceBook)
    requires { prices.now ≡ prices_of config.now.products }
    ensures { IsFit config.now }
{
    // A site file's rows, managers, products and points are fit, as their types say.
    let _ = config.rows();
    let _ = config.managers();
    let _ = prices.get(ProductNo::of_cell(0));
    product_ranges(config.products());
    point_ranges(config.points());
}

fn product_ranges(products: &[ProductEntry])
    ensures { list_all (λ p. is_between 1 PRODUCTS p.number) products.now ≡ true }
{
    for product in products {
        let _ = product.number.get();
    }
}

fn point_ranges(points: &[PointEntry])
    ensures { list_all (λ p. list_all (λ n. nat_le n.reading GREATEST_READING) p.nozzles) points.now
        ≡ true }
{
    for point in points {
        nozzle_ranges(point.nozzles.as_slice());
    }
}

fn nozzle_ranges(nozzles: &[NozzleEntry])
    ensures { list_all (λ n. nat_le n.reading GREATEST_READING) nozzles.now ≡ true }
{
    for nozzle in nozzles {
        let _ = nozzle.reading.get();
    }
}
