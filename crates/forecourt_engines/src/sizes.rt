//! How large a site is.

ghost use Rattle.std.specs.Prelude.{◌≡◌, ◌≤◌, ◌*◌};
ghost use Rattle.site_base.specs.declared.limits.TheConstants.{NOZZLES, POINTS};
ghost use Rattle.forecourt_engines.specs.SiteSizes.{nozzle_count, sizes_of};

use site_base::{PointEntry, SiteConfig};
use std::fmt;

/// The number of fuelling points, nozzles and products of a site.
#[derive(Clone, Copy, Debug, PartialEq, Eq)]
pub struct Sizes {
    /// The fuelling points.
    pub points: usize,
    /// The nozzles of all fuelling points.
    pub nozzles: usize,
    /// The products.
    pub products: usize,
}

impl Sizes {
    /// Returns the sizes of the site of this configuration.
    pub fn of(config: &SiteConfig) -> Sizes
        ensures { result ≡ sizes_of config.now }
    {
        let points = config.points();
        Sizes {
            points: points.len(),
            nozzles: nozzles_of(points),
            products: config.products().len(),
        }
    }
}

/// `points 5 nozzles 10 products 2`.
impl fmt::Display for Sizes {
    fn fmt<W: fmt::Write>(&self, f: &mut fmt::Formatter<W>) -> fmt::Result {
        write!(f, "points {} nozzles {} ", self.points, self.nozzles)?;
        write!(f, "products {}", self.products)
    }
}

/// The nozzles of these fuelling points.
fn nozzles_of(points: &[PointEntry]) -> usize
    requires { nozzle_count points.now ≤ POINTS * NOZZLES }
    ensures { result ≡ nozzle_count points.now }
{
    let mut nozzles = 0;
    for point in points {
        nozzles += point.nozzles.as_slice().len();
    }
    nozzles
}
