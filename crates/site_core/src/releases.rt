//! What a fuelling takes at its start.

ghost use Rattle.std.specs.Prelude.{◌≡◌};
ghost use Rattle.written_site.specs.SiteState.{facts_of, price_at_start, reading_at_start};
ghost use Rattle.site_core.specs.FoundPoints.{IsFound};
ghost use Rattle.site_core.specs.SiteParts.{site_of};

use crate::points::FoundPoint;
use crate::site_parts::SiteParts;
use site_base::{FpNo, Millilitres, Mills, NozzleNo};

impl SiteParts {
    /// The reading and the price that a fuelling takes which starts at the point by this nozzle.
    /// Without a nozzle nothing starts, and the least of each stands for it.
    pub(crate) fn start_by(&self, p: FpNo, nozzle: Option<NozzleNo>) -> (Millilitres, Mills)
        ensures last { result.0 ≡ reading_at_start (site_of self.now) p nozzle }
        ensures price { result.1 ≡ price_at_start (site_of self.now) p nozzle }
    {
        let (last, price) = match nozzle {
            Some(n) => (self.meters.last(p, n), self.price_of(p, n)),
            None => (None, None),
        };
        // Both are in range.
        (
            last.unwrap_or(Millilitres::new(0).unwrap()),
            price.unwrap_or(Mills::new(1).unwrap()),
        )
    }

    /// The same of the nozzle that is out at the point.
    pub(crate) fn start_at(&self, point: &FoundPoint) -> (Millilitres, Mills)
        requires { IsFound point.now (site_of self.now).points }
        ensures last { result.0 ≡ reading_at_start (site_of self.now) point.now.number
            (facts_of (site_of self.now) point.now.number).out }
        ensures price { result.1 ≡ price_at_start (site_of self.now) point.now.number
            (facts_of (site_of self.now) point.now.number).out }
    {
        self.start_by(point.number, self.points.view(point).out)
    }
}
