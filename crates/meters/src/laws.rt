//! Laws of the nozzles' meters. They have no code: each is proved for the definitions that the
//! contracts of this crate cite.

ghost use Rattle.meters.specs.Laws.{GrowthRaisesOneTotal, ReportsAreMetered, StaysWithinBounds};
ghost use Rattle.meters.specs.Laws.{TotalsAreMetered};

/// A reading that isn't below the last one raises the total of the nozzle's product by the growth,
/// and no other total.
pub fn growth_raises_one_total()
    ensures { GrowthRaisesOneTotal }
{}

/// Each nozzle stays within its bounds after a reading that isn't below the last one, and after a
/// replacement of a meter that may be replaced.
pub fn stays_within_bounds()
    ensures { StaysWithinBounds }
{}

/// A site that opens has metered nothing. An accepted report raises what is metered by its growth,
/// however the products are weighed. A refused report changes no meter. A replacement leaves what
/// is metered as it was.
pub fn reports_are_metered()
    ensures { ReportsAreMetered }
{}

/// A product's total is no more than what all nozzles have metered, which is at most what a site
/// can meter.
pub fn totals_are_metered()
    ensures { TotalsAreMetered }
{}
