//! The laws of nozzles. Each is a function whose contract is the law.

ghost use Rattle.nozzle_figures.specs.Laws.{EachNozzleAddsUp, EachReadingIsCounted};
ghost use Rattle.nozzle_figures.specs.ProductSums.{EachProductAddsUp};

/// For each nozzle, and over any rows: the counter moved by what was metered and by jumps, and what
/// was metered was sold, was drawn, or is in the fuelling in progress.
pub fn each_nozzle_adds_up()
    ensures { EachNozzleAddsUp }
{}

/// The nozzles of a product add up to the product's figures, whatever rows there were.
pub fn each_product_adds_up()
    ensures { EachProductAddsUp }
{}

/// Each reading that an accepted row reports or notes is counted: as metered, or as a jump.
pub fn each_reading_is_counted()
    ensures { EachReadingIsCounted }
{}
