//! Every figure fits in 64 bits.

ghost use Rattle.written_site.specs.FitLaws.{DoFiguresFitRows};
ghost use Rattle.written_site.specs.RowWords.{OfEvents, OfBooks};

/// After every list of events whose readings are in range, from the opening site of each fit
/// configuration, every figure is below 2^64: what all meters have counted, each product's volumes,
/// and the figures of each shift, of each till and of all tills together. The same holds for every
/// legal history. The types of both guarantee its premise, a fit configuration and readings in
/// range.
pub fn every_figure_fits()
    ensures events { OfEvents DoFiguresFitRows }
    ensures books { OfBooks DoFiguresFitRows }
{}
