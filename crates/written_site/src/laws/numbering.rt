//! Room and numbers: a sale finds both.

ghost use Rattle.written_site.specs.NumberLaws.{AreNumbered};
ghost use Rattle.written_site.specs.RowWords.{OfEvents, OfBooks};

/// For every list of events from the opening site of any configuration: a point's sales in a shift
/// have the numbers 1, 2, 3 and so on, none above 9,999. Before each of them fewer than two of the
/// point's sales have no clear yet, and there are never more than two such sales. The site's unpaid
/// sales are exactly those without a clear. The same holds for every legal history.
pub fn sales_are_numbered()
    ensures events { OfEvents AreNumbered }
    ensures books { OfBooks AreNumbered }
{}
