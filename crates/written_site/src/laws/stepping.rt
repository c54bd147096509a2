//! One step: what a refusal leaves, and which rows are answered Cleared.

ghost use Rattle.written_site.specs.RowWords.{OfEvents, OfBooks};
ghost use Rattle.written_site.specs.StepLaws.{AreClearsTold, DoRefusalsLeave};

/// At every site: a refused event leaves the site as it was.
pub fn refusals_leave_the_site()
    ensures { DoRefusalsLeave }
{}

/// For every list of events from the opening site of any configuration: a row is answered Cleared
/// exactly if its event is an accepted Clear. The same holds for every legal history.
pub fn clears_are_told()
    ensures events { OfEvents AreClearsTold }
    ensures books { OfBooks AreClearsTold }
{}
