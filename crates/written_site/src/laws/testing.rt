//! Only tests are drawn, and each fuelling has one start.

ghost use Rattle.written_site.specs.RowWords.{OfEvents, OfBooks};
ghost use Rattle.written_site.specs.TestLaws.{AreTestsApart};

/// For every list of events from the opening site of any configuration: a row tells a sale only if
/// the point's last accepted Release, Prepay or TestRelease isn't a TestRelease. It is answered
/// Drawn only if that is a TestRelease, and its fuelling has started. Between two starts of a point
/// there is an accepted HangUp or Offline of it. The same holds for every legal history.
pub fn tests_are_apart()
    ensures events { OfEvents AreTestsApart }
    ensures books { OfBooks AreTestsApart }
{}
