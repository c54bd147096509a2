//! The points of a site are points.

ghost use Rattle.written_site.specs.PointLaws.{ArePointsTheirOwn};
ghost use Rattle.written_site.specs.RowWords.{OfEvents, OfBooks};

/// After every list of events from the opening site of any configuration: each point keeps what its
/// own accepted events, one after another, make of a new point, which refuses none of them. A
/// Terminate, and what its dispenser reports, is answered as the point's table says. So each point
/// of the site keeps and answers what the laws of a fuelling point say for any list of its events:
/// a terminated fuelling stays suspended until hang up or offline, and a fuelling keeps the price
/// and the reading of its start and the volume that flowed since. The same holds for every legal
/// history.
pub fn points_are_their_own()
    ensures events { OfEvents ArePointsTheirOwn }
    ensures books { OfBooks ArePointsTheirOwn }
{}
