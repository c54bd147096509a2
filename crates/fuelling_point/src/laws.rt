//! What holds whatever events a new point has had, refused ones included. These laws have no code:
//! each is proved for the definitions that the contracts of `Point` cite.

ghost use Rattle.fuelling_point.specs.Laws.{StaysWhole, IsConserved, IsSoldAtEnd, StaysSuspended};
ghost use Rattle.fuelling_point.specs.Laws.{IsKeptFromStart, IsSoldAsStarted, IsTheLifted};
ghost use Rattle.fuelling_point.specs.Laws.{IsNeverNothing, AreTestsDrawn};

/// A new point is whole, and an event, accepted or refused, leaves a whole point whole: a nozzle is
/// kept exactly while one is out, fuel has flowed exactly if the state says so, only a suspended
/// fuelling is ending, and without a release or a fuelling nothing is kept of one.
pub fn stays_whole()
    ensures { StaysWhole }
{}

/// At a whole point, the volume of the fuelling before an accepted event, plus the event's growth,
/// is the volume of the fuelling after it, plus that of the sale or draw in its answer. A hang up
/// in calling has no growth.
pub fn volume_is_conserved()
    ensures { IsConserved }
{}

/// Only a hang up or an offline is answered with a sale or a draw.
pub fn sold_at_the_end()
    ensures { IsSoldAtEnd }
{}

/// A terminated fuelling leaves its suspended state only by a hang up or an offline.
pub fn terminated_stays_suspended()
    ensures { StaysSuspended }
{}

/// A fuelling in progress keeps the price and the reading with which it was started, and its volume
/// is the sum of the growths since then.
pub fn kept_from_the_start()
    ensures { IsKeptFromStart }
{}

/// A sale has the price with which its fuelling was started, and its volume is the sum of the
/// growths since then, its own event's included. The volume of a draw is too.
pub fn sold_as_started()
    ensures { IsSoldAsStarted }
{}

/// The nozzle that is out, and that of a sale or a draw, is the one that was lifted and hasn't been
/// put back since.
pub fn sold_by_the_lifted_nozzle()
    ensures { IsTheLifted }
{}

/// A sale has at least one millilitre. So does a draw.
pub fn nothing_is_never_sold()
    ensures { IsNeverNothing }
{}

/// A point is a test exactly from its test release until the fuelling ends or the release is taken
/// back. It has neither preset nor prepayment. A test is never sold, and only a test is drawn.
pub fn tests_are_drawn()
    ensures { AreTestsDrawn }
{}
