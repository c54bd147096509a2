//! What is true of every history that the lock keeps.

ghost use Rattle.counter_desk.specs.KeptHistories.{IsKeptSound};

use written_site::{
    books_held_by_one, cleared_once, clears_are_counted, draws_are_counted,
    legal_histories_are_runs, locked_by_one, volumes_are_conserved, volumes_cleared_are_counted,
};

/// For whatever the lock has between two calls: the history is a run of the written one-thread site
/// with exactly these replies. In it no fuelling point has two tills at once, and no transaction
/// has two lockers at once or two clears. What tills cleared, the volumes cleared by shift and
/// those that tests drew are what the rows tell. Each product's metered volume is the sum of its
/// running, payable, locked, cleared and adjusted volumes.
pub fn kept_histories_are_sound()
    ensures { IsKeptSound }
{
    legal_histories_are_runs();
    books_held_by_one();
    locked_by_one();
    cleared_once();
    clears_are_counted();
    volumes_cleared_are_counted();
    draws_are_counted();
    volumes_are_conserved();
}
