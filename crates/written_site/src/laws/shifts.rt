//! The figures of tills and shifts, by the rows of a history.

ghost use Rattle.written_site.specs.ClearedLaws.{AreVolumesCleared};
ghost use Rattle.written_site.specs.DrawLaws.{AreDrawsCounted};
ghost use Rattle.written_site.specs.RowWords.{OfEvents, OfBooks};
ghost use Rattle.written_site.specs.ShiftLaws.{AreClearsCounted};

/// For every list of events from the opening site of any configuration: the number of sales that a
/// till cleared in a shift, and their cents, are those of its Cleared answers while the shift was
/// open; over all shifts they are those of all its Cleared answers. The same holds for every legal
/// history.
pub fn clears_are_counted()
    ensures events { OfEvents AreClearsCounted }
    ensures books { OfBooks AreClearsCounted }
{}

/// For every list of events from the opening site of any configuration: the millilitres of a
/// product that were cleared in a shift are those that flowed into the transactions that accepted
/// Clears named while the shift was open; over all shifts, into those that all accepted Clears
/// named. The same holds for every legal history.
pub fn volumes_cleared_are_counted()
    ensures events { OfEvents AreVolumesCleared }
    ensures books { OfBooks AreVolumesCleared }
{}

/// For every list of events from the opening site of any configuration, and each product number
/// from 1 to 8: what tests drew of the product in a shift is the sum of the millilitres of the
/// fuellings that a Drawn ended while the shift was open. A fuelling's millilitres are those from
/// its start on, with the Drawn's own growth. Over all shifts it is the sum of all such fuellings.
/// The same holds for every legal history.
pub fn draws_are_counted()
    ensures events { OfEvents AreDrawsCounted }
    ensures books { OfBooks AreDrawsCounted }
{}
