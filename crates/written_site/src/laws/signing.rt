//! Who is signed on, and which shift is open, by the rows of a history.

ghost use Rattle.written_site.specs.RowWords.{OfEvents, OfBooks};
ghost use Rattle.written_site.specs.SigningLaws.{AreSignedOnByRows, IsShiftByRows};

/// After every list of events from the opening site of any configuration exactly those tills are
/// signed on whose last accepted SignOn isn't followed by an accepted SignOff of theirs. The same
/// holds for the rows of every legal history.
pub fn signed_on_by_rows()
    ensures events { OfEvents AreSignedOnByRows }
    ensures books { OfBooks AreSignedOnByRows }
{}

/// After every such list of events the number of the open shift is one more than the number of
/// accepted CloseShifts. The same holds for the rows of every legal history.
pub fn shift_by_rows()
    ensures events { OfEvents IsShiftByRows }
    ensures books { OfBooks IsShiftByRows }
{}
