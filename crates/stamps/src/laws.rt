//! The law of times.

ghost use Rattle.stamps.specs.Laws.{TimesNeverFall};

/// Times never fall, whatever lines are read: the time after them is the last one, or a later one.
pub fn times_never_fall()
    ensures { TimesNeverFall }
{}
