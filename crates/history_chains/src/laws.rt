//! The law of a chain of histories.

ghost use Rattle.history_chains.specs.Chains.{LitresAddUp};

/// Take a chain of histories, each of which begins with the last readings of the one before it.
/// Over all of them a nozzle has metered its last reading less its first one. A replaced meter adds
/// what it read at its end, and the meter that replaced it subtracts what it read at its beginning.
pub fn litres_add_up()
    ensures { LitresAddUp }
{}
