//! The limits of a script, each written once.

/// The most sections of a script.
pub const SECTIONS: usize = 15;

/// The most looks of a dispenser at its point while it waits for a state.
pub const GREATEST_POLLS: u32 = 1_000_000;

/// The most millilitres that a line may ask a dispenser to pump.
pub const GREATEST_PUMPED: u32 = 1_000_000;
