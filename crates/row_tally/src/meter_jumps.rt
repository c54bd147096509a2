//! The jumps of a nozzle's readings when its meter is replaced.

ghost use Rattle.std.specs.Prelude.{◌≡◌};
ghost use Rattle.row_tally.specs.Jumps.{no_jumps, with_jump};

use site_base::Millilitres;

/// How often a nozzle's meter was replaced, and how far its readings jumped then. Each sum is in
/// millilitres, and is counted up to 2^64 - 1.
#[derive(Clone, Copy, Debug, PartialEq, Eq)]
pub struct MeterJumps {
    /// How often.
    pub replaced: u64,
    /// By how much new meters began above the last readings of the old ones.
    pub raised: u64,
    /// By how much they began below it.
    pub lowered: u64,
}

impl MeterJumps {
    /// No meter was replaced.
    pub(crate) const NONE: MeterJumps = MeterJumps {
        replaced: 0,
        raised: 0,
        lowered: 0,
    };

    /// These and one more: of a meter that read so much before, and begins with this.
    pub(crate) fn with(&self, before: Millilitres, begun: Millilitres) -> MeterJumps
        ensures { result ≡ with_jump before begun self.now }
    {
        MeterJumps {
            replaced: self.replaced.saturating_add(1),
            raised: self
                .raised
                .saturating_add(begun.get().saturating_sub(before.get())),
            lowered: self
                .lowered
                .saturating_add(before.get().saturating_sub(begun.get())),
        }
    }
}
