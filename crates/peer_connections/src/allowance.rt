//! How much of a session may be read.

ghost use Rattle.std.specs.Prelude.{◌≤◌};

use std::time::Instant;

/// The shortest request has so many octets: of a session that may make N rows a second, N times as
/// many are read in a second.
const OCTETS_A_ROW: u64 = 10;

/// Parts of an octet: a rate of one octet a second saves up one in a microsecond.
const PARTS: u64 = 1_000_000;

/// What may be read of a session: what isn't read is saved up for a second. A new session has saved
/// up nothing.
#[derive(Clone, Copy, Debug)]
pub(crate) struct Allowance {
    /// So many octets are saved up in a second; 0: all may be read.
    octets_a_second: u64,
    /// In parts of an octet.
    saved: u64,
    /// When it was added to last.
    filled_at: Instant,
}

impl Allowance {
    /// What may be read of a session that begins now, and makes so many rows a second at most; 0 is
    /// no limit.
    pub(crate) fn new(rows_a_second: u64, now: Instant) -> Allowance {
        let octets_a_second = rows_a_second.saturating_mul(OCTETS_A_ROW);
        Allowance {
            octets_a_second,
            saved: 0,
            filled_at: now,
        }
    }

    /// How many octets may be read now, of so many that are wanted.
    pub(crate) fn grant(&mut self, wanted: usize, now: Instant) -> usize
        ensures { result ≤ wanted }
    {
        if self.octets_a_second == 0 {
            return wanted;
        }
        if self.saved_octets() < wanted as u64 {
            self.fill(now);
        }
        let saved = self.saved_octets();
        if saved < wanted as u64 {
            saved as usize
        } else {
            wanted
        }
    }

    /// So many octets were read.
    pub(crate) fn spend(&mut self, octets: usize) {
        self.saved = self
            .saved
            .saturating_sub((octets as u64).saturating_mul(PARTS));
    }

    fn saved_octets(&self) -> u64 {
        self.saved / PARTS
    }

    /// What has passed since it was added to last is saved up, a second's octets at most.
    fn fill(&mut self, now: Instant) {
        let passed = now.duration_since(self.filled_at);
        let microseconds = if passed.as_secs() > 0 {
            PARTS
        } else {
            u64::from(passed.subsec_micros())
        };
        let most = self.octets_a_second.saturating_mul(PARTS);
        let saved = self
            .saved
            .saturating_add(self.octets_a_second.saturating_mul(microseconds));
        self.saved = if saved < most { saved } else { most };
        self.filled_at = now;
    }
}
