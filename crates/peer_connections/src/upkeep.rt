//! What a station does by itself as time passes: dispensers that are gone, and releases that
//! nobody used.

use site_base::{FpNo, POINT_CELLS, POINTS, PointSet};
use std::time::Instant;

/// How long a dispenser may be gone, and how old a release may be.
#[derive(Clone, Copy, Debug, PartialEq, Eq)]
pub struct Patience {
    /// The seconds without a session after which a dispenser is lost. With 0 none is lost.
    pub lost_seconds: u64,
    /// The seconds after which a release ends, if there is a house till.
    pub release_seconds: u64,
}

/// Since when the dispensers are gone, and the releases stand, by point.
#[derive(Debug, Drop)]
pub(crate) struct Upkeep {
    patience: Patience,
    gone_since: [Option<Instant>; POINT_CELLS],
    lost: PointSet,
    released_since: [Option<Instant>; POINT_CELLS],
}

impl Upkeep {
    /// Nobody was looked for yet.
    pub(crate) fn new(patience: Patience) -> Upkeep {
        Upkeep {
            patience,
            gone_since: [None; POINT_CELLS],
            lost: PointSet::new(),
            released_since: [None; POINT_CELLS],
        }
    }

    /// Is it looked whether dispensers are lost?
    pub(crate) fn looks_for_lost(&self) -> bool {
        self.patience.lost_seconds > 0
    }

    /// The dispenser of a point is there: if it was lost, it has come back.
    pub(crate) fn note_session(&mut self, p: FpNo) {
        self.gone_since[p.cell()] = None;
        self.lost.remove(p);
    }

    /// It was noted in a row that the dispenser of a point is lost.
    pub(crate) fn note_lost(&mut self, p: FpNo) {
        self.lost.insert(p);
    }

    /// The dispenser of a point has a session, or none: is it lost now, and was that not noted yet?
    pub(crate) fn is_lost(&mut self, p: FpNo, has_session: bool, now: Instant) -> bool {
        if has_session {
            self.note_session(p);
            return false;
        }
        let seconds = self.patience.lost_seconds;
        let is_lost = has_lasted(&mut self.gone_since[p.cell()], seconds, now);
        is_lost && !self.lost.contains(p)
    }

    /// These points were released now: what stood there before is no more.
    pub(crate) fn note_releases(&mut self, released: PointSet, now: Instant) {
        if released.first().is_none() {
            return;
        }
        for number in 1..=POINTS {
            if let Some(p) = FpNo::new(number) {
                if released.contains(p) {
                    self.released_since[p.cell()] = Some(now);
                }
            }
        }
    }

    /// A point is released, or isn't: has the release stood for too long?
    pub(crate) fn is_stale(&mut self, p: FpNo, is_released: bool, now: Instant) -> bool {
        if !is_released {
            self.released_since[p.cell()] = None;
        }
        let seconds = self.patience.release_seconds;
        is_released && has_lasted(&mut self.released_since[p.cell()], seconds, now)
    }
}

/// Has it been so for so many seconds? It is so at least since now.
fn has_lasted(since: &mut Option<Instant>, seconds: u64, now: Instant) -> bool {
    match *since {
        None => {
            *since = Some(now);
            false
        }
        Some(at) => now.duration_since(at).as_secs() >= seconds,
    }
}
