//! The station's own rows: of dispensers that are gone, and of releases that nobody used.

ghost use Rattle.std.specs.Prelude.{◌≡◌, OnOk};
ghost use Rattle.journal.specs.Memory.{HasRoomToHear};
ghost use Rattle.peer_connections.specs.Allowed.{IsOwn};
ghost use Rattle.peer_connections.specs.Reaches.{ReachesBy};
ghost use Rattle.peer_connections.specs.Sending.{KeepsChanges};

use crate::connections::Connections;
use crate::nodes::point_of;
use crate::peer_stream::PeerSocket;
use crate::row_room::make_room;
use device_map::dispenser;
use journal::{Disk, DiskFault};
use site_base::{FpNo, POINTS, PointState};
use std::time::Instant;

impl<D: Disk, S: PeerSocket> Connections<D, S> {
    /// If a peer that was heard is a dispenser, it is there.
    pub(crate) fn note_dispenser(&mut self, key: usize)
        ensures stored { self.new.stored ≡ self.old.stored }
        ensures links { self.new.links ≡ self.old.links }
        ensures changes { self.new.changes ≡ self.old.changes }
        ensures due { self.new.due ≡ self.old.due }
    {
        if !self.upkeep.looks_for_lost() {
            return;
        }
        if let Some(node) = self.stored.node(key) {
            if let Some(p) = point_of(node) {
                self.upkeep.note_session(p);
            }
        }
    }

    /// Does the station do anything by itself as time passes?
    pub fn keeps_up(&self) -> bool {
        self.upkeep.looks_for_lost() || self.stored.gates().house().is_some()
    }

    /// Dispensers that are gone for too long are lost, and releases that stand for too long end.
    /// Their rows are still to be looked at.
    #[tactic(auto, using(crate::proofs::Reaching::done_alone, crate::proofs::Seeing::kept))]
    pub(crate) fn keep_up(&mut self, now: Instant) -> Result<(), DiskFault>
        ensures moves { ReachesBy IsOwn self.old.stored self.new.stored }
        ensures links { self.new.links ≡ self.old.links }
        ensures due { self.new.due ≡ self.old.due }
        ensures noted { KeepsChanges self.old.changes self.new.changes
            self.new.stored.station.book }
    {
        if !self.keeps_up() {
            return Ok(());
        }
        self.make_own_room()?;
        for number in 1..=POINTS {
            self.look_at_point(number, now);
        }
        Ok(())
    }

    /// Ends each release of the day before, at a start, if there is a house till.
    #[tactic(auto, using(crate::proofs::Reaching::done_alone, crate::proofs::Seeing::kept))]
    pub fn end_releases(&mut self) -> Result<(), DiskFault>
        ensures moves { ReachesBy IsOwn self.old.stored self.new.stored }
        ensures links { self.new.links ≡ self.old.links }
        ensures due { self.new.due ≡ self.old.due }
        ensures noted { KeepsChanges self.old.changes self.new.changes
            self.new.stored.station.book }
    {
        self.make_own_room()?;
        for number in 1..=POINTS {
            self.end_release_of(number);
        }
        Ok(())
    }

    /// The release of the point of this number ends, if it stands.
    #[tactic(auto, using(crate::proofs::Reaching::done_alone))]
    fn end_release_of(&mut self, number: u8)
        ensures moves { ReachesBy IsOwn self.old.stored self.new.stored }
        ensures links { self.new.links ≡ self.old.links }
        ensures due { self.new.due ≡ self.old.due }
        ensures changes { self.new.changes ≡ self.old.changes }
    {
        if let Some(p) = FpNo::new(number) {
            self.end_release(p);
        }
    }

    /// Makes room for the rows of the station's own. The rows so far are looked at before they are
    /// forgotten.
    #[tactic(auto, using(crate::proofs::Reaching::done_alone, crate::proofs::Pairing::paired))]
    fn make_own_room(&mut self) -> Result<(), DiskFault>
        ensures moves { ReachesBy IsOwn self.old.stored self.new.stored }
        ensures room { OnOk result (HasRoomToHear self.new.stored.station.book) }
        ensures links { self.new.links ≡ self.old.links }
        ensures due { self.new.due ≡ self.old.due }
        ensures noted { KeepsChanges self.old.changes self.new.changes
            self.new.stored.station.book }
    {
        make_room(&mut self.stored, &mut self.changes)
    }

    /// Is the dispenser of the point of this number lost, and has its release stood for too long?
    #[tactic(auto, using(crate::proofs::Reaching::done_alone))]
    fn look_at_point(&mut self, number: u8, now: Instant)
        ensures moves { ReachesBy IsOwn self.old.stored self.new.stored }
        ensures links { self.new.links ≡ self.old.links }
        ensures due { self.new.due ≡ self.old.due }
        ensures changes { self.new.changes ≡ self.old.changes }
    {
        let Some(p) = FpNo::new(number) else {
            return;
        };
        let Some(view) = self.stored.book().point(p) else {
            return;
        };
        let is_released = view.state == PointState::Authorised;
        self.look_at_release(p, is_released, now);
        self.look_at_dispenser(p, now);
    }

    /// Has the release of a point, if there is one, stood for too long? Other than for peers, the
    /// time counts in which the station was stopped.
    #[tactic(auto, using(crate::proofs::Reaching::done_alone))]
    fn look_at_release(&mut self, p: FpNo, is_released: bool, now: Instant)
        ensures moves { ReachesBy IsOwn self.old.stored self.new.stored }
        ensures links { self.new.links ≡ self.old.links }
        ensures due { self.new.due ≡ self.old.due }
        ensures changes { self.new.changes ≡ self.old.changes }
    {
        let at = self.round_at.unwrap_or(now);
        if self.upkeep.is_stale(p, is_released, at) {
            self.end_release(p);
        }
    }

    /// Is the dispenser of a point lost? Where no row of that can be made, it is tried again.
    #[tactic(auto, using(crate::proofs::Reaching::done_alone))]
    fn look_at_dispenser(&mut self, p: FpNo, now: Instant)
        ensures moves { ReachesBy IsOwn self.old.stored self.new.stored }
        ensures links { self.new.links ≡ self.old.links }
        ensures due { self.new.due ≡ self.old.due }
        ensures changes { self.new.changes ≡ self.old.changes }
    {
        if !self.upkeep.looks_for_lost() {
            return;
        }
        let has_session = self.stored.session_count(dispenser(p)) > 0;
        if self.upkeep.is_lost(p, has_session, now) && self.lose_dispenser(p) {
            self.upkeep.note_lost(p);
        }
    }

    /// The house till ends the release of a point.
    fn end_release(&mut self, p: FpNo)
        ensures moves { ReachesBy IsOwn self.old.stored self.new.stored }
        ensures links { self.new.links ≡ self.old.links }
        ensures due { self.new.due ≡ self.old.due }
        ensures changes { self.new.changes ≡ self.old.changes }
    {
        self.stored.end_release(p);
    }

    /// The dispenser of a point is lost: was a row of that made?
    fn lose_dispenser(&mut self, p: FpNo) -> bool
        ensures moves { ReachesBy IsOwn self.old.stored self.new.stored }
        ensures links { self.new.links ≡ self.old.links }
        ensures due { self.new.due ≡ self.old.due }
        ensures changes { self.new.changes ≡ self.old.changes }
    {
        let rows = self.stored.book().len();
        self.stored.lose_dispenser(p);
        self.stored.book().len() > rows
    }
}
