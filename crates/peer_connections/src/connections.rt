//! The connections of all peers, and the station with which they speak.

ghost use Rattle.std.specs.Prelude.{◌≡◌, ℕ, false, length, IfOk, IfSome, None, OnErr, OnOk, Some};
ghost use Rattle.std.specs.Prelude.{is_some, option_copied, true};
ghost use Rattle.chapters.specs.RowText.{kept_behind};
ghost use Rattle.site_book.specs.Unpaid.{unpaid_sales};
ghost use Rattle.station.specs.declared.sizes.TheConstants.{HEARD_OCTETS};
ghost use Rattle.station.specs.Runs.{opening_station};
ghost use Rattle.journal.specs.Disks.{OfFile};
ghost use Rattle.journal.specs.Stored.{JournalGoesOn, is_all_stored, since_of, time_of};
ghost use Rattle.peer_connections.specs.Fed.{AreRead};
ghost use Rattle.peer_connections.specs.Links.{ArePaired, has_link};
ghost use Rattle.peer_connections.specs.Sending.{HasSeen, KeepsChanges};
ghost use Rattle.peer_connections.specs.Tallied.{AreTallied};

use crate::change_watch::ChangeWatch;
use crate::due_list::DueList;
use crate::fed_rows::FedRows;
use crate::link::Link;
use crate::peer_stream::PeerSocket;
use crate::shift_warning::warn_of_last_shifts;
use crate::upkeep::{Patience, Upkeep};
use journal::{ChapterEnd, Disk, DiskFault, StoredStation};
use row_tally::RowTally;
use site_base::NoMemory;
use site_book::{NamedSale, SiteBook};
use stamps::Stamp;
use station::{HEARD_OCTETS, PEERS};
use std::alloc::Global;
use std::time::Instant;

/// The connections by their peers' keys, over sockets of this type, and the station with its
/// journal. Each connection has a peer in the station, and each peer in the station has a
/// connection.
#[derive(Drop)]
pub struct Connections<D: Disk, S: PeerSocket> {
    pub(crate) stored: StoredStation<D>,
    pub(crate) links: Vec<Option<Link<S>>>,
    pub(crate) piece: Vec<u8>,
    /// Those that are sent what they are owed at the end of this round.
    pub(crate) due: DueList,
    /// Whether a dispenser is told of a row, and those that are owed octets aren't sent them yet.
    pub(crate) changes: ChangeWatch,
    /// A peer may be waited for that is left if it takes too long: for its first message, until it
    /// takes something, until it hangs up.
    pub(crate) may_wait: bool,
    /// A session makes so many rows a second at most; 0: as many as it likes.
    pub(crate) rows_a_second: u64,
    /// When a session that is held back is read on next; None if there is none.
    pub(crate) read_on_at: Option<Instant>,
    /// It is looked for from this key on, so that each has its turn.
    pub(crate) read_on_from: usize,
    /// Since when dispensers are gone, and releases stand.
    pub(crate) upkeep: Upkeep,
    /// The time of the round, where the clock told it.
    pub(crate) round_time: Option<Stamp>,
    /// When the round began, by the clock that goes on while the station is stopped.
    pub(crate) round_at: Option<Instant>,
    /// That the history's chapter goes on, since there can't be a next one, was said.
    has_told_refused: bool,
    /// That the clock went back was said.
    has_told_clock: bool,
    ghost size: { length piece.items ≡ HEARD_OCTETS },
    ghost paired: { ArePaired links.items stored.station.peers },
    ghost seen: { HasSeen changes.rows_seen stored.station.book },
    ghost fed: { HasSeen changes.rows_fed stored.station.book },
}

impl<D: Disk, S: PeerSocket> Connections<D, S> {
    /// Returns no connections to this station, which has no peers. A session may make at most
    /// `rows_a_second` rows a second; 0 means any number.
    #[tactic(auto, using(crate::proofs::Pairing::paired_open))]
    pub fn new(
        alloc: Global,
        stored: StoredStation<D>,
        rows_a_second: u64,
        patience: Patience,
    ) -> Result<Connections<D, S>, NoMemory>
        requires alone { stored.station
            ≡ opening_station stored.station.gates stored.station.book }
        ensures stored { IfOk result (λ c. c.stored ≡ stored) }
        ensures read { IfOk result (λ c. c.changes.rows_fed ≡ length stored.station.book.rows) }
        ensures fed { IfOk result (λ c. c.changes.fed ≡ None) }
        ensures tally { IfOk result (λ c. c.changes.tally ≡ None) }
    {
        let changes = ChangeWatch::new(stored.book(), stored.gates().house().is_some());
        Ok(Connections {
            stored,
            links: no_links(alloc)?,
            piece: Vec::from_elem(alloc, 0, HEARD_OCTETS)?,
            due: DueList::new(alloc)?,
            changes,
            may_wait: false,
            rows_a_second,
            read_on_at: None,
            read_on_from: 0,
            upkeep: Upkeep::new(patience),
            round_time: None,
            round_at: None,
            has_told_refused: false,
            has_told_clock: false,
        })
    }

    /// Closes the connections that are left, and drops the station.
    pub fn close(self) {}

    /// Returns the station's book if each of its rows is stored. Otherwise nobody may see the book.
    pub fn stored_book(&self) -> Option<&SiteBook>
        ensures there { is_some result ≡ is_all_stored self.now.stored }
        ensures book { IfSome result (λ book. book.now ≡ self.now.stored.station.book) }
    {
        if self.stored.is_all_stored() {
            Some(self.stored.book())
        } else {
            None
        }
    }

    /// Begins a feed. Its peers are sent these rows, those of the station's history so far, and
    /// each row that is stored from now on.
    #[tactic(auto, using(crate::proofs::Pairing::paired))]
    pub fn begin_feed(&mut self, fed: FedRows)
        ensures fed { self.new.changes.fed ≡ Some fed }
        ensures read { self.new.changes.rows_fed ≡ self.old.changes.rows_fed }
        ensures tally { self.new.changes.tally ≡ self.old.changes.tally }
        ensures stored { self.new.stored ≡ self.old.stored }
        ensures links { self.new.links ≡ self.old.links }
        ensures due { self.new.due ≡ self.old.due }
    {
        self.changes.begin_feed(fed);
    }

    /// Returns the rows that the feed's peers are sent, if there is a feed.
    pub fn fed_rows(&self) -> Option<&FedRows>
        ensures { option_copied result ≡ self.now.changes.fed }
    {
        self.changes.fed()
    }

    /// Begins a tally of these rows, those of the station's history so far, and of each row that is
    /// stored from now on.
    #[tactic(auto, using(crate::proofs::Pairing::paired))]
    pub fn begin_tally(&mut self, tally: RowTally)
        ensures tally { self.new.changes.tally ≡ Some tally }
        ensures read { self.new.changes.rows_fed ≡ self.old.changes.rows_fed }
        ensures fed { self.new.changes.fed ≡ self.old.changes.fed }
        ensures stored { self.new.stored ≡ self.old.stored }
        ensures links { self.new.links ≡ self.old.links }
        ensures due { self.new.due ≡ self.old.due }
    {
        self.changes.begin_tally(tally);
    }

    /// Returns the tally of the stored rows, if there is one.
    pub fn tally(&self) -> Option<&RowTally>
        ensures { option_copied result ≡ self.now.changes.tally }
    {
        self.changes.tally()
    }

    /// Looks up which transactions of the station are unpaid.
    #[tactic(auto, using(crate::proofs::Pairing::paired))]
    pub fn read_unpaid(&mut self) -> Result<(), NoMemory>
        ensures station { self.new.stored.station ≡ self.old.stored.station }
        ensures journal { self.new.stored.journal ≡ self.old.stored.journal }
        ensures links { self.new.links ≡ self.old.links }
        ensures changes { self.new.changes ≡ self.old.changes }
        ensures due { self.new.due ≡ self.old.due }
        ensures unpaid { OnOk result (self.new.stored.unpaid.sales
            ≡ unpaid_sales self.new.stored.station.book) }
    {
        self.stored.read_unpaid()
    }

    /// Returns the transactions that were unpaid at the last `read_unpaid`.
    pub fn unpaid(&self) -> &[NamedSale]
        ensures { result.now ≡ self.now.stored.unpaid.sales }
    {
        self.stored.unpaid()
    }

    /// Returns the number of connections.
    pub fn count(&self) -> usize {
        self.links.iter().filter(|link| link.is_some()).count()
    }

    /// Returns the time of the open shift's first row, as `StoredStation::open_since` says.
    pub fn open_since(&self) -> Option<Stamp>
        ensures { result ≡ since_of self.now.stored.journal }
    {
        self.stored.open_since()
    }

    /// Returns the last seal of the history, as `StoredStation::last_seal` says.
    pub fn last_seal(&self) -> Option<&str>
        ensures seal { IfSome result (λ seal. IfSome self.now.stored.journal
            (λ j. seal.now ≡ j.end.seal)) }
        ensures there { is_some result ≡ is_some self.now.stored.journal }
    {
        self.stored.last_seal()
    }

    /// Returns when the round began that ended with the last seal, as `StoredStation::sealed_at`
    /// says.
    pub fn sealed_at(&self) -> Option<Instant> {
        self.stored.sealed_at()
    }

    /// Returns the number of closed chapters of the history, as `StoredStation::closed_chapters`
    /// says.
    pub fn closed_chapters(&self) -> Option<u64>
        ensures count { IfSome result (λ count. IfSome self.now.stored.journal
            (λ j. OfFile (λ f. count ≡ length f.closed) j.file)) }
        ensures there { is_some result ≡ is_some self.now.stored.journal }
    {
        self.stored.closed_chapters()
    }

    /// Stores each row that isn't stored yet. Then pending output may be sent.
    #[tactic(auto, using(crate::proofs::Reaching::moved, crate::proofs::Pairing::paired, crate::proofs::Seeing::kept))]
    pub fn store(&mut self) -> Result<(), DiskFault>
        ensures journal { JournalGoesOn self.old.stored.journal self.new.stored.journal }
        ensures station { self.new.stored.station ≡ self.old.stored.station }
        ensures stored { OnOk result (is_all_stored self.new.stored ≡ true) }
        ensures fed { OnOk result (AreRead (time_of self.new.stored.journal)
            (kept_behind self.old.changes.rows_fed self.new.stored.station.book.rows)
            self.old.changes.fed self.new.changes.fed) }
        ensures tally { OnOk result (AreTallied (time_of self.new.stored.journal)
            (kept_behind self.old.changes.rows_fed self.new.stored.station.book.rows)
            self.old.changes.tally self.new.changes.tally) }
        ensures count { OnOk result
            (self.new.changes.rows_fed ≡ length self.new.stored.station.book.rows) }
        ensures unfed { OnErr result (self.new.changes ≡ self.old.changes) }
        ensures noted { KeepsChanges self.old.changes self.new.changes
            self.new.stored.station.book }
        ensures links { self.new.links ≡ self.old.links }
        ensures due { self.new.due ≡ self.old.due }
    {
        self.stored.store()?;
        self.changes.read_stored(&self.stored);
        Ok(())
    }

    /// Stores each row that isn't stored yet. Then the history's chapter ends, if it is over.
    #[tactic(auto, using(crate::proofs::Reaching::moved, crate::proofs::Seeing::kept))]
    pub(crate) fn store_and_end<E: Eprint>(&mut self, rt: &E) -> Result<(), DiskFault>
        ensures journal { JournalGoesOn self.old.stored.journal self.new.stored.journal }
        ensures station { self.new.stored.station ≡ self.old.stored.station }
        ensures stored { OnOk result (is_all_stored self.new.stored ≡ true) }
        ensures noted { KeepsChanges self.old.changes self.new.changes
            self.new.stored.station.book }
        ensures links { self.new.links ≡ self.old.links }
        ensures due { self.new.due ≡ self.old.due }
    {
        self.store()?;
        self.end_chapter(rt)
    }

    /// Each row is stored: the history's chapter ends, if it is over. Where there can't be a next
    /// one now it goes on, which is said once.
    #[tactic(auto, using(crate::proofs::Pairing::paired, crate::proofs::Seeing::kept))]
    fn end_chapter<E: Eprint>(&mut self, rt: &E) -> Result<(), DiskFault>
        requires { is_all_stored self.old.stored ≡ true }
        ensures station { self.new.stored.station ≡ self.old.stored.station }
        ensures journal { JournalGoesOn self.old.stored.journal self.new.stored.journal }
        ensures stored { is_all_stored self.new.stored ≡ true }
        ensures noted { KeepsChanges self.old.changes self.new.changes
            self.new.stored.station.book }
        ensures links { self.new.links ≡ self.old.links }
        ensures due { self.new.due ≡ self.old.due }
    {
        match self.stored.end_chapter_if_over()? {
            ChapterEnd::NotDue => return Ok(()),
            ChapterEnd::Ended => {
                self.has_told_refused = false;
                self.changes.begin_chapter();
            }
            ChapterEnd::Refused => {
                if self.has_told_refused {
                    return Ok(());
                }
                self.has_told_refused = true;
                let _ = eprintln!(rt;
                    "no new chapter can be made: the open one goes on; see that its disk has room, \
                     that this user may write to its folder, and that nothing there has the next \
                     chapter's name"
                );
            }
        }
        warn_of_last_shifts(rt, self.stored.book().open_shift());
        Ok(())
    }

    /// Begins a round at this time, if it is known. If the clock has gone back, rows get the
    /// history's last time until the clock is ahead of it again. That is reported once.
    #[tactic(auto, using(crate::proofs::Reaching::moved, crate::proofs::Pairing::paired))]
    pub fn begin_round<E: Eprint>(&mut self, rt: &E, clock: Option<Stamp>, now: Instant)
        ensures journal { JournalGoesOn self.old.stored.journal self.new.stored.journal }
        ensures station { self.new.stored.station ≡ self.old.stored.station }
        ensures stored { is_all_stored self.new.stored ≡ is_all_stored self.old.stored }
        ensures clock { IfSome self.new.stored.journal (λ j. j.clock ≡ clock) }
        ensures links { self.new.links ≡ self.old.links }
        ensures changes { self.new.changes ≡ self.old.changes }
        ensures due { self.new.due ≡ self.old.due }
    {
        self.note_round(&clock, now);
        let is_behind = self.stored.begin_round(clock, now);
        if is_behind && !self.has_told_clock {
            self.has_told_clock = true;
            let _ = eprintln!(rt;
                "the clock is behind the history: rows have its last time until it is ahead"
            );
        }
    }

    /// The round's time, and when it began.
    fn note_round(&mut self, clock: &Option<Stamp>, now: Instant)
        ensures stored { self.new.stored ≡ self.old.stored }
        ensures links { self.new.links ≡ self.old.links }
        ensures changes { self.new.changes ≡ self.old.changes }
        ensures due { self.new.due ≡ self.old.due }
    {
        self.round_time = *clock;
        self.round_at = Some(now);
    }

    /// May there be a peer that is dropped if it takes too long? It has brought no message, is no
    /// longer read because it takes nothing, or has a session that has ended.
    pub fn may_wait(&self) -> bool {
        self.may_wait
    }
}

/// Nobody has a connection yet.
#[tactic(auto, using(crate::proofs::Pairing::no_link_behind))]
fn no_links<L: Drop>(alloc: Global) -> Result<Vec<Option<L>>, NoMemory>
    ensures { IfOk result (λ links. (k : ℕ) → has_link links.items k ≡ false) }
{
    let mut links = Vec::with_capacity(alloc, PEERS)?;
    for _ in 0..PEERS {
        links.push(None)?;
    }
    Ok(links)
}
