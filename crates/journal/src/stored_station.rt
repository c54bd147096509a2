//! A station with its journal.

ghost use Rattle.std.specs.Prelude.{◌≡◌, ◌==◌, ◌≤◌, ℕ, IfNone, IfOk, IfSome, None, OnErr, OnOk};
ghost use Rattle.std.specs.Prelude.{Bool, Some, false, is_some, length, not, true};
ghost use Rattle.station.specs.declared.sizes.TheConstants.{PEERS};
ghost use Rattle.station.specs.Peers.{peer_at};
ghost use Rattle.station.specs.Gates.{count_at, open_gates};
ghost use Rattle.station.specs.Moves.{end_release, lose, with_end, with_octets, with_taken};
ghost use Rattle.station.specs.Moves.{without_old_rows, without_peer};
ghost use Rattle.station.specs.Reads.{Arrives, ArrivesAt, IsNextOwed, NoneIsOwed, end_at};
ghost use Rattle.station.specs.Reads.{is_read_at};
ghost use Rattle.station.specs.Reads.{node_at, owed_at, speaker_at};
ghost use Rattle.station.specs.Runs.{opening_station};
ghost use Rattle.station.specs.Sessions.{Grants};
ghost use Rattle.std.specs.List.{AllByRecursion};
ghost use Rattle.site_book.specs.Unpaid.{GoesBy, unpaid_sales};
ghost use Rattle.chapters.specs.History.{IsHistory, empty_book};
ghost use Rattle.chapters.specs.RowText.{IsSent};
ghost use Rattle.journal.specs.declared.memory.TheConstants.{LEAST_ROWS};
ghost use Rattle.journal.specs.ChapterEnds.{IsEndOf};
ghost use Rattle.journal.specs.Disks.{OfFile};
ghost use Rattle.journal.specs.Memory.{HasRoomToHear, is_crowded};
ghost use Rattle.journal.specs.Opening.{HasNobodyOn};
ghost use Rattle.journal.specs.Stored.{IsJournalOf, JournalGoesOn, LeavesReadsOut};
ghost use Rattle.journal.specs.Stored.{WritesLines, clock_of, is_all_stored};
ghost use Rattle.journal.specs.Stored.{is_clock_behind, since_of, since_stored};
ghost use Rattle.journal.specs.Stored.{time_of, told_at, with_station};

use crate::disk::{Disk, DiskFault};
use crate::journal::{ChapterEnd, Journal};
use crate::memory::most_in_memory;
use site_base::{FpNo, NoMemory, SiteConfig};
use site_book::{NamedSale, SiteBook, UnpaidSales};
use stamps::Stamp;
use station::{Gates, PeerEnd, Station};
use std::alloc::Global;
use std::marker::Model;
use std::time::Instant;

/// A station, and its journal if it has one. Its moves are the station's own. A peer's pending
/// output is handed out only while each row is stored. Rows in memory are forgotten only after they
/// are stored, and after it was read which transactions among them are unpaid.
#[derive(Drop)]
pub struct StoredStation<D: Disk> {
    alloc: Global,
    station: Station,
    unpaid: UnpaidSales,
    journal: Option<Journal<D>>,
}

impl<D: Disk> Model for StoredStation<D> {
    ghost use Rattle.journal.specs.Stored.{IsStored, StoredState};

    ghost Value = { StoredState };

    ghost view = { λ s. record { station = s.station; unpaid = s.unpaid; journal = s.journal } };

    ghost invariant = { λ s.
        IsStored (record { station = s.station; unpaid = s.unpaid; journal = s.journal }) };
}

impl<D: Disk> StoredStation<D> {
    /// Returns a station on this site without a journal. Its pending output may always be sent.
    pub fn open_without(alloc: Global, config: &SiteConfig) -> Result<StoredStation<D>, NoMemory>
        requires { LEAST_ROWS ≤ config.now.rows }
        ensures station { IfOk result (λ s. s.station
            ≡ opening_station open_gates (empty_book config.now)) }
        ensures off { IfOk result (λ s. HasNobodyOn s.station.book) }
        ensures journal { IfOk result (λ s. s.journal ≡ None) }
    {
        let book = SiteBook::try_open(alloc, config)?;
        Ok(StoredStation {
            alloc,
            station: Station::new(alloc, Gates::new(alloc), book),
            unpaid: UnpaidSales::new(alloc),
            journal: None,
        })
    }

    /// A station without peers at this book, with its journal.
    pub(crate) fn with_journal(
        alloc: Global,
        book: SiteBook,
        unpaid: UnpaidSales,
        journal: Journal<D>,
    ) -> StoredStation<D>
        requires legal { IsHistory book }
        requires sent { AllByRecursion IsSent book.rows }
        requires unpaid { GoesBy unpaid book }
        requires journal { IsJournalOf book.rows journal }
        requires behind { book.forgotten ≤ journal.stored }
        requires enough { LEAST_ROWS ≤ book.config.rows }
        ensures { result ≡ record {
          station = opening_station open_gates book;
          unpaid = unpaid;
          journal = Some journal;
        } }
    {
        StoredStation {
            alloc,
            station: Station::new(alloc, Gates::new(alloc), book),
            unpaid,
            journal: Some(journal),
        }
    }

    /// Are there so many rows in memory that the rows of one more read may fill the book?
    pub fn is_crowded(&self) -> bool
        ensures crowded { result ≡ is_crowded self.now.station.book }
        ensures room { result ≡ false → HasRoomToHear self.now.station.book }
    {
        let most = most_in_memory(self.book().config());
        if self.book().rows_in_memory() < most {
            return false;
        }
        true
    }

    /// Forgets the rows in memory, each of which is stored. Then there is room for the rows of one
    /// read. The site and its unpaid transactions stay. If memory runs out, nothing is forgotten.
    pub fn forget_rows(&mut self) -> Result<(), NoMemory>
        requires { is_all_stored self.old ≡ true }
        ensures forgets { OnOk result (self.new.station ≡ without_old_rows self.old.station) }
        ensures room { OnOk result (HasRoomToHear self.new.station.book) }
        ensures err { OnErr result (self.new.station ≡ self.old.station) }
        ensures journal { self.new.journal ≡ self.old.journal }
    {
        self.station.forget_rows(&mut self.unpaid)
    }

    /// Looks up which transactions of the book are unpaid.
    pub fn read_unpaid(&mut self) -> Result<(), NoMemory>
        ensures station { self.new.station ≡ self.old.station }
        ensures journal { self.new.journal ≡ self.old.journal }
        ensures unpaid { OnOk result (self.new.unpaid.sales ≡ unpaid_sales self.new.station.book) }
    {
        self.unpaid.read(self.alloc, self.station.book())
    }

    /// Returns the transactions that were unpaid at the last `read_unpaid`.
    pub fn unpaid(&self) -> &[NamedSale]
        ensures { result.now ≡ self.now.unpaid.sales }
    {
        self.unpaid.as_slice()
    }

    /// Sets who may send where, as `Station::set_gates` says.
    pub fn set_gates(&mut self, gates: Gates)
        ensures { self.new ≡ with_station (record self.old.station { gates = gates }) self.old }
    {
        self.station.set_gates(gates);
    }

    /// Returns the doors and the house till.
    pub fn gates(&self) -> &Gates
        ensures { result.now ≡ self.now.station.gates }
    {
        self.station.gates()
    }

    /// Returns the book of the station. By the station's type no peer has a key above 1,407, and
    /// the book's configuration allows 1,024 rows or more.
    pub fn book(&self) -> &SiteBook
        ensures book { result.now ≡ self.now.station.book }
        ensures keys { (k : ℕ) → PEERS ≤ k → peer_at self.now.station.peers k ≡ None }
        ensures enough { LEAST_ROWS ≤ self.now.station.book.config.rows }
    {
        self.station.book()
    }

    /// Adds a peer, as `Station::arrive` says.
    pub fn arrive(&mut self) -> Result<Option<usize>, NoMemory>
        ensures ok { IfOk result (λ key. Arrives key self.old.station self.new.station) }
        ensures err { OnErr result (self.new.station ≡ self.old.station) }
        ensures journal { self.new.journal ≡ self.old.journal }
    {
        self.station.arrive()
    }

    /// Adds a peer at a door, as `Station::arrive_at` says.
    pub fn arrive_at(&mut self, door: usize) -> Result<Option<usize>, NoMemory>
        ensures ok { IfOk result (λ key. ArrivesAt door key self.old.station self.new.station) }
        ensures err { OnErr result (self.new.station ≡ self.old.station) }
        ensures journal { self.new.journal ≡ self.old.journal }
    {
        self.station.arrive_at(door)
    }

    /// Returns the node of an active session, as `Station::speaker` says.
    pub fn speaker(&self, key: usize) -> Option<[u8; 2]>
        ensures { result ≡ speaker_at self.now.station key }
    {
        self.station.speaker(key)
    }

    /// Returns the number of active sessions of a node.
    pub fn session_count(&self, node: [u8; 2]) -> usize
        ensures { result ≡ count_at node self.now.station.peers }
    {
        self.station.session_count(node)
    }

    /// Ends the release of a point by the house till, as `Station::end_release` says.
    pub fn end_release(&mut self, p: FpNo)
        ensures station { (on : Bool) × (off : Bool)
            × (self.new.station ≡ end_release on off p self.old.station) }
        ensures journal { self.new.journal ≡ self.old.journal }
    {
        self.station.end_release(p);
    }

    /// Loses the dispenser of a point, as `Station::lose_dispenser` says.
    pub fn lose_dispenser(&mut self, p: FpNo)
        ensures station { (memory : Bool) × (self.new.station ≡ lose memory p self.old.station) }
        ensures journal { self.new.journal ≡ self.old.journal }
    {
        self.station.lose_dispenser(p);
    }

    /// Is the peer of this key read from?
    pub fn is_read(&self, key: usize) -> bool
        ensures { result ≡ is_read_at self.now.station key }
    {
        self.station.is_read(key)
    }

    /// Hears octets of a peer that is read from, as `Station::hear` says.
    pub fn hear(&mut self, key: usize, octets: &[u8])
        ensures station { (memory : Grants)
            × (self.new.station ≡ with_octets memory key octets.now self.old.station) }
        ensures journal { self.new.journal ≡ self.old.journal }
    {
        self.station.hear(key, octets);
    }

    /// Returns the last seal of the history, 64 zeros if it has none; None without a history.
    pub fn last_seal(&self) -> Option<&str>
        ensures seal { IfSome result (λ seal. IfSome self.now.journal
            (λ j. seal.now ≡ j.end.seal)) }
        ensures there { is_some result ≡ is_some self.now.journal }
    {
        match &self.journal {
            None => None,
            Some(journal) => Some(journal.last_seal()),
        }
    }

    /// Returns when the round began that ended with the last seal. None without a history, and if
    /// no round has ended with a seal since the start.
    pub fn sealed_at(&self) -> Option<Instant> {
        match &self.journal {
            None => None,
            Some(journal) => journal.sealed_at(),
        }
    }

    /// Returns the number of closed chapters of the history; None without a history.
    pub fn closed_chapters(&self) -> Option<u64>
        ensures count { IfSome result (λ count. IfSome self.now.journal
            (λ j. OfFile (λ f. count ≡ length f.closed) j.file)) }
        ensures there { is_some result ≡ is_some self.now.journal }
    {
        match &self.journal {
            None => None,
            Some(journal) => Some(journal.closed()),
        }
    }

    /// Returns the last time in the history, if there is one. Once each row is stored, it is that
    /// of the last kept row.
    pub fn last_time(&self) -> Option<Stamp>
        ensures { result ≡ time_of self.now.journal }
    {
        match &self.journal {
            None => None,
            Some(journal) => journal.last_time(),
        }
    }

    /// Returns the time of the first row of the open shift, if there is a history, the shift has a
    /// row, and its time is known.
    pub fn open_since(&self) -> Option<Stamp>
        ensures { result ≡ since_of self.now.journal }
    {
        match &self.journal {
            None => None,
            Some(journal) => journal.open_since(),
        }
    }

    /// Begins a round at this time, if it is known. Returns whether that is before the last time in
    /// the history, which is then used again.
    pub fn begin_round(&mut self, clock: Option<Stamp>, at: Instant) -> bool
        ensures station { self.new.station ≡ self.old.station }
        ensures stored { is_all_stored self.new ≡ is_all_stored self.old }
        ensures clock { IfSome self.new.journal (λ j. j.clock ≡ clock) }
        ensures behind { result ≡ is_clock_behind clock self.old.journal }
        ensures opened { since_of self.new.journal ≡ since_of self.old.journal }
        ensures journal { JournalGoesOn self.old.journal self.new.journal }
    {
        match &mut self.journal {
            None => false,
            Some(journal) => journal.begin_round(clock, at),
        }
    }

    /// Appends a seal after the last row of the journal, if that row isn't sealed, at the day's
    /// end. After an error the journal takes no more.
    pub fn seal(&mut self) -> Result<(), DiskFault>
        ensures station { self.new.station ≡ self.old.station }
        ensures stored { is_all_stored self.new ≡ is_all_stored self.old }
        ensures sealed { OnOk result (IfSome self.new.journal (λ j. j.end.sealed ≡ true)) }
        ensures opened { since_of self.new.journal ≡ since_of self.old.journal }
        ensures journal { JournalGoesOn self.old.journal self.new.journal }
    {
        match &mut self.journal {
            None => Ok(()),
            Some(journal) => journal.seal(),
        }
    }

    /// Stores each row that isn't stored yet. Then pending output may be sent. If storing fails,
    /// nothing may be sent until a later store succeeds; after a failure of the disk none does.
    pub fn store(&mut self) -> Result<(), DiskFault>
        ensures station { self.new.station ≡ self.old.station }
        ensures stored { OnOk result (is_all_stored self.new ≡ true) }
        ensures journal { JournalGoesOn self.old.journal self.new.journal }
        ensures lines { OnOk result
            (WritesLines self.old.station.book.rows self.old.journal self.new.journal) }
        ensures whole { OnOk result (IfSome self.old.journal (λ j. j.failed ≡ false)) }
        ensures clock { clock_of self.new.journal ≡ clock_of self.old.journal }
        ensures opened { OnOk result (since_of self.new.journal
            ≡ since_stored self.old.station.book.rows self.old.journal) }
        ensures quiet { LeavesReadsOut self.old.station.book.rows self.old.journal
            self.new.journal }
    {
        match &mut self.journal {
            None => Ok(()),
            Some(journal) => journal.store(self.station.book()),
        }
    }

    /// Ends the chapter of the journal, if it is over: a shift was closed in it, or it has
    /// 1,000,000 rows. If there can't be a next chapter now, the open one continues, and nothing is
    /// lost by a longer chapter. After an error the journal may take no more.
    pub fn end_chapter_if_over(&mut self) -> Result<ChapterEnd, DiskFault>
        requires { is_all_stored self.old ≡ true }
        ensures station { self.new.station ≡ self.old.station }
        ensures end { IfOk result (λ end.
            IsEndOf end self.old.station.book self.old.journal self.new.journal) }
        ensures opened { since_of self.new.journal ≡ since_of self.old.journal }
        ensures stored { is_all_stored self.new ≡ true }
        ensures journal { JournalGoesOn self.old.journal self.new.journal }
    {
        match &mut self.journal {
            None => Ok(ChapterEnd::NotDue),
            Some(journal) => journal.end_if_over(self.station.book()),
        }
    }

    /// Is each row stored, so that pending output may be sent?
    pub fn is_all_stored(&self) -> bool
        ensures { result ≡ is_all_stored self.now }
    {
        match &self.journal {
            None => true,
            Some(journal) => journal.stored() == self.station.book().len(),
        }
    }

    /// Returns the octets that a peer may be sent now: its pending output, if each row is stored.
    pub fn told_octets(&self, key: usize) -> &[u8]
        ensures { result.now ≡ told_at self.now key }
    {
        if self.is_all_stored() {
            self.station.owed_octets(key)
        } else {
            &[]
        }
    }

    /// Has a peer pending output, whether it may be sent yet or not?
    pub fn is_owed(&self, key: usize) -> bool
        ensures { result ≡ not (length (owed_at self.now.station key) == 0) }
    {
        !self.station.owed_octets(key).is_empty()
    }

    /// Returns the least key, from this one on, whose peer has pending output, as
    /// `Station::next_owed` says.
    pub fn next_owed(&self, from: usize) -> Option<usize>
        ensures found { IfSome result (λ key. IsNextOwed from key self.now.station) }
        ensures none { IfNone result (NoneIsOwed from self.now.station) }
    {
        self.station.next_owed(from)
    }

    /// Notes that a peer has taken this many octets of its pending output.
    pub fn take(&mut self, key: usize, n: usize)
        ensures { self.new ≡ with_station (with_taken key n self.old.station) self.old }
    {
        self.station.take(key, n);
    }

    /// Notes that the octets of a peer have ended, as `Station::finish` says.
    pub fn finish(&mut self, key: usize)
        ensures { self.new ≡ with_station (with_end key self.old.station) self.old }
    {
        self.station.finish(key);
    }

    /// Removes a peer, as `Station::leave` says.
    pub fn leave(&mut self, key: usize)
        ensures { self.new ≡ with_station (without_peer key self.old.station) self.old }
    {
        self.station.leave(key);
    }

    /// Returns how the session of a peer ended. None while it is active, and if there is no such
    /// peer.
    pub fn end(&self, key: usize) -> Option<PeerEnd>
        ensures { result ≡ end_at self.now.station key }
    {
        self.station.end(key)
    }

    /// Returns the originator of a peer's first message.
    pub fn node(&self, key: usize) -> Option<[u8; 2]>
        ensures { result ≡ node_at self.now.station key }
    {
        self.station.node(key)
    }
}
