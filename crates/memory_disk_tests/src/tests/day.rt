//! The day on a disk: a round for each message, until the disk fails.

use super::crash::Crash;
use super::expected::has_row;
use super::message::{Message, read_messages};
use super::starts::start;
use forecourt_engines::known_site;
use journal::StoredStation;
use memory_disk::{LentDisk, MemoryDisk};
use site_base::{NoMemory, SiteConfig};
use stamps::Stamp;
use std::alloc::Global;
use std::process::Abort;
use std::time::Instant;

/// The calls before the append of the tenth row, which clears the sale: a read and a renewal by the
/// start, and an append and a flush for each row above it.
pub const CLEAR_CALLS: u64 = 2 + 2 * 9;

/// The calls before the append of the eleventh row, which closes the shift.
pub const CLOSE_CALLS: u64 = 2 + 2 * 10;

/// The calls before the one that begins the next chapter, after that row.
pub const BEGIN_CALLS: u64 = 2 + 2 * 11;

/// A day: its site, its messages, how many of them a round has, and when each round begins. If that
/// is known, only the first round ends with a seal, and otherwise each does.
#[derive(Drop)]
pub struct Day {
    pub config: SiteConfig,
    pub messages: Vec<Message>,
    pub in_round: usize,
    pub begin: Option<Instant>,
}

/// How far a day came, in kept rows.
#[derive(Clone, Copy, Debug, PartialEq, Eq)]
pub struct Reached {
    /// The rows up to the last message whose reply was sent.
    pub sent: u64,
    /// The rows up to the last message that was heard.
    pub heard: u64,
}

/// What a day left.
#[derive(Drop)]
pub struct Remains {
    pub disk: MemoryDisk,
    pub reached: Reached,
    /// Was a call cut?
    pub is_cut: bool,
}

/// A station on a borrowed disk.
type Lent<'a> = StoredStation<LentDisk<'a>>;

impl Day {
    /// The day with this number of messages in a round, whose rounds begin at this time.
    pub fn read(
        rt: &impl Abort,
        alloc: Global,
        in_round: usize,
        begin: Option<Instant>,
    ) -> Result<Day, NoMemory> {
        Ok(Day {
            config: known_site(alloc)?,
            messages: read_messages(rt, alloc)?,
            in_round,
            begin,
        })
    }

    /// Runs the day on a new disk, which is cut after this number of calls.
    pub fn cut(
        &self,
        rt: &impl Abort,
        alloc: Global,
        calls: u64,
        crash: &Crash,
    ) -> Result<Remains, NoMemory> {
        let mut disk = MemoryDisk::new(alloc);
        disk.cut_at(crash.at(calls));
        let reached = self.live(rt, alloc, &mut disk)?;
        let is_cut = disk.is_cut();
        Ok(Remains {
            disk: crash.leave(disk),
            reached,
            is_cut,
        })
    }

    /// Runs the day on this disk.
    fn live(
        &self,
        rt: &impl Abort,
        alloc: Global,
        disk: &mut MemoryDisk,
    ) -> Result<Reached, NoMemory> {
        let mut reached = Reached { sent: 0, heard: 0 };
        if let Some(opened) = start(rt, alloc, &self.config, disk)? {
            let mut station = opened.station;
            welcome(rt, &mut station)?;
            self.hear_all(rt, alloc, &mut station, &mut reached)?;
        }
        Ok(reached)
    }

    /// Runs the rounds, until the disk fails.
    fn hear_all(
        &self,
        rt: &impl Abort,
        alloc: Global,
        station: &mut Lent<'_>,
        reached: &mut Reached,
    ) -> Result<(), NoMemory> {
        assert!(rt; self.in_round > 0, "no message in a round");
        for round in self.messages.chunks(self.in_round) {
            self.begin_round(alloc, station, reached.heard)?;
            hear_round(rt, alloc, station, round, reached)?;
            if !send_round(rt, station, round) {
                break;
            }
            reached.sent = reached.heard;
            if !end_chapter(rt, station) {
                break;
            }
        }
        Ok(())
    }

    /// A round begins, this number of seconds after the opening.
    fn begin_round(
        &self,
        alloc: Global,
        station: &mut Lent<'_>,
        seconds: u64,
    ) -> Result<(), NoMemory> {
        if let Some(begin) = self.begin {
            let _is_behind = station.begin_round(time_of(alloc, seconds)?, begin);
        }
        Ok(())
    }
}

/// The time this number of seconds after the opening.
pub fn time_of(alloc: Global, seconds: u64) -> Result<Option<Stamp>, NoMemory> {
    let (tens, ones) = (seconds / 10 % 6, seconds % 10);
    let text = format!(in alloc; "2026-11-27T06:00:{tens}{ones}.000Z")?;
    Ok(Stamp::parse(text.as_bytes()))
}

/// The tills 1 and 2 arrive, and the dispenser of point 1.
fn welcome(rt: &impl Abort, station: &mut Lent<'_>) -> Result<(), NoMemory> {
    for key in 0..3usize {
        let arrived = station.arrive()?;
        assert!(rt; arrived == Some(key), "another key");
    }
    Ok(())
}

/// The key of the peer that sends this message.
fn key_of(octets: &[u8]) -> usize {
    match octets {
        [_, _, 2, 1, ..] => 0,
        [_, _, 2, 2, ..] => 1,
        _ => 2,
    }
}

/// The messages of a round are heard.
fn hear_round(
    rt: &impl Abort,
    alloc: Global,
    station: &mut Lent<'_>,
    round: &[Message],
    reached: &mut Reached,
) -> Result<(), NoMemory> {
    for message in round {
        hear(rt, alloc, station, message)?;
        reached.heard = message.kept;
    }
    Ok(())
}

/// A message is heard: it makes its row, and its reply is pending, but isn't sent yet.
fn hear(
    rt: &impl Abort,
    alloc: Global,
    station: &mut Lent<'_>,
    message: &Message,
) -> Result<(), NoMemory> {
    let key = key_of(&message.octets);
    let place = station.book().len();
    station.hear(key, &message.octets);
    let book = station.book();
    assert!(rt; book.kept_len() == message.kept, "another number of rows");
    assert!(rt;
        has_row(alloc, book.row(place), message.row)?,
        "another row"
    );
    assert!(rt; station.is_owed(key), "no reply");
    assert!(rt; station.told_octets(key).is_empty(), "sent too early");
    Ok(())
}

/// The rows of a round are stored, and its replies are sent. False if the disk fails: then nothing
/// is sent.
fn send_round(rt: &impl Abort, station: &mut Lent<'_>, round: &[Message]) -> bool {
    let is_stored = station.store().is_ok();
    for message in round {
        let key = key_of(&message.octets);
        let sent = station.told_octets(key).len();
        station.take(key, sent);
        assert!(rt; station.is_owed(key) != is_stored, "sent, and not stored");
    }
    is_stored
}

/// The chapter ends, if it is over. False if the disk fails.
fn end_chapter(rt: &impl Abort, station: &mut Lent<'_>) -> bool {
    assert!(rt; station.is_all_stored(), "sent, and not stored");
    station.end_chapter_if_over().is_ok()
}
