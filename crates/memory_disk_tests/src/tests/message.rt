//! The messages of the day.

use hex_lines::{LineText, read_octets};
use site_base::NoMemory;
use std::alloc::Global;
use std::process::Abort;

/// A day of two tills and a dispenser on the known site, with a line for each message: the number
/// of kept rows after it, the tills that are signed on then, its row in words, and its octets. A
/// read's row isn't kept. The close of the shift ends a chapter.
const DAY: &str = "\
1 | t1 | t1 SignOn: Done | \
    01 01 02 01 00 41 00 04 01 01 31 00
2 | t1 | d1 Online 1: 10 WrongState(closed) | \
    01 01 03 01 00 61 00 04 01 21 60 00
3 | t1 | t1 Open 1: Done | \
    01 01 02 01 00 42 00 04 01 21 3C 00
4 | t1 t2 | t2 SignOn: Done | \
    01 01 02 02 00 41 00 04 01 01 31 00
5 | t1 t2 | t1 Release 1: Done | \
    01 01 02 01 00 43 00 04 01 21 3E 00
6 | t1 t2 | d1 Lift 1 1@0: Start{Unset, 1500} | \
    01 01 03 01 00 62 00 11 01 21 62 00 70 01 01 71 08 00 00 00 00 00 00 00 00
6 | t1 t2 | t1 ReadSite: SiteIs{cents 0, shift 1} | \
    01 01 02 01 00 04 00 02 01 01
7 | t1 t2 | d1 HangUp 1 1@10000: Sold{1, 10000} | \
    01 01 03 01 00 63 00 11 01 21 64 00 70 01 01 71 08 00 00 00 00 00 00 27 10
8 | t1 t2 | t2 Lock 1/1: Locked | \
    01 01 02 02 00 42 00 07 04 21 21 00 01 80 00
9 | t1 t2 | t1 Clear 1/1: 20 LockedByOther(2) | \
    01 01 02 01 00 45 00 07 04 21 21 00 01 82 00
10 | t1 t2 | t2 Clear 1/1: Cleared(1500) | \
    01 01 02 02 00 43 00 07 04 21 21 00 01 82 00
11 | t1 t2 | t1 CloseShift: ShiftClosed(1) | \
    01 01 02 01 00 46 00 04 01 01 33 00
12 | t1 | t2 SignOff: Done | \
    01 01 02 02 00 44 00 04 01 01 32 00
13 | t1 | t1 SetPrice 1 1600: Done | \
    01 01 02 01 00 47 00 08 01 81 90 04 00 00 06 40
14 | - | t1 SignOff: Done | \
    01 01 02 01 00 48 00 04 01 01 32 00
";

/// A message of the day.
#[derive(Drop)]
pub struct Message {
    /// The number of kept rows after it.
    pub kept: u64,
    /// The tills that are signed on then.
    pub on: &'static str,
    /// Its row in words.
    pub row: &'static str,
    /// Its octets.
    pub octets: Vec<u8>,
}

/// The messages of the day, in order.
pub fn read_messages(rt: &impl Abort, alloc: Global) -> Result<Vec<Message>, NoMemory> {
    let mut messages = Vec::new(alloc);
    for line in DAY.lines() {
        messages.push(read_message(rt, alloc, line)?)?;
    }
    Ok(messages)
}

/// The message of a line.
fn read_message(rt: &impl Abort, alloc: Global, line: &'static str) -> Result<Message, NoMemory> {
    let (kept, line) = split_column(rt, line);
    let (on, line) = split_column(rt, line);
    let (row, octets) = split_column(rt, line);
    Ok(Message {
        kept: kept.parse::<u64>().ok().expect(rt, "a number"),
        on,
        row,
        octets: decode_octets(rt, alloc, octets)?,
    })
}

/// The first column of a line, and the others.
fn split_column(rt: &impl Abort, line: &'static str) -> (&'static str, &'static str) {
    line.split_once(" | ").expect(rt, "a column")
}

/// The octets of a text in hexadecimal.
fn decode_octets(rt: &impl Abort, alloc: Global, text: &str) -> Result<Vec<u8>, NoMemory> {
    let mut kept = Vec::new(alloc);
    let mut octets = Vec::new(alloc);
    let said = read_octets(text.as_bytes(), &mut kept, &mut octets)?;
    assert!(rt; said == LineText::Octets, "no hexadecimal");
    Ok(octets)
}
