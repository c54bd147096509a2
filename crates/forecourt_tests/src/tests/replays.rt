//! A replay of three messages, whose reader or writer fails at each of its calls in turn, takes
//! nothing, or is interrupted without end.

use devices::{Counted, ReadFault, WriteFault};
use forecourt_engines::replay::replay;
use forecourt_engines::{ReplayFault, known_site};
use site_base::NoMemory;
use std::alloc::Global;
use std::io::{self, ErrorKind, Read, Write};
use std::process::Abort;
use std::test::Fail;
use till_session::testing::Faulty;

/// Till 1 signs on, opens point 3, and reads it: lines of 36, 36 and 30 octets.
const ASKED: &str = "\
01 01 02 01 00 41 00 04 01 01 31 00
01 01 02 01 00 42 00 04 01 23 3C 00
01 01 02 01 00 03 00 02 01 23
";

/// Both are acknowledged, and the point is shown: lines of 33, 33 and 77 octets.
const TOLD: &str = "\
0201010100e100080101010100030100
0201010100e200080123010100030100
020101010023001e012310010311010012010013010072040000000073080000000000000000
";

/// A reader or a writer over memory. No call moves more than so many octets, the call of one number
/// fails, and from the call of another number on each is interrupted; 0 is none.
#[derive(Drop)]
struct Device {
    memory: Faulty,
    most: usize,
    interrupted_from: u64,
    calls: u64,
}

impl Device {
    fn new(octets: Vec<u8>, most: usize, fails_at: u64, interrupted_from: u64) -> Device {
        Device {
            memory: Faulty::new(octets, fails_at, most),
            most,
            interrupted_from,
            calls: 0,
        }
    }

    /// One more call: is it interrupted?
    fn is_interrupted(&mut self) -> bool {
        self.calls = self.calls.saturating_add(1);
        self.interrupted_from != 0 && self.calls >= self.interrupted_from
    }
}

impl Read for Device {
    fn read(&mut self, buf: &mut [u8]) -> io::Result<usize> {
        if self.is_interrupted() {
            return Err(io::Error::from(ErrorKind::Interrupted));
        }
        let most = buf.len().min(self.most);
        self.memory.read(&mut buf[..most])
    }
}

impl Write for Device {
    fn write(&mut self, buf: &[u8]) -> io::Result<usize> {
        if self.is_interrupted() {
            return Err(io::Error::from(ErrorKind::Interrupted));
        }
        self.memory.write(buf)
    }

    fn flush(&mut self) -> io::Result<()> {
        Ok(())
    }
}

/// What was seen of a replay: why it ended, how many rows its book has, how many octets it told,
/// and how often its devices were called.
#[derive(Clone, Copy, Debug, PartialEq, Eq)]
struct Seen {
    fault: Option<ReplayFault>,
    rows: u64,
    told: usize,
    reads: u64,
    writes: u64,
}

/// How the devices of a replay behave.
#[derive(Clone, Copy)]
struct Devices {
    read_most: usize,
    read_fails: u64,
    reads_interrupted_from: u64,
    write_most: usize,
    write_fails: u64,
    writes_interrupted_from: u64,
    turns: u64,
}

/// Devices that move all that they can, and don't fail.
const GOOD: Devices = Devices {
    read_most: usize::MAX,
    read_fails: 0,
    reads_interrupted_from: 0,
    write_most: usize::MAX,
    write_fails: 0,
    writes_interrupted_from: 0,
    turns: 1_000_000,
};

/// Replays the messages; what is told is a front of what has to be.
fn replay_asked(rt: &impl Abort, alloc: Global, devices: Devices) -> Result<Seen, NoMemory> {
    let config = known_site(alloc)?;
    let mut reader = Counted::new(Device::new(
        Vec::from_slice(alloc, ASKED.as_bytes())?,
        devices.read_most,
        devices.read_fails,
        devices.reads_interrupted_from,
    ));
    let mut writer = Counted::new(Device::new(
        Vec::with_capacity(alloc, 1_000)?,
        devices.write_most,
        devices.write_fails,
        devices.writes_interrupted_from,
    ));
    let end = replay(
        alloc,
        &config,
        &mut reader,
        &mut writer,
        devices.turns,
        false,
    );
    let told = writer.get_ref().memory.octets();
    assert!(rt; TOLD.as_bytes().starts_with(told), "no front of the text");
    let rows = match &end.book {
        Some(book) => book.len(),
        None => panic!(rt; "no book"),
    };
    Ok(Seen {
        fault: end.fault,
        rows,
        told: told.len(),
        reads: reader.get_ref().calls,
        writes: writer.get_ref().calls,
    })
}

#[test]
fn each_read_fails(rt: HostRuntime) -> Result<(), Fail> {
    // Reads of 5 octets: the lines end in the 8th, the 15th and the 21st, the 22nd finds the end.
    for k in 1..30u64 {
        let devices = Devices {
            read_most: 5,
            read_fails: k,
            ..GOOD
        };
        let seen = replay_asked(&rt, rt.alloc(), devices)?;
        let (told, rows) = match k {
            0..=8 => (0usize, 0u64),
            9..=15 => (33, 1),
            16..=21 => (66, 2),
            _ => (143, 3),
        };
        let is_met = k <= 22;
        let failed = Some(ReplayFault::Read(ReadFault::Failed));
        assert!(rt; seen.fault == if is_met { failed } else { None });
        assert!(rt; seen.told == told && seen.rows == rows);
        assert!(rt; seen.reads == if is_met { k } else { 22 });
    }
    Ok(())
}

#[test]
fn each_write_fails(rt: HostRuntime) -> Result<(), Fail> {
    // The text of 143 octets is one write, or 29 of at most 5.
    for (most, writes) in [(usize::MAX, 1u64), (5, 29)] {
        for k in 1..40u64 {
            let devices = Devices {
                write_most: most,
                write_fails: k,
                ..GOOD
            };
            let seen = replay_asked(&rt, rt.alloc(), devices)?;
            let is_met = k <= writes;
            let failed = Some(ReplayFault::Write(WriteFault::Failed));
            assert!(rt; seen.fault == if is_met { failed } else { None });
            let told = if is_met { 5 * (k as usize - 1) } else { 143 };
            assert!(rt; seen.told == told && seen.rows == 3);
            assert!(rt; seen.writes == if is_met { k } else { writes });
        }
    }
    Ok(())
}

#[test]
fn a_writer_takes_nothing(rt: HostRuntime) -> Result<(), Fail> {
    let devices = Devices {
        write_most: 0,
        ..GOOD
    };
    let seen = replay_asked(&rt, rt.alloc(), devices)?;
    assert!(rt; seen.fault == Some(ReplayFault::Write(WriteFault::Failed)));
    assert!(rt; seen.told == 0 && seen.writes == 1);
    Ok(())
}

#[test]
fn writes_are_interrupted_without_end(rt: HostRuntime) -> Result<(), Fail> {
    for (first, most, told) in [(1u64, usize::MAX, 0usize), (2, 5, 5), (29, 5, 140)] {
        let devices = Devices {
            write_most: most,
            writes_interrupted_from: first,
            turns: 10,
            ..GOOD
        };
        let seen = replay_asked(&rt, rt.alloc(), devices)?;
        assert!(rt; seen.fault == Some(ReplayFault::Write(WriteFault::TurnLimit)));
        assert!(rt; seen.told == told && seen.reads == 1);
        // The read takes a turn, and each interrupted write but the last, which finds none.
        assert_eq!(rt; seen.writes, first.saturating_add(9));
    }
    Ok(())
}

#[test]
fn reads_are_interrupted_without_end(rt: HostRuntime) -> Result<(), Fail> {
    // The second read would find the end.
    for (first, told) in [(1u64, 0usize), (2, 143)] {
        let devices = Devices {
            reads_interrupted_from: first,
            turns: 10,
            ..GOOD
        };
        let seen = replay_asked(&rt, rt.alloc(), devices)?;
        assert!(rt; seen.fault == Some(ReplayFault::Read(ReadFault::TurnLimit)));
        assert!(rt; seen.told == told && seen.reads == 10);
    }
    Ok(())
}

#[test]
fn faults_are_told_by_number(rt: HostRuntime) -> Result<(), Fail> {
    let faults = [
        (ReplayFault::Read(ReadFault::TurnLimit), "fault 59"),
        (ReplayFault::Write(WriteFault::TurnLimit), "fault 59"),
        (ReplayFault::Read(ReadFault::Failed), "fault 61"),
        (ReplayFault::Write(WriteFault::Failed), "fault 62"),
    ];
    for (fault, words) in faults {
        assert_eq!(rt; format!(in rt.alloc(); "{fault}")?.as_str(), words);
    }
    Ok(())
}
