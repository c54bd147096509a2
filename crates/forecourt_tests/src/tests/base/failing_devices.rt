//! Which calls of a device are made, counted and made again.

use devices::{Counted, ReadFault, WriteFault, read_piece, write_whole};
use std::alloc::Global;
use std::io::{self, Read, Write};
use std::test::Fail;

/// Is interrupted a number of times, then fails in another way or gives its text. It counts its
/// calls.
#[derive(Drop)]
struct FakeReader<'a> {
    text: &'a [u8],
    interruptions: u64,
    is_broken: bool,
    calls: u64,
}

impl<'a> Read for FakeReader<'a> {
    fn read(&mut self, buf: &mut [u8]) -> io::Result<usize> {
        self.calls = self.calls.saturating_add(1);
        if self.interruptions > 0 {
            self.interruptions -= 1;
            return Err(io::Error::from(io::ErrorKind::Interrupted));
        }
        if self.is_broken {
            return Err(io::Error::from(io::ErrorKind::BrokenPipe));
        }
        self.text.read(buf)
    }
}

/// Is interrupted a number of times, then takes at most `most` octets a call. It counts its calls.
#[derive(Drop)]
struct FakeWriter {
    held: Vec<u8>,
    most: usize,
    interruptions: u64,
    calls: u64,
}

impl Write for FakeWriter {
    fn write(&mut self, buf: &[u8]) -> io::Result<usize> {
        self.calls = self.calls.saturating_add(1);
        if self.interruptions > 0 {
            self.interruptions -= 1;
            return Err(io::Error::from(io::ErrorKind::Interrupted));
        }
        let taken = buf.len().min(self.most);
        self.held.extend_from_slice(&buf[..taken])?;
        Ok(taken)
    }

    fn flush(&mut self) -> io::Result<()> {
        Err(io::Error::from(io::ErrorKind::BrokenPipe))
    }
}

fn fake_writer(alloc: Global, most: usize, interruptions: u64) -> Counted<FakeWriter> {
    Counted::new(FakeWriter {
        held: Vec::new(alloc),
        most,
        interruptions,
        calls: 0,
    })
}

#[test]
fn reads_are_bounded_by_turns(rt: HostRuntime) {
    // Interruptions and whether it fails then, turns; what comes, turns left, failures, calls.
    let cases = [
        (0, false, 0, Err(ReadFault::TurnLimit), 0, 0, 0),
        (0, false, 9, Ok(3), 8, 0, 1),
        (1, false, 2, Ok(3), 0, 0, 2),
        (2, false, 2, Err(ReadFault::TurnLimit), 0, 0, 2),
        (0, true, 9, Err(ReadFault::Failed), 8, 1, 1),
        (2, true, 9, Err(ReadFault::Failed), 6, 1, 3),
    ];
    for (interruptions, is_broken, limit, want, left, failures, calls) in cases {
        let mut reader = Counted::new(FakeReader {
            text: b"abc",
            interruptions,
            is_broken,
            calls: 0,
        });
        let (mut buf, mut turns) = ([0; 8], limit);
        let found = read_piece(&mut reader, &mut buf, &mut turns);
        assert_eq!(rt; found, want, "{interruptions} interruptions, {limit} turns");
        assert_eq!(rt; turns, left);
        assert_eq!(rt; reader.failures(), failures);
        assert_eq!(rt; reader.get_ref().calls, calls);
        if found.is_ok() {
            assert_eq!(rt; buf, *b"abc\0\0\0\0\0");
        }
    }
}

#[test]
fn writes_are_whole_or_end_with_a_fault(rt: HostRuntime) -> Result<(), Fail> {
    // Octets a call, interruptions, turns; what comes, turns left, failures, calls, octets written.
    let cases = [
        (9, 0, 0, Ok(()), 0, 0, 1, 8),
        (3, 0, 0, Ok(()), 0, 0, 3, 8),
        (3, 2, 2, Ok(()), 0, 0, 5, 8),
        (3, 2, 1, Err(WriteFault::TurnLimit), 0, 0, 2, 0),
        (0, 0, 9, Err(WriteFault::Failed), 9, 1, 1, 0),
        (0, 1, 9, Err(WriteFault::Failed), 8, 1, 2, 0),
    ];
    for (most, interruptions, limit, want, left, failures, calls, len) in cases {
        let mut writer = fake_writer(rt.alloc(), most, interruptions);
        let mut turns = limit;
        let found = write_whole(&mut writer, b"abcdefgh", &mut turns);
        assert_eq!(rt;
            found,
            want,
            "{most} octets a call, {interruptions} interruptions"
        );
        assert_eq!(rt; turns, left);
        assert_eq!(rt; writer.failures(), failures);
        let device = writer.into_inner();
        assert_eq!(rt; device.calls, calls);
        assert_eq!(rt; device.held.len(), len);
        assert!(rt; b"abcdefgh".starts_with(&device.held));
    }
    Ok(())
}

#[test]
fn an_empty_text_needs_no_call(rt: HostRuntime) {
    let mut writer = fake_writer(rt.alloc(), 0, 0);
    assert_eq!(rt; write_whole(&mut writer, b"", &mut 0), Ok(()));
    assert_eq!(rt; writer.get_ref().calls, 0);
    assert!(rt; writer.flush().is_err());
    assert_eq!(rt; writer.failures(), 1);
}

#[test]
fn memory_is_read_to_its_end_and_written(rt: HostRuntime) {
    let mut reader = Counted::new(b"seven".as_slice());
    let mut writer = Counted::new(Vec::new(rt.alloc()));
    let (mut buf, mut turns) = ([0; 3], 3);
    for want in [3, 2, 0] {
        let found = read_piece(&mut reader, &mut buf, &mut turns);
        assert_eq!(rt; found, Ok(want));
        assert_eq!(rt; write_whole(&mut writer, &buf[..want], &mut turns), Ok(()));
    }
    assert_eq!(rt; writer.get_ref().as_slice(), b"seven".as_slice());
    assert_eq!(rt; (reader.failures(), writer.failures(), turns), (0, 0, 0));
}

#[test]
fn faults_say_what_ended(rt: HostRuntime) -> Result<(), Fail> {
    let reads = [
        (ReadFault::TurnLimit, 59, "no turn left for a read"),
        (ReadFault::Failed, 61, "the reader failed"),
    ];
    for (fault, number, words) in reads {
        assert_eq!(rt; fault.number(), number);
        assert_eq!(rt; format!(in rt.alloc(); "{fault}")?.as_str(), words);
    }
    let writes = [
        (WriteFault::TurnLimit, 59, "no turn left for a write"),
        (WriteFault::Failed, 62, "the writer failed"),
    ];
    for (fault, number, words) in writes {
        assert_eq!(rt; fault.number(), number);
        assert_eq!(rt; format!(in rt.alloc(); "{fault}")?.as_str(), words);
    }
    Ok(())
}
