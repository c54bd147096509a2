//! Replays whose turns are used up: fault 59, after a prefix of the answers.

use devices::{Counted, ReadFault, WriteFault};
use forecourt_engines::replay::replay;
use forecourt_engines::reporting::replay_to_report;
use forecourt_engines::{ReplayFault, known_site};
use std::alloc::Global;
use std::io::{self, Write};
use std::test::Fail;

/// Till 1 signs on.
const SIGN_ON: &[u8] = b"010102010041000401013100\n";

/// It is signed on.
const SIGNED_ON: &[u8] = b"0201010100e100080101010100030100\n";

/// Is interrupted a number of times, then takes what comes.
#[derive(Drop)]
struct InterruptedWriter {
    held: Vec<u8>,
    interruptions: u64,
}

impl InterruptedWriter {
    fn new(alloc: Global, interruptions: u64) -> Counted<Self> {
        let held = Vec::new(alloc);
        Counted::new(InterruptedWriter {
            held,
            interruptions,
        })
    }
}

impl Write for InterruptedWriter {
    fn write(&mut self, buf: &[u8]) -> io::Result<usize> {
        if self.interruptions > 0 {
            self.interruptions -= 1;
            return Err(io::Error::from(io::ErrorKind::Interrupted));
        }
        self.held.extend_from_slice(buf)?;
        Ok(buf.len())
    }

    fn flush(&mut self) -> io::Result<()> {
        Ok(())
    }
}

#[test]
fn a_replay_ends_at_its_turn_limit(rt: HostRuntime) -> Result<(), Fail> {
    let alloc = rt.alloc();
    let config = known_site(alloc)?;
    let unread = Some(ReplayFault::Read(ReadFault::TurnLimit));
    let unwritten = Some(ReplayFault::Write(WriteFault::TurnLimit));
    // Two reads make the replay: one of the message, one of the end.
    // Turns, interrupted writes; the fault, what was written.
    let cases: [(u64, u64, Option<ReplayFault>, &[u8]); 6] = [
        (0, 0, unread, b""),
        (1, 0, unread, SIGNED_ON),
        (2, 0, None, SIGNED_ON),
        (1, 1, unwritten, b""),
        (2, 1, unread, SIGNED_ON),
        (3, 1, None, SIGNED_ON),
    ];
    for (turns, interruptions, fault, told) in cases {
        let mut reader = Counted::new(SIGN_ON);
        let mut writer = InterruptedWriter::new(alloc, interruptions);
        let end = replay(alloc, &config, &mut reader, &mut writer, turns, false);
        assert!(rt;
            end.fault == fault,
            "{turns} turns, {interruptions} interruptions"
        );
        assert_eq!(rt; writer.into_inner().held.as_slice(), told);
    }
    Ok(())
}

#[test]
fn no_report_comes_at_the_turn_limit(rt: HostRuntime) -> Result<(), Fail> {
    let alloc = rt.alloc();
    let config = known_site(alloc)?;
    for turns in 0..3 {
        let mut reader = Counted::new(SIGN_ON);
        let mut writer = InterruptedWriter::new(alloc, 0);
        let end = replay_to_report(alloc, &config, &mut reader, &mut writer, turns);
        let limit = Err(ReplayFault::Read(ReadFault::TurnLimit));
        assert!(rt;
            end == if turns < 2 { limit } else { Ok(()) },
            "{turns} turns"
        );
        assert!(rt; writer.into_inner().held.is_empty() == (turns < 2));
    }
    Ok(())
}

#[test]
fn the_limit_has_its_text_and_status(rt: HostRuntime) -> Result<(), Fail> {
    let limits = [
        ReplayFault::Read(ReadFault::TurnLimit),
        ReplayFault::Write(WriteFault::TurnLimit),
    ];
    for fault in limits {
        assert_eq!(rt; format!(in rt.alloc(); "{fault}")?.as_str(), "fault 59");
        assert_eq!(rt; fault.exit_status(), 1);
    }
    Ok(())
}
