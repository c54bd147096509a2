//! What no clause says of the reader: how far it reads its input, and that a failed read of it is
//! answered.

use crate::unmarked::{Unmarked, skip_mark};
use std::alloc::Global;
use std::io::{self, ErrorKind, Read};
use std::test::Fail;

/// Inputs, and what is read of each.
const CASES: [(&[u8], &[u8]); 10] = [
    (b"", b""),
    (b"a", b"a"),
    (b"0101\n", b"0101\n"),
    (b"\xEF\xBB\xBF", b""),
    (b"\xEF\xBB\xBF0101\n", b"0101\n"),
    (b"\xEF\xBB\xBF\xEF\xBB\xBF0101\n", b"\xEF\xBB\xBF0101\n"),
    (b"\xEF\xBB", b"\xEF\xBB"),
    (b"\xEF0101\n", b"\xEF0101\n"),
    (b"\xEF\xBB\xEF\xBB\xBF", b"\xEF\xBB\xEF\xBB\xBF"),
    (b"0101\n\xEF\xBB\xBF", b"0101\n\xEF\xBB\xBF"),
];

/// A reader over memory whose call of this number fails, counted from 1.
#[derive(Drop)]
struct Failing<'a> {
    octets: &'a [u8],
    calls: u64,
    fails_at: u64,
}

impl Read for Failing<'_> {
    fn read(&mut self, buf: &mut [u8]) -> io::Result<usize> {
        self.calls = self.calls.saturating_add(1);
        if self.calls == self.fails_at {
            return Err(io::Error::from(ErrorKind::WouldBlock));
        }
        self.octets.read(buf)
    }
}

/// All that a reader gives, in pieces of at most so many octets, and how often it failed.
fn read_all<R: Read + Drop>(
    alloc: Global,
    mut input: R,
    most: usize,
) -> Result<(Vec<u8>, u64), Fail> {
    let mut text = Vec::new(alloc);
    let mut failures = 0u64;
    let mut piece = [0; 16];
    let most = piece.len().min(most);
    for _ in 0..64 {
        match input.read(&mut piece[..most]) {
            Ok(0) => break,
            Ok(n) => text.extend_from_slice(&piece[..n])?,
            Err(_) => failures = failures.saturating_add(1),
        }
    }
    Ok((text, failures))
}

#[test]
fn one_mark_is_passed_over(rt: HostRuntime) -> Result<(), Fail> {
    for (octets, wanted) in CASES {
        for most in [1, 2, 16] {
            let (text, failures) = read_all(rt.alloc(), Unmarked::new(octets), most)?;
            assert_eq!(rt; text.as_slice(), wanted);
            assert_eq!(rt; failures, 0);
        }
        assert_eq!(rt; skip_mark(octets), wanted);
    }
    Ok(())
}

#[test]
fn a_failed_read_loses_nothing(rt: HostRuntime) -> Result<(), Fail> {
    for (octets, wanted) in CASES {
        for fails_at in [1, 2, 3, 4, 5] {
            let mut input = Failing {
                octets,
                calls: 0,
                fails_at,
            };
            let (text, failures) = read_all(rt.alloc(), Unmarked::new(&mut input), 2)?;
            assert_eq!(rt; text.as_slice(), wanted);
            assert_eq!(rt; failures == 1, input.calls >= fails_at);
        }
    }
    Ok(())
}

#[test]
fn an_octet_is_given_at_once(rt: HostRuntime) -> Result<(), Fail> {
    let mut input: &[u8] = b"ab";
    let mut piece = [0; 16];
    let mut text = Unmarked::new(&mut input);
    assert_eq!(rt; text.read(&mut []).ok(), Some(0));
    assert_eq!(rt; text.read(&mut piece).ok(), Some(1));
    assert_eq!(rt; piece[0], b'a');
    assert_eq!(rt; input, b"b".as_slice());
    Ok(())
}

#[test]
fn an_end_is_read_once(rt: HostRuntime) -> Result<(), Fail> {
    for (octets, calls) in [(b"".as_slice(), 1), (b"\xEF\xBB\xBF", 4)] {
        let mut input = Failing {
            octets,
            calls: 0,
            fails_at: 0,
        };
        let mut piece = [0; 16];
        assert_eq!(rt; Unmarked::new(&mut input).read(&mut piece).ok(), Some(0));
        assert_eq!(rt; input.calls, calls);
    }
    Ok(())
}
