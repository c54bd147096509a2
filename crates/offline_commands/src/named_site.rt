//! Refuses an input if a comment in it names another site file than the one that the input is read
//! on. A journal names its site file in its first line, a chapter of a history in its second. In
//! several chapters, one after another, each names it.

ghost use Rattle.std.specs.Prelude.{◌≡◌, ◌≢◌, ◌≤◌, ◌+◌, ◌<◌, drop, length, IfSome, None, Some};
ghost use Rattle.std.specs.Process.{exit_status};
ghost use Rattle.offline_commands.specs.NamedSites.{Names};
ghost use Rattle.program_io.specs.declared.exit.TheConstants.{FAULT};
ghost use Rattle.program_io.specs.Statuses.{status_after};

use devices::Counted;
use forecourt_engines::ReplayFault;
use hex_lines::text_of;
use memchr::memchr;
use program_io::{FAULT, exit_replay, exit_with, read_site_file};
use sha2::{Digest, Sha256};
use site_base::SiteConfig;
use std::io::{self, ErrorKind, Read};
use std::process::ExitCode;
use std::rt::Files;
use thiserror::Error;

/// No longer line names a site.
const NAME_OCTETS: usize = 128;

/// What a journal's first line begins with; the digits of its site file's SHA-256 follow.
const OF_JOURNAL: &[u8] = b"# witsomar journal of site ";

/// What the line of a chapter that names its site begins with; the same digits follow.
const OF_HISTORY: &[u8] = b"# site ";

/// The octets of a SHA-256.
const DIGEST: usize = 32;

/// A text that names its site file.
#[derive(Clone, Copy, Debug, PartialEq, Eq, Error)]
enum NamedText {
    /// A journal.
    #[error("journal of another site")]
    Journal,
    /// A chapter of a history.
    #[error("history of another site")]
    History,
}

/// An input that ends with an error after the first comment that names another site.
#[derive(Drop)]
pub struct NamedInput<I> {
    input: I,
    /// The SHA-256 of the site file that it is read on.
    site: [u8; DIGEST],
    line: LineFront,
    /// What it is, once it has named another site.
    another: Option<NamedText>,
}

impl<I: Read> NamedInput<I> {
    /// Looks at the next octets. Returns how many of them there are up to the end of a line that
    /// names another site; without one all.
    fn look_at(&mut self, octets: &[u8]) -> usize
        ensures { result ≤ length octets.now }
    {
        let mut rest = octets;
        for _ in 0..octets.len() {
            let Some(end) = memchr(b'\n', rest) else {
                break;
            };
            self.line.hold(&rest[..end]);
            rest = after_line(rest, end);
            self.end_line();
            if self.another.is_some() {
                return octets.len().saturating_sub(rest.len());
            }
        }
        self.line.hold(rest);
        octets.len()
    }

    /// The line has ended.
    fn end_line(&mut self) {
        self.another = another_named(self.line.text(), &self.site);
        self.line = LineFront::EMPTY;
    }
}

impl<I: Read> Read for NamedInput<I> {
    fn read(&mut self, buf: &mut [u8]) -> io::Result<usize> {
        if self.another.is_some() {
            return Err(io::Error::from(ErrorKind::InvalidData));
        }
        let count = self.input.read(buf)?;
        if count > 0 {
            return Ok(self.look_at(&buf[..count]));
        }
        // The last line may have no line feed.
        self.end_line();
        match self.another {
            Some(_) => Err(io::Error::from(ErrorKind::InvalidData)),
            None => Ok(0),
        }
    }
}

/// Reads the site from the file of this name, and makes an input for it. If the file can't be read
/// or has a fault, prints that and returns the exit status.
pub fn open_input<R: Files + Eprint + AllocGlobal, I: Read + Drop>(
    rt: &R,
    name: &str,
    input: I,
) -> Result<(SiteConfig, Counted<NamedInput<I>>), ExitCode> {
    let (config, site_file) = read_site_file(rt, name)?;
    let named = NamedInput {
        input,
        site: Sha256::digest(&site_file),
        line: LineFront::EMPTY,
        another: None,
    };
    Ok((config, Counted::new(named)))
}

/// Prints why a replay of this input ended, and returns the exit status. If the input has named
/// another site, prints that instead.
pub fn exit_named<I: Read>(
    rt: &impl Eprint,
    input: &Counted<NamedInput<I>>,
    fault: Option<ReplayFault>,
) -> ExitCode {
    exit_after(rt, input.get_ref().another, fault)
}

/// The same of what it is, if it has named another site.
fn exit_after(rt: &impl Eprint, another: Option<NamedText>, fault: Option<ReplayFault>) -> ExitCode
    ensures named { another ≡ None → exit_status result ≡ status_after fault }
    ensures another { IfSome another (λ _. exit_status result ≡ FAULT) }
{
    match another {
        Some(text) => exit_with(
            eprintln!(rt; "{text}\ngive the site file on which its rows were made"),
            FAULT,
        ),
        None => exit_replay(rt, fault),
    }
}

/// The front of a line: of a comment that isn't too long to name a site, all that came of it.
#[derive(Clone, Copy, Debug)]
struct LineFront {
    octets: [u8; NAME_OCTETS],
    /// So many octets came; more than a front has, if the line names no site.
    len: usize,
}

impl LineFront {
    /// Nothing came yet.
    const EMPTY: LineFront = LineFront {
        octets: [0; NAME_OCTETS],
        len: 0,
    };

    /// More of the line came.
    fn hold(&mut self, part: &[u8]) {
        if part.is_empty() || self.len > NAME_OCTETS {
            return;
        }
        let is_comment = self.len > 0 || part[0] == b'#';
        if !is_comment || part.len() > NAME_OCTETS - self.len {
            self.len = NAME_OCTETS + 1;
            return;
        }
        self.octets[self.len..self.len + part.len()].copy_from_slice(part);
        self.len += part.len();
    }

    /// All of the line, if it may name a site; without its carriage return.
    fn text(&self) -> &[u8] {
        if self.len > NAME_OCTETS {
            return &[];
        }
        text_of(&self.octets[..self.len])
    }
}

/// What a text is in which this line stands, if it names another site than this one.
fn another_named(line: &[u8], site: &[u8; DIGEST]) -> Option<NamedText> {
    if let Some(named) = &site_named(OF_JOURNAL, line) {
        return unless_same(NamedText::Journal, named, site);
    }
    if let Some(named) = &site_named(OF_HISTORY, line) {
        return unless_same(NamedText::History, named, site);
    }
    None
}

/// This text, unless the site that it names is the file's.
fn unless_same(text: NamedText, site: &[u8; DIGEST], digest: &[u8; DIGEST]) -> Option<NamedText>
    ensures same { site.now ≡ digest.now → result ≡ None }
    ensures another { site.now ≢ digest.now → result ≡ Some text }
{
    if *site == *digest { None } else { Some(text) }
}

/// The rest of a text after the line that ends here.
fn after_line(text: &[u8], end: usize) -> &[u8]
    requires { end < length text.now }
    ensures { result.now ≡ drop (end + 1) text.now }
{
    let (_, others) = text.split_at(end);
    &others[1..]
}

/// The site that a line names after this title: the SHA-256 of its file, of which the line has the
/// digits, in either case.
fn site_named(title: &[u8], line: &[u8]) -> Option<[u8; DIGEST]>
    ensures { IfSome result (λ site. Names title.now site line.now) }
{
    if !line.starts_with(title) {
        return None;
    }
    let mut site = [0u8; DIGEST];
    match hex::decode_to_slice(&line[title.len()..], &mut site) {
        Ok(()) => Some(site),
        Err(_) => None,
    }
}
