//! A conversation with a station: sends the request of a line, and waits for its reply.

use crate::lines::Lines;
use crate::run::REPLY_SECONDS;
use app_message::{Decoder, Message, Messages, Token};
use devices::{Counted, PIECE_OCTETS, ReadFault, write_whole};
use forecourt_engines::explain::{Meaning, explain};
use forecourt_engines::words::{LineFault, WordFault, spell_line};
use forecourt_engines::{ReplayFault, TextFault};
use hex_lines::{LINE_OCTETS, LineText, read_octets, text_of};
use program_io::{FAULT, TURNS, exit_no_memory, exit_replay, exit_unwritten, exit_with};
use site_base::NoMemory;
use std::alloc::Global;
use std::io::{ErrorKind, Read, Write};
use std::process::ExitCode;

/// The number that the station replies before it ends a session whose messages may not be of their
/// originator.
const ORIGINATOR_CHANGED: u8 = 57;

/// Asks for each line of this input, one after another, and prints the replies. With `strict` it
/// ends with the first one that is refused.
pub(crate) fn ask_all<R: Print + Eprint + AllocGlobal, I: Read + Drop, S: Read + Write + Drop>(
    rt: &R,
    lines: Lines<I>,
    stream: S,
    strict: bool,
) -> ExitCode {
    let mut asking = match Asking::new(rt.alloc(), stream) {
        Ok(asking) => asking,
        Err(NoMemory) => return exit_no_memory(rt),
    };
    let mut lines = lines;
    for _ in 0..u64::MAX {
        if !lines.is_there {
            return ExitCode::SUCCESS;
        }
        match asking.ask(rt, lines.number, &lines.line) {
            Ok(Answered::Refused) if strict => return ExitCode::from(FAULT),
            Ok(_) => {}
            Err(status) => return status,
        }
        if let Err(status) = lines.advance(rt) {
            return status;
        }
    }
    // No text has so many lines.
    exit_replay(rt, Some(ReplayFault::Read(ReadFault::TurnLimit)))
}

/// How a line was answered.
#[derive(Clone, Copy, Debug, PartialEq, Eq)]
enum Answered {
    /// It asks for nothing: it is empty, or a comment.
    NotAsked,
    /// Its request was done.
    Done,
    /// Its request was refused, or a number stands in place of a reply.
    Refused,
    /// The session may not be of this till or dispenser: the station has ended it.
    Barred,
}

/// A connection to a station, and what came over it so far.
#[derive(Drop)]
struct Asking<S> {
    alloc: Global,
    stream: Counted<S>,
    decoder: Decoder,
    piece: Vec<u8>,
    /// The token of the next line that names none.
    next: Token,
}

impl<S: Read + Write + Drop> Asking<S> {
    /// Nothing was asked over this stream.
    fn new(alloc: Global, stream: S) -> Result<Asking<S>, NoMemory> {
        let next = Token::new(1).unwrap();
        let piece = Vec::from_elem(alloc, 0, PIECE_OCTETS)?;
        Ok(Asking {
            alloc,
            stream: Counted::new(stream),
            decoder: Decoder::new(alloc),
            piece,
            next,
        })
    }

    /// Asks for what the line of this number says, waits for the reply, and prints it.
    fn ask<R: Print + Eprint>(
        &mut self,
        rt: &R,
        number: u64,
        line: &[u8],
    ) -> Result<Answered, ExitCode> {
        let octets = self.spell(rt, number, line)?;
        let Some(token) = token_of(rt, self.alloc, &octets)? else {
            return Ok(Answered::NotAsked);
        };
        let mut turns = TURNS;
        if write_whole(&mut self.stream, &octets, &mut turns).is_err() {
            return Err(exit_closed(rt));
        }
        self.wait(rt, token)
    }

    /// The octets of the request that the line of this number says; none where it says none.
    fn spell<R: Print + Eprint>(
        &mut self,
        rt: &R,
        number: u64,
        line: &[u8],
    ) -> Result<Vec<u8>, ExitCode> {
        if line.len() > LINE_OCTETS {
            return Err(exit_replay(rt, Some(ReplayFault::Text(TextFault::TooLong(number)))));
        }
        let mut text = Vec::new(self.alloc);
        match spell_line(self.alloc, line, self.next, &mut text) {
            Ok(then) => self.next = then,
            Err(LineFault::NoMemory) => return Err(exit_no_memory(rt)),
            Err(LineFault::Wrong(wrong)) => {
                let fault = WordFault { line, wrong };
                return Err(exit_with(eprintln!(rt; "line {number}: {fault}"), FAULT));
            }
        }
        match octets_of(self.alloc, &mut text) {
            Ok(octets) => Ok(octets),
            Err(NoMemory) => Err(exit_no_memory(rt)),
        }
    }

    /// Waits for the reply to the request of this token. What comes before it is printed, too.
    fn wait<R: Print + Eprint>(&mut self, rt: &R, token: Token) -> Result<Answered, ExitCode> {
        for _ in 0..TURNS {
            let messages = self.hear(rt)?;
            match print_all(rt, self.alloc, &messages, token)? {
                Some(Answered::Barred) => return Err(exit_barred(rt)),
                Some(answered) => return Ok(answered),
                None => {}
            }
        }
        Err(exit_replay(rt, Some(ReplayFault::Read(ReadFault::TurnLimit))))
    }

    /// The messages that one read brings.
    fn hear<R: Print + Eprint>(&mut self, rt: &R) -> Result<Messages, ExitCode> {
        let read = match self.stream.read(&mut self.piece) {
            Ok(0) => return Err(exit_closed(rt)),
            Ok(read) => read,
            Err(error) => match error.kind() {
                ErrorKind::Interrupted => 0,
                ErrorKind::WouldBlock | ErrorKind::TimedOut => return Err(exit_silent(rt)),
                _ => return Err(exit_closed(rt)),
            },
        };
        match self.decoder.feed(&self.piece[..read]) {
            Ok(fed) if fed.fault.is_none() => Ok(fed.messages),
            Ok(_) => Err(exit_with(
                eprintln!(rt; "what answers is no station: name its own port, not its page's"),
                FAULT,
            )),
            Err(NoMemory) => Err(exit_no_memory(rt)),
        }
    }
}

/// The octets of a line of hexadecimal with its line feed; of a comment, and of an empty line,
/// none.
fn octets_of(alloc: Global, line: &mut Vec<u8>) -> Result<Vec<u8>, NoMemory> {
    if line.last() == Some(&b'\n') {
        line.pop();
    }
    let (mut kept, mut octets) = (Vec::new(alloc), Vec::new(alloc));
    match read_octets(text_of(line), &mut kept, &mut octets)? {
        LineText::Octets => Ok(octets),
        LineText::Skipped | LineText::NotHexadecimal => Ok(Vec::new(alloc)),
    }
}

/// The token of the request that these octets are; None where there are none.
fn token_of<R: Print + Eprint>(
    rt: &R,
    alloc: Global,
    octets: &[u8],
) -> Result<Option<Token>, ExitCode> {
    match Decoder::new(alloc).feed(octets) {
        Ok(fed) => match fed.messages.as_slice().first() {
            Some(message) => Ok(Some(message.token())),
            None => Ok(None),
        },
        Err(NoMemory) => Err(exit_no_memory(rt)),
    }
}

/// Prints messages, and says how the request of this token was answered, if one of them is its
/// reply.
fn print_all<R: Print + Eprint>(
    rt: &R,
    alloc: Global,
    messages: &Messages,
    token: Token,
) -> Result<Option<Answered>, ExitCode> {
    let mut answered = None;
    for message in messages.as_slice() {
        if let Some(reply) = print_one(rt, alloc, message)? {
            if message.token() == token {
                answered = Some(reply);
            }
        }
    }
    Ok(answered)
}

/// Prints a message, and says how it answers, if it is a reply.
fn print_one<R: Print + Eprint>(
    rt: &R,
    alloc: Global,
    message: &Message,
) -> Result<Option<Answered>, ExitCode> {
    let Ok(text) = explain(alloc, message) else {
        return Err(exit_no_memory(rt));
    };
    if println!(rt; "{text}").is_err() {
        return Err(exit_unwritten(rt));
    }
    Ok(match text.meaning {
        Meaning::Told(Ok(_)) => Some(Answered::Done),
        Meaning::Numbered(ORIGINATOR_CHANGED) => Some(Answered::Barred),
        Meaning::Told(Err(_)) | Meaning::Numbered(_) => Some(Answered::Refused),
        _ => None,
    })
}

/// The station closed the connection before it replied.
fn exit_closed(rt: &impl Eprint) -> ExitCode {
    exit_with(
        eprintln!(rt;
            "the station closed the connection before it replied: see whether the request was done \
             before you ask again, and that this isn't the port of a page or a feed"
        ),
        FAULT,
    )
}

/// The station ended the session with its reply.
fn exit_barred(rt: &impl Eprint) -> ExitCode {
    exit_with(
        eprintln!(rt;
            "the session has ended: give the lines of one till or dispenser alone, ask at its door \
             if it has one, and not as the house till"
        ),
        FAULT,
    )
}

/// No reply came in time.
fn exit_silent(rt: &impl Eprint) -> ExitCode {
    exit_with(
        eprintln!(rt;
            "no reply came within {REPLY_SECONDS} seconds: \
             see whether the request was done before you ask again"
        ),
        FAULT,
    )
}
