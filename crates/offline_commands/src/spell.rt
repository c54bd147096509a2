//! `forecourt spell`: turns a day in words into the lines of hexadecimal that the other commands
//! read.

use devices::{Counted, ReadFault, write_whole};
use forecourt_engines::words::{LineFault, Token, WordFault, spell_line};
use forecourt_engines::{ReplayFault, TextFault};
use hex_lines::LINE_OCTETS;
use program_io::{FAULT, TURNS, exit_no_memory, exit_replay, exit_unwritten, exit_with, read_line};
use std::io;
use std::io::{BufReader, Read};
use std::process::ExitCode;

/// This many octets are printed at once.
const TEXT_OCTETS: usize = 65_536;

/// Turns each line of this input into a message. At the first line that it can't parse it stops
/// with status 1, and prints the messages of earlier lines.
pub fn run_spell<R: Print + Eprint + AllocGlobal, I: Read + Drop>(rt: &R, input: I) -> ExitCode {
    let alloc = rt.alloc();
    let mut reader = match BufReader::new(alloc, input) {
        Ok(reader) => reader,
        Err(_) => return exit_no_memory(rt),
    };
    let (mut line, mut text) = (Vec::new(alloc), Vec::new(alloc));
    let mut next = Token::new(1).unwrap();
    for number in 1..u64::MAX {
        match read_line(rt, &mut reader, &mut line) {
            Ok(true) => {}
            Ok(false) => return print_last(rt, &mut text, ExitCode::SUCCESS),
            Err(status) => return print_last(rt, &mut text, status),
        }
        match spell_next(rt, number, &line, next, &mut text) {
            Ok(then) => next = then,
            Err(status) => return status,
        }
    }
    // No text has so many lines.
    exit_replay(rt, Some(ReplayFault::Read(ReadFault::TurnLimit)))
}

/// Spells the line of this number, and prints what was spelled where it is much. The answer is the
/// next token, or how the program ends.
fn spell_next<R: Print + Eprint + AllocGlobal>(
    rt: &R,
    number: u64,
    line: &[u8],
    next: Token,
    text: &mut Vec<u8>,
) -> Result<Token, ExitCode> {
    if line.len() > LINE_OCTETS {
        print_text(rt, text)?;
        return Err(exit_replay(rt, Some(ReplayFault::Text(TextFault::TooLong(number)))));
    }
    match spell_line(rt.alloc(), line, next, text) {
        Ok(then) => {
            if text.len() >= TEXT_OCTETS {
                print_text(rt, text)?;
            }
            Ok(then)
        }
        Err(LineFault::NoMemory) => Err(exit_no_memory(rt)),
        Err(LineFault::Wrong(wrong)) => {
            print_text(rt, text)?;
            let fault = WordFault { line, wrong };
            Err(exit_with(eprintln!(rt; "line {number}: {fault}"), FAULT))
        }
    }
}

/// Prints what was spelled, and ends so.
fn print_last<R: Print + Eprint>(rt: &R, text: &mut Vec<u8>, status: ExitCode) -> ExitCode {
    match print_text(rt, text) {
        Ok(()) => status,
        Err(status) => status,
    }
}

/// Prints what was spelled, or says that standard output takes no more.
fn print_text<R: Print + Eprint>(rt: &R, text: &mut Vec<u8>) -> Result<(), ExitCode> {
    let mut turns = TURNS;
    match write_whole(&mut Counted::new(io::writer(rt)), text, &mut turns) {
        Ok(()) => {
            text.clear();
            Ok(())
        }
        Err(_) => Err(exit_unwritten(rt)),
    }
}
