//! Counts how often a line is written.

use std::alloc::Global;
use std::mem;
use std::time::Instant;

/// So many lines of a text are written in a second at most.
const LINES_A_SECOND: u64 = 10;

/// So many texts are told apart in a second.
const TEXTS: usize = 64;

/// The texts of the current second, and how many lines of each came.
#[derive(Drop)]
pub struct LineTally {
    alloc: Global,
    /// When the second began.
    since: Option<Instant>,
    texts: Vec<Text>,
    /// Lines of texts that had no place here.
    others: u64,
}

/// A text, and how many lines of it came.
#[derive(Drop)]
struct Text {
    text: String,
    count: u64,
}

impl LineTally {
    /// Returns a tally without lines.
    pub fn new(alloc: Global) -> LineTally {
        LineTally {
            alloc,
            since: None,
            texts: Vec::new(alloc),
            others: 0,
        }
    }

    /// Have no lines come?
    pub fn is_empty(&self) -> bool {
        self.texts.is_empty() && self.others == 0
    }

    /// Is the second over?
    pub fn is_over(&self, now: Option<Instant>) -> bool {
        match (self.since, now) {
            (Some(since), Some(now)) => now.duration_since(since).as_secs() > 0,
            _ => false,
        }
    }

    /// Returns what was counted, and empties the tally. A new second begins with the next line.
    pub fn take(&mut self) -> LineTally {
        mem::replace(self, LineTally::new(self.alloc))
    }

    /// Counts a line. Returns whether it is one of the first of its text in this second, and so may
    /// be written.
    pub fn count(&mut self, line: &str, now: Option<Instant>) -> bool {
        if self.is_empty() {
            self.since = now;
        }
        let text = text_of(line);
        for known in &mut self.texts {
            if known.text.as_str() == text {
                known.count = known.count.saturating_add(1);
                return known.count <= LINES_A_SECOND;
            }
        }
        if self.texts.len() < TEXTS && self.add(text) {
            return true;
        }
        self.others = self.others.saturating_add(1);
        false
    }

    /// One more text; false where memory is wanting.
    fn add(&mut self, text: &str) -> bool {
        match text.to_string(self.alloc) {
            Ok(text) => self.texts.push(Text { text, count: 1 }).is_ok(),
            Err(_) => false,
        }
    }

    /// Prints how many lines were left out.
    pub fn tell<E: Eprint>(self, output: &E) {
        for known in &self.texts {
            if known.count > LINES_A_SECOND {
                let more = known.count - LINES_A_SECOND;
                let text = known.text.as_str();
                let _ = eprintln!(output; "{more} more in a second: {text}");
            }
        }
        if self.others > 0 {
            let others = self.others;
            let _ = eprintln!(output; "{others} more lines in a second");
        }
    }
}

/// The text of a line: what it says, without whose session it says it of, and without the system's
/// reason.
fn text_of(line: &str) -> &str {
    match line.split_once(": ") {
        Some((whose, text)) if whose.starts_with("session of ") => text,
        Some(("cannot accept", _)) => "cannot accept",
        _ => line,
    }
}
