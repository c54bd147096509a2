//! A reader without the byte order mark that its input may begin with.
ghost use Rattle.std.specs.Prelude.{◌≡◌, ℕ, ◌+◌, ◌≤◌, ◌<◌, List, [], ◌∷◌, ◌++◌, length, take};
ghost use Rattle.std.specs.Prelude.{IfOk, IsFalse, IsOk, IsTrue, option_map};
ghost use Rattle.std.specs.Io.{ReadsAtMost};
ghost use Rattle.std.specs.Io.KnownBytes.{ReadConsumes};
ghost use Rattle.unmarked_input.specs.Mark.{mark, without_mark};

use std::io::{self, Read};

/// The byte order mark in UTF-8.
const MARK: [u8; 3] = [0xEF, 0xBB, 0xBF];

/// A text without the mark, if it begins with one.
pub fn skip_mark(text: &[u8]) -> &[u8]
    ensures { result.now ≡ without_mark text.now }
{
    text.strip_prefix(&MARK).unwrap_or(text)
}

/// How an input begins.
#[derive(Clone, Copy)]
enum Beginning {
    /// With the mark, and nothing more was read.
    Mark,
    /// With a part of the mark, or nothing was read.
    Unknown,
    /// Without the mark.
    Text,
}

/// How an input begins whose first octets are these.
fn find_beginning(front: &[u8]) -> Beginning
    requires { length front.now ≤ 3 }
    ensures marked { result ≡ Beginning.Mark → front.now ≡ mark }
    ensures unknown { result ≡ Beginning.Unknown → length front.now < 3 }
    ensures unmarked { result ≡ Beginning.Text → (rest : List ℕ)
        → without_mark (front.now ++ rest) ≡ front.now ++ rest }
{
    if front == MARK.as_slice() {
        return Beginning::Mark;
    }
    if front.len() < MARK.len() && MARK.starts_with(front) {
        return Beginning::Unknown;
    }
    Beginning::Text
}

/// A reader without the byte order mark that its input may begin with.
///
/// The first reads look for the mark, an octet of the input at a time, and no further than they
/// have to. What they read is given first, unless it is the mark. Then each read is one of the
/// input.
#[derive(Debug, Drop)]
pub struct Unmarked<R> {
    input: R,
    // The first octets of the input, as far as `end`. Those from `start` on are held.
    front: [u8; 3],
    start: usize,
    end: usize,
    is_looking: bool,
    ghost in_order: { start ≤ end },
    ghost fits: { end ≤ length front },
    ghost room: { IsTrue is_looking → end < 3 },
    ghost none_given: { IsTrue is_looking → start ≡ 0 },
}

impl<R: Read> Unmarked<R> {
    ghost use Rattle.unmarked_input.specs.Unmarked.{unmarked_left};

    /// A reader of this input. It reads nothing yet.
    pub fn new(input: R) -> Unmarked<R>
        ensures { unmarked_left R.remaining result ≡ option_map without_mark (R.remaining input) }
    {
        Unmarked {
            input,
            front: MARK,
            start: 0,
            end: 0,
            is_looking: true,
        }
    }
}

impl<R> Unmarked<R> {
    ghost use Rattle.unmarked_input.specs.Unmarked.{held_of, input_of, is_looking};
    ghost use Rattle.unmarked_input.specs.Unmarked.{looked_at, text_with};

    /// Takes the next octet of the input, which may be of the mark.
    fn note(&mut self, octet: u8)
        requires { IsTrue (is_looking self.old) }
        ensures text { (octets : List ℕ)
            → text_with self.new octets ≡ text_with self.old (octet ∷ octets) }
        ensures looked { looked_at self.new ≡ looked_at self.old + 1 }
        ensures input { input_of self.new ≡ input_of self.old }
    {
        self.front[self.end] = octet;
        self.end += 1;
        match find_beginning(&self.front[..self.end]) {
            Beginning::Unknown => {}
            Beginning::Text => self.is_looking = false,
            Beginning::Mark => {
                self.is_looking = false;
                self.start = self.end;
            }
        }
    }

    /// Gives of the octets that are held as many as there is room for.
    fn give(&mut self, buf: &mut [u8]) -> io::Result<usize>
        requires { IsFalse (is_looking self.old) }
        ensures ok { IsOk result }
        ensures bound { ReadsAtMost result buf.new }
        ensures held { IfOk result (λ n. held_of self.old ≡ take n buf.new ++ held_of self.new) }
        ensures none { IfOk result (λ n. n ≡ 0 → 0 < length buf.new → held_of self.old ≡ []) }
        ensures known { IsFalse (is_looking self.new) }
        ensures input { input_of self.new ≡ input_of self.old }
    {
        let mut held = &self.front[self.start..self.end];
        let n = held.read(buf)?;
        self.start += n;
        Ok(n)
    }
}

impl<R: Read> Read for Unmarked<R> {
    ghost use Rattle.unmarked_input.specs.Unmarked.{unmarked_left};

    ghost remaining = { unmarked_left R.remaining };

    /// Reads what the input has, without the mark. An error of the input loses nothing: the next
    /// read goes on.
    fn read(&mut self, buf: &mut [u8]) -> io::Result<usize>
        ensures bound { ReadsAtMost result buf.new }
        ensures bytes { ReadConsumes (unmarked_left R.remaining self.old)
            (unmarked_left R.remaining self.new)
            result buf.new }
    {
        if buf.is_empty() {
            return Ok(0);
        }
        while self.is_looking {
            let mut octet = [0];
            if self.input.read(&mut octet)? == 0 {
                self.is_looking = false;
                return self.give(buf);
            }
            self.note(octet[0]);
        }
        if self.start < self.end {
            return self.give(buf);
        }
        self.input.read(buf)
    }
}
