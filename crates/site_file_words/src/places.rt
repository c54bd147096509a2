//! Where the tables and the keys of a site file are in its text, which is TOML.

use crate::lines::Span;
use crate::spots::{Owner, Spot, is_same_spot};
use crate::tokens::{Token, TokenKind, tokens_of};
use site_base::NoMemory;
use std::alloc::Global;

/// How many places are kept; a greatest site file has some 1,700.
const MOST_PLACES: usize = 4_096;

/// Where something is: its key, and its value. For a member of a list both are the same.
#[derive(Clone, Copy, Debug)]
pub struct Place<'a> {
    spot: Spot<'a>,
    /// The key.
    pub key: Span,
    /// The value, or the header of the table.
    pub value: Span,
}

/// Returns the place of this spot, if the text shows it.
pub fn find_place<'a>(places: &[Place<'a>], spot: &Spot<'_>) -> Option<Place<'a>> {
    for place in places {
        if is_same_spot(&place.spot, spot) {
            return Some(*place);
        }
    }
    None
}

/// Returns the places of a text. A key that is written with escapes has none.
pub fn places_of(alloc: Global, text: &[u8]) -> Result<Vec<Place<'_>>, NoMemory> {
    let tokens = tokens_of(alloc, text)?;
    let mut scan = Scan::new(alloc, text);
    for token in &tokens {
        scan.take(*token)?;
    }
    Ok(scan.places)
}

/// A step of a path: a key, or a member of a list.
#[derive(Clone, Copy, Debug)]
enum Step<'a> {
    Key(&'a [u8]),
    Member(usize),
}

/// What is read.
#[derive(Clone, Copy, Debug, PartialEq, Eq)]
enum What {
    /// A line `key = value`.
    Line,
    /// A line `[key]`, or `[[key]]` where it is a member.
    Header,
    /// Between `[` and `]`.
    List,
    /// Between `{` and `}`.
    Table,
}

/// How far something is read: the key and the value of its present entry.
#[derive(Clone, Copy, Debug)]
struct Reading {
    what: What,
    is_behind_equals: bool,
    steps: usize,
    key: Option<Span>,
    value: Option<Span>,
    members: usize,
}

impl Reading {
    fn new(what: What) -> Self {
        Reading {
            what,
            is_behind_equals: false,
            steps: 0,
            key: None,
            value: None,
            members: 0,
        }
    }
}

/// How many members of the lists of tables have been begun by headers.
#[derive(Clone, Copy, Debug)]
struct Begun {
    products: usize,
    points: usize,
    nozzles: usize,
}

/// A walk over the pieces of a text.
#[derive(Drop)]
struct Scan<'a> {
    text: &'a [u8],
    header: Vec<Step<'a>>,
    path: Vec<Step<'a>>,
    reading: Reading,
    outer: Vec<Reading>,
    begun: Begun,
    places: Vec<Place<'a>>,
}

impl<'a> Scan<'a> {
    fn new(alloc: Global, text: &'a [u8]) -> Self {
        Scan {
            text,
            header: Vec::new(alloc),
            path: Vec::new(alloc),
            reading: Reading::new(What::Line),
            outer: Vec::new(alloc),
            begun: Begun {
                products: 0,
                points: 0,
                nozzles: 0,
            },
            places: Vec::new(alloc),
        }
    }

    fn take(&mut self, token: Token) -> Result<(), NoMemory> {
        match self.reading.what {
            What::Header => self.take_in_header(token),
            What::List => self.take_in_value(token),
            What::Line | What::Table => {
                if self.reading.is_behind_equals {
                    self.take_in_value(token)
                } else {
                    self.take_in_key(token)
                }
            }
        }
    }

    fn take_in_key(&mut self, token: Token) -> Result<(), NoMemory> {
        let is_line = self.reading.what == What::Line;
        match token.kind {
            TokenKind::Word | TokenKind::Quoted => self.take_step(token),
            TokenKind::Mark(b'=') => {
                self.reading.is_behind_equals = true;
                Ok(())
            }
            TokenKind::Mark(b'[') if is_line => {
                self.path.clear();
                self.reading = Reading::new(What::Header);
                self.reading.key = Some(token.span);
                Ok(())
            }
            TokenKind::Mark(b'}') if !is_line => self.close(token),
            TokenKind::Newline if is_line => self.finish_entry(),
            _ => Ok(()),
        }
    }

    /// A key, or a part of a dotted one.
    fn take_step(&mut self, token: Token) -> Result<(), NoMemory> {
        self.path.push(Step::Key(name_of(self.text, token)))?;
        self.reading.steps = self.reading.steps.saturating_add(1);
        self.reading.key = Some(joined(self.reading.key, token.span));
        Ok(())
    }

    fn take_in_header(&mut self, token: Token) -> Result<(), NoMemory> {
        match token.kind {
            TokenKind::Newline => self.finish_header(),
            TokenKind::Word | TokenKind::Quoted => self.take_step(token),
            TokenKind::Mark(b'[') => {
                self.reading.members = 1;
                Ok(())
            }
            TokenKind::Mark(_) => {
                self.reading.key = Some(joined(self.reading.key, token.span));
                Ok(())
            }
        }
    }

    fn take_in_value(&mut self, token: Token) -> Result<(), NoMemory> {
        match (self.reading.what, token.kind) {
            (What::Line, TokenKind::Newline) => self.finish_entry(),
            (_, TokenKind::Newline) => Ok(()),
            (What::List | What::Table, TokenKind::Mark(b',')) => self.finish_entry(),
            (What::List, TokenKind::Mark(b']')) => self.close(token),
            (What::Table, TokenKind::Mark(b'}')) => self.close(token),
            (_, TokenKind::Mark(b'[')) => self.open(token, What::List),
            (_, TokenKind::Mark(b'{')) => self.open(token, What::Table),
            _ => self.go_on(token),
        }
    }

    /// The piece belongs to the present value.
    fn go_on(&mut self, token: Token) -> Result<(), NoMemory> {
        if self.reading.what == What::List && self.reading.value.is_none() {
            let member = self.reading.members.saturating_add(1);
            self.path.push(Step::Member(member))?;
            self.reading.members = member;
            self.reading.steps = 1;
        }
        self.reading.value = Some(joined(self.reading.value, token.span));
        Ok(())
    }

    fn open(&mut self, token: Token, what: What) -> Result<(), NoMemory> {
        self.go_on(token)?;
        self.outer.push(self.reading)?;
        self.reading = Reading::new(what);
        Ok(())
    }

    fn close(&mut self, token: Token) -> Result<(), NoMemory> {
        self.finish_entry()?;
        if let Some(outer) = self.outer.pop() {
            self.reading = outer;
            self.reading.value = Some(joined(outer.value, token.span));
        }
        Ok(())
    }

    /// Keeps where the present entry stands, and begins the next one.
    fn finish_entry(&mut self) -> Result<(), NoMemory> {
        if let Some(value) = self.reading.value {
            self.keep(self.reading.key.unwrap_or(value), value)?;
        }
        for _ in 0..self.reading.steps {
            let _ = self.path.pop();
        }
        let members = self.reading.members;
        self.reading = Reading::new(self.reading.what);
        self.reading.members = members;
        Ok(())
    }

    /// Keeps the place of the path, if a site file knows it.
    fn keep(&mut self, key: Span, value: Span) -> Result<(), NoMemory> {
        if self.places.len() < MOST_PLACES {
            if let Some(spot) = spot_of(self.path.as_slice()) {
                self.places.push(Place { spot, key, value })?;
            }
        }
        Ok(())
    }

    /// The keys of the lines below a header begin with its own.
    fn finish_header(&mut self) -> Result<(), NoMemory> {
        let is_member = self.reading.members > 0;
        if let Some(span) = self.reading.key {
            self.begin_table(span, is_member)?;
        }
        self.reading = Reading::new(What::Line);
        Ok(())
    }

    fn begin_table(&mut self, span: Span, is_member: bool) -> Result<(), NoMemory> {
        self.header.clear();
        self.header.extend_from_slice(self.path.as_slice())?;
        self.path.clear();
        let last = self.header.len().saturating_sub(1);
        for place in 0..self.header.len() {
            if let Some(step) = self.header.as_slice().get(place).copied() {
                self.path.push(step)?;
            }
            if place == last {
                self.keep(span, span)?;
            }
            if let Some(member) = self.begin_member(is_member && place == last) {
                self.path.push(Step::Member(member))?;
            }
        }
        self.keep(span, span)
    }

    /// The member of the list at the path that the headers have begun last; the next one, if it
    /// begins now.
    fn begin_member(&mut self, is_next: bool) -> Option<usize> {
        let more = if is_next { 1 } else { 0 };
        let begun = self.begun;
        let member = match spot_of(self.path.as_slice()) {
            Some(Spot::Value(Owner::File, b"product")) => {
                self.begun.products = begun.products.saturating_add(more);
                self.begun.products
            }
            Some(Spot::Value(Owner::File, b"point")) => {
                self.begun.points = begun.points.saturating_add(more);
                if is_next {
                    self.begun.nozzles = 0;
                }
                self.begun.points
            }
            Some(Spot::Value(Owner::Point(_), b"nozzles")) => {
                self.begun.nozzles = begun.nozzles.saturating_add(more);
                self.begun.nozzles
            }
            _ => 0,
        };
        if member == 0 { None } else { Some(member) }
    }
}

/// From the front of one to the end of the other.
fn joined(front: Option<Span>, back: Span) -> Span {
    match front {
        Some(front) => Span {
            start: front.start,
            end: back.end,
        },
        None => back,
    }
}

/// The name that a piece writes, without its quotation marks.
fn name_of(text: &[u8], token: Token) -> &[u8] {
    let name = text.get(token.span.start..token.span.end).unwrap_or(b"");
    match (token.kind, name) {
        (TokenKind::Quoted, [b'"', inner @ .., b'"']) => inner,
        (TokenKind::Quoted, [b'\'', inner @ .., b'\'']) => inner,
        _ => name,
    }
}

/// What a site file has at a path.
fn spot_of<'a>(path: &[Step<'a>]) -> Option<Spot<'a>> {
    match path {
        [Step::Key(key)] => Some(Spot::Value(Owner::File, key)),
        [Step::Key(b"managers"), Step::Member(place)] => Some(Spot::Manager(*place)),
        [Step::Key(b"product"), Step::Member(place), rest @ ..] => {
            spot_in(Owner::Product(*place), rest)
        }
        [
            Step::Key(b"point"),
            Step::Member(point),
            Step::Key(b"nozzles"),
            Step::Member(place),
            rest @ ..,
        ] => { spot_in(Owner::Nozzle(*point, *place), rest) }
        [Step::Key(b"point"), Step::Member(place), rest @ ..] => {
            spot_in(Owner::Point(*place), rest)
        }
        _ => None,
    }
}

/// What a table has at the rest of a path.
fn spot_in<'a>(owner: Owner, rest: &[Step<'a>]) -> Option<Spot<'a>> {
    match rest {
        [] => Some(Spot::Whole(owner)),
        [Step::Key(key)] => Some(Spot::Value(owner, key)),
        _ => None,
    }
}
