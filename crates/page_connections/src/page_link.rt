//! A connection of the page.

ghost use Rattle.std.specs.Prelude.{◌≡◌, [], OnOk};
ghost use Rattle.site_page.specs.Connections.{AreAnswered};
ghost use Rattle.page_connections.specs.Pages.{calls_of};
ghost use Rattle.page_connections.specs.Pieces.{ReadsOn, unheard_of};

use crate::piece::Piece;
use crate::sizes::{IGNORED_OCTETS, PAGE_SECONDS};
use connection_calls::{CALLS_A_TURN, Call};
use mio::net::TcpStream;
use site_base::NoMemory;
use site_page::{Page, PageConnection};
use std::alloc::Global;
use std::hash::RandomState;
use std::io::{Read, Write};
use std::net::Shutdown;
use std::time::Instant;

/// A connection of the page, and what it has read and not heard.
#[derive(Drop)]
pub(crate) struct PageLink {
    pub(crate) stream: TcpStream,
    connection: PageConnection,
    piece: Piece,
    /// When the peer had taken an answer last, or came.
    since: Instant,
    /// The peer was told that nothing more will come.
    is_shut: bool,
    /// It has a turn in this round.
    pub(crate) is_due: bool,
}

/// How far a connection has come.
#[derive(Clone, Copy, Debug, PartialEq, Eq)]
pub(crate) enum Progress {
    /// It goes on at once.
    GoesOn,
    /// It has sent an answer, and makes the next one in its next turn.
    Answered,
    /// It waits for its peer.
    Waits,
    /// It is to be closed.
    Over,
}

impl PageLink {
    /// The connection of a peer that has just come.
    pub(crate) fn new(
        alloc: Global,
        keys: RandomState,
        stream: TcpStream,
        now: Instant,
    ) -> Result<PageLink, NoMemory> {
        Ok(PageLink {
            stream,
            connection: PageConnection::new(alloc, keys),
            piece: Piece::new(alloc)?,
            since: now,
            is_shut: false,
            is_due: true,
        })
    }

    /// Has its peer been waited for too long? Within ten seconds behind an answer it has to have
    /// asked anew, and to have taken the next one.
    pub(crate) fn is_late(&self, now: Instant) -> bool {
        now.duration_since(self.since).as_secs() >= PAGE_SECONDS
    }

    /// Has its turn: it sends what it owes, and answers what its peer asks by this page. After
    /// `NoMemory` it is to be closed.
    pub(crate) fn take_turn(&mut self, page: &Page<'_>, now: Instant) -> Result<Progress, NoMemory>
        ensures answers { OnOk result
            (AreAnswered page.now (calls_of self.old) (calls_of self.new)) }
        ensures reads { OnOk result (ReadsOn self.old self.new) }
    {
        for _ in 0..CALLS_A_TURN {
            match self.go_on(page, now)? {
                Progress::GoesOn => {}
                end => return Ok(end),
            }
        }
        Ok(Progress::GoesOn)
    }

    /// Takes one step.
    #[tactic(auto, using(crate::proofs::Reading::read_on))]
    fn go_on(&mut self, page: &Page<'_>, now: Instant) -> Result<Progress, NoMemory>
        ensures answers { OnOk result
            (AreAnswered page.now (calls_of self.old) (calls_of self.new)) }
        ensures reads { OnOk result (ReadsOn self.old self.new) }
    {
        if self.connection.owes() {
            return Ok(self.send(now));
        }
        if self.connection.is_over() {
            return Ok(self.end());
        }
        let heard = self.connection.hear(self.piece.unheard(), page)?;
        self.piece.pass(heard);
        if heard > 0 || self.connection.owes() || self.connection.is_over() {
            return Ok(Progress::GoesOn);
        }
        // What it doesn't hear now it never will.
        if !self.piece.unheard().is_empty() {
            return Ok(Progress::Over);
        }
        Ok(self.read())
    }

    /// Sends once of what it owes.
    #[tactic(auto, using(crate::proofs::Reading::read_on))]
    fn send(&mut self, now: Instant) -> Progress
        ensures calls { calls_of self.new ≡ calls_of self.old }
        ensures reads { ReadsOn self.old self.new }
    {
        match self.stream.write(self.connection.owed()) {
            Ok(0) => Progress::Over,
            Ok(n) => {
                self.connection.take(n);
                if self.connection.owes() {
                    return Progress::GoesOn;
                }
                self.since = now;
                if self.connection.is_over() {
                    return Progress::GoesOn;
                }
                Progress::Answered
            }
            Err(error) => progress_after(Call::of_error(&error)),
        }
    }

    /// Reads once of what its peer sends, where each octet is heard.
    fn read(&mut self) -> Progress
        requires { unheard_of self.old.piece ≡ [] }
        ensures calls { calls_of self.new ≡ calls_of self.old }
        ensures reads { ReadsOn self.old self.new }
    {
        progress_after(self.piece.read_from(&mut self.stream))
    }

    #[tactic(auto, using(crate::proofs::Reading::read_on))]
    /// Tells the peer, once, that nothing more will come, and passes over what it still sends: an
    /// answer may be lost where a connection is closed before that is read.
    fn end(&mut self) -> Progress
        ensures calls { calls_of self.new ≡ calls_of self.old }
        ensures reads { ReadsOn self.old self.new }
    {
        if !self.is_shut {
            self.is_shut = true;
            let _ = self.stream.shutdown(Shutdown::Write);
        }
        progress_after(read_ignored(&mut self.stream))
    }
}

/// Reads once from a connection what nobody hears.
fn read_ignored<R: Read>(reader: &mut R) -> Call {
    let mut ignored = [0; IGNORED_OCTETS];
    match reader.read(&mut ignored) {
        Ok(0) => Call::Ended,
        Ok(n) => Call::Passed(n),
        Err(error) => Call::of_error(&error),
    }
}

/// How a connection goes on after a call.
fn progress_after(call: Call) -> Progress {
    match call {
        Call::Passed(_) | Call::Interrupted => Progress::GoesOn,
        Call::Waits => Progress::Waits,
        Call::Ended | Call::Failed => Progress::Over,
    }
}
