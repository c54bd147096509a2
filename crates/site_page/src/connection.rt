//! One peer's connection.

ghost use Rattle.std.specs.Prelude.{◌≡◌, ◌≤◌, ◌<◌, ◌↔◌, length, IfOk, OnOk, IsTrue};
ghost use Rattle.bytes.specs.Unread.{IsChunkOf};
ghost use Rattle.http_server.specs.History.{IsDone, IsServed, after_sent, new_history};
ghost use Rattle.site_page.specs.Connections.{AreAnswered, IsHeard, history, limits_of};

use crate::page::Page;
use http_server::{Config, Connection};
use site_base::NoMemory;
use std::alloc::Global;
use std::hash::RandomState;

/// While more octets than this wait to be sent, no request is answered.
const MOST_OWED: usize = 16_384;

/// The longest body of a request. None is looked at.
const MOST_BODY: usize = 1_024;

/// A connection of HTTP/1.1 as steps over octets. While it has no pending octets, and isn't over,
/// it hears what the peer sends. Its pending octets are sent, and taken from it. Then its caller
/// lets it hear no octets once, because what it heard before may have more requests. So a peer that
/// asks without end never has much pending output. Contracts see its `history`.
#[derive(Drop)]
pub struct PageConnection {
    connection: Connection,
}

impl PageConnection {
    /// Returns the connection of a peer that has sent nothing. It takes no memory.
    pub fn new(alloc: Global, keys: RandomState) -> Self
        ensures { history result ≡ new_history }
    {
        let config = Config {
            max_body_len: MOST_BODY,
            max_pending: MOST_OWED,
            ..Config::default()
        };
        PageConnection {
            connection: Connection::new(alloc, keys, config),
        }
    }

    /// Hears octets of the peer, and answers each whole request by this page. Returns how many
    /// octets it heard: none if there are pending octets, or if the connection ends. Drop the
    /// connection after `NoMemory`.
    #[tactic(auto, using(crate::proofs::Calls::none_answered, crate::proofs::Calls::none_heard))]
    pub fn hear(&mut self, octets: &[u8], page: &Page<'_>) -> Result<usize, NoMemory>
        ensures heard { IfOk result (λ count.
            IsHeard octets.now count (history self.old) (history self.new)) }
        ensures answers { IfOk result (λ count. AreAnswered page.now
            (history self.old).calls (history self.new).calls) }
        ensures limits { limits_of self.new ≡ limits_of self.old }
    {
        if self.connection.wants_write() {
            return Ok(0);
        }
        let heard = self.read(octets)?;
        self.answer(page)?;
        Ok(heard)
    }

    /// Are there pending octets?
    pub fn owes(&self) -> bool
        ensures { IsTrue result ↔ (0 < length (history self.now).pending) }
    {
        self.connection.wants_write()
    }

    /// Returns the next pending octets: at least one if there are any.
    pub fn owed(&self) -> &[u8]
        ensures { IsChunkOf result.now (history self.now).pending }
    {
        self.connection.output()
    }

    /// Notes that this many of the pending octets were sent.
    pub fn take(&mut self, count: usize)
        requires { count ≤ length (history self.old).pending }
        ensures history { history self.new ≡ after_sent (history self.old) count }
        ensures limits { limits_of self.new ≡ limits_of self.old }
    {
        self.connection.sent(count);
    }

    /// Is the connection over, so that it has to be closed? Then it has no pending octets.
    pub fn is_over(&self) -> bool
        ensures { IsTrue result ↔ IsDone (history self.now) }
    {
        self.connection.is_done()
    }

    /// States that what it sent, with its pending octets, answers what it heard, whatever came and
    /// however it was cut.
    pub fn is_served(&self)
        ensures { ∥ IsServed (limits_of self.now) (history self.now) ∥₁ }
    {}

    /// Takes octets of the peer, and answers nothing yet.
    #[tactic(auto, using(crate::proofs::Calls::none_heard, crate::proofs::Calls::read_heard))]
    fn read(&mut self, octets: &[u8]) -> Result<usize, NoMemory>
        ensures heard { IfOk result (λ count.
            IsHeard octets.now count (history self.old) (history self.new)) }
        ensures calls { (history self.new).calls ≡ (history self.old).calls }
        ensures limits { limits_of self.new ≡ limits_of self.old }
    {
        if octets.is_empty() || !self.connection.wants_read() {
            return Ok(0);
        }
        let mut rest = octets;
        match self.connection.read_from(&mut rest) {
            Ok(count) => Ok(count),
            // Octets in memory fail in no other way.
            Err(_) => Err(NoMemory),
        }
    }

    /// Answers each request that is whole.
    fn answer(&mut self, page: &Page<'_>) -> Result<(), NoMemory>
        ensures received { OnOk result
            ((history self.new).received ≡ (history self.old).received) }
        ensures answers { OnOk result (AreAnswered page.now
            (history self.old).calls (history self.new).calls) }
        ensures limits { limits_of self.new ≡ limits_of self.old }
    {
        let mut shared = page.share();
        self.connection.advance(&mut shared);
        Ok(())
    }
}
