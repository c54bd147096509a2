//! A listener in memory.

ghost use Rattle.std.specs.Prelude.{◌≡◌};

use crate::accept::{Accept, NoConnection};
use crate::testing::faulty::Faulty;
use std::alloc::Global;
use std::mem;

/// The octets of replies that a connection over memory takes without an allocation.
const REPLY_ROOM: usize = 4_096;

/// A listener in memory, which has the octets of its connections. One of its calls may fail; a call
/// after the last connection does.
#[derive(Drop)]
pub struct Connections {
    ready: Vec<Vec<u8>>,
    given: usize,
    calls: u64,
    fails_at: u64,
    failures: u64,
}

impl Connections {
    /// Returns a listener of connections with these octets. Its call number `fails_at` fails,
    /// counted from 1; with 0 none does before the last connection.
    pub fn new(ready: Vec<Vec<u8>>, fails_at: u64) -> Connections
        ensures { ⟦<Connections as Accept>⟧.failed result ≡ 0 }
    {
        Connections {
            ready,
            given: 0,
            calls: 0,
            fails_at,
            failures: 0,
        }
    }
}

impl Accept for Connections {
    type Reader = Faulty;

    type Writer = Faulty;

    ghost failed = { λ c. c.failures };

    fn accept(&mut self, alloc: Global) -> Result<(Faulty, Faulty), NoConnection> {
        self.calls = self.calls.saturating_add(1);
        if self.calls == self.fails_at || self.given >= self.ready.len() {
            self.failures = self.failures.saturating_add(1);
            return Err(NoConnection::Failed);
        }
        let Ok(room) = Vec::with_capacity(alloc, REPLY_ROOM) else {
            return Err(NoConnection::NoMemory);
        };
        let octets = mem::replace(&mut self.ready[self.given], Vec::new(alloc));
        self.given += 1;
        let writer = Faulty::new(room, 0, usize::MAX);
        Ok((Faulty::new(octets, 0, usize::MAX), writer))
    }

    fn failures(&self) -> u64 {
        self.failures
    }
}
