//! A counter that notes its calls.

use super::peers::Told;
use site_base::{Actor, Event, NoRow, Reply, TillNo};
use till_session::Counter;

/// A call of a counter.
#[derive(Clone, Copy, PartialEq, Eq, Debug)]
pub enum Call {
    Asked,
    Written,
    Left(TillNo),
}

/// Of so many requests, the first ones, it is noted how much the peer was told by then.
const FIRST: usize = 3;

/// What was noted.
#[derive(Clone, Copy, Debug)]
pub struct Noted {
    /// The last call.
    pub last: Option<Call>,
    /// How many requests were asked.
    pub asked: usize,
    /// How many replies were written.
    pub written: usize,
    /// The number of octets that the peer had when each of the first requests was asked.
    pub told_before: [u64; FIRST],
    /// The number of octets that it had when the reply to each was reported as written.
    pub told_after: [u64; FIRST],
}

/// A counter that passes its calls on, and notes them.
pub struct Noting<K> {
    counter: K,
    told: Told,
    noted: Noted,
}

impl<K: Counter> Noting<K> {
    /// Returns a counter that passes its calls on to another one, for a session whose peer has this
    /// many octets.
    pub fn new(counter: K, told: Told) -> Noting<K> {
        Noting {
            counter,
            told,
            noted: Noted {
                last: None,
                asked: 0,
                written: 0,
                told_before: [0; FIRST],
                told_after: [0; FIRST],
            },
        }
    }

    /// Returns what was noted, and the counter.
    pub fn into_parts(self) -> (Noted, K) {
        let Noting {
            counter,
            told: _,
            noted,
        } = self;
        (noted, counter)
    }
}

impl<K: Counter> Counter for Noting<K> {
    ghost rows = { λ n. K.rows n.counter };

    ghost owes = { λ n. K.owes n.counter };

    fn ask(&mut self, actor: Actor, event: Event) -> Result<Reply, NoRow> {
        self.noted.last = Some(Call::Asked);
        if let Some(told) = self.noted.told_before.get_mut(self.noted.asked) {
            *told = self.told.get();
        }
        self.noted.asked = self.noted.asked.saturating_add(1);
        self.counter.ask(actor, event)
    }

    fn note_written(&mut self, actor: Actor) {
        self.noted.last = Some(Call::Written);
        if let Some(told) = self.noted.told_after.get_mut(self.noted.written) {
            *told = self.told.get();
        }
        self.noted.written = self.noted.written.saturating_add(1);
        self.counter.note_written(actor);
    }

    fn leave(&mut self, till: TillNo) {
        self.noted.last = Some(Call::Left(till));
        self.counter.leave(till);
    }
}
