//! A gate for tests of workers in parallel.

use crate::gate::Gate;
use site_base::Actor;
use std::sync::atomic::{AtomicU64, Ordering};
use std::thread;

/// Holds one actor before the lock until another one was answered, for at most a given number of
/// turns.
#[derive(Drop)]
pub struct HoldingGate {
    held: Actor,
    answered: AtomicU64,
    gave_up: AtomicU64,
}

impl HoldingGate {
    /// Returns a gate that holds this actor.
    pub fn new(held: Actor) -> HoldingGate {
        HoldingGate {
            held,
            answered: AtomicU64::new(0),
            gave_up: AtomicU64::new(0),
        }
    }

    /// Was the actor let through before another one was answered, because the turns were used up?
    pub fn has_given_up(&self) -> bool {
        self.gave_up.load(Ordering::SeqCst) != 0
    }
}

impl Gate for HoldingGate {
    fn before_lock(&self, actor: Actor) {
        if actor != self.held {
            return;
        }
        for turn in 0..100_000_000u64 {
            if self.answered.load(Ordering::SeqCst) != 0 {
                return;
            }
            if turn % 64 == 0 {
                thread::yield_now();
            }
        }
        self.gave_up.store(1, Ordering::SeqCst);
    }

    fn after_reply(&self, actor: Actor) {
        if actor != self.held {
            self.answered.store(1, Ordering::SeqCst);
        }
    }
}
