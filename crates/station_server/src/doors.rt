//! The listeners of the doors, and of the feed's door.

use connection_calls::{Caller, accept_at_door};
use mio::net::{UnixListener, UnixStream};
use mio::{Interest, Poll, Token};
use site_base::NoMemory;
use std::alloc::Global;
use std::io;

/// What a new connection of the first door is reported under; those of the others follow.
const FIRST_DOOR: usize = usize::MAX - 1_024;

/// The listeners of the doors, by the doors' places, and that of the feed's door, if there is one.
#[derive(Drop)]
pub struct Doors {
    doors: Vec<Door>,
    feed: Option<UnixListener>,
}

/// A door, and whether connections may wait there to be accepted.
#[derive(Drop)]
struct Door {
    listener: UnixListener,
    has_callers: bool,
}

impl Doors {
    /// Returns a list without doors.
    pub fn new(alloc: Global) -> Doors {
        Doors {
            doors: Vec::new(alloc),
            feed: None,
        }
    }

    /// Sets the listener of the feed's door.
    pub fn set_feed(&mut self, listener: UnixListener) {
        self.feed = Some(listener);
    }

    /// Is there a door for the feed?
    pub fn has_feed(&self) -> bool {
        self.feed.is_some()
    }

    /// The feed's door, if there is one, which is none of these then.
    pub(crate) fn take_feed(&mut self) -> Option<UnixListener> {
        self.feed.take()
    }

    /// Adds a door that has this listener.
    pub fn add(&mut self, listener: UnixListener) -> Result<(), NoMemory> {
        self.doors.push(Door {
            listener,
            has_callers: false,
        })?;
        Ok(())
    }

    /// Returns the number of doors. The feed's isn't counted.
    pub fn len(&self) -> usize {
        self.doors.len()
    }

    /// Each door's listener is watched.
    pub(crate) fn watch(&mut self, poll: &Poll) -> io::Result<()> {
        for place in 0..self.doors.len() {
            if let Some(door) = self.doors.get_mut(place) {
                let token = Token(FIRST_DOOR.saturating_add(place));
                poll.registry()
                    .register(&mut door.listener, token, Interest::READABLE)?;
            }
        }
        Ok(())
    }

    /// Connections wait at the door that is reported under this token, if it is one of a door; else
    /// false.
    pub(crate) fn note_callers(&mut self, token: Token) -> bool {
        let Some(place) = token.0.checked_sub(FIRST_DOOR) else {
            return false;
        };
        match self.doors.get_mut(place) {
            Some(door) => {
                door.has_callers = true;
                true
            }
            None => false,
        }
    }

    /// A door at which connections may still wait is reported once more.
    pub(crate) fn watch_again(&mut self, poll: &Poll, place: usize) {
        if let Some(door) = self.doors.get_mut(place) {
            door.has_callers = false;
            let token = Token(FIRST_DOOR.saturating_add(place));
            let _ = poll
                .registry()
                .reregister(&mut door.listener, token, Interest::READABLE);
        }
    }

    /// May connections wait at this door?
    pub(crate) fn has_callers(&self, place: usize) -> bool {
        self.doors.get(place).is_some_and(|door| door.has_callers)
    }

    /// May connections wait at a door?
    pub(crate) fn have_callers(&self) -> bool {
        self.doors.iter().any(|door| door.has_callers)
    }

    /// Accepts one connection that waits at this door. Where none does, none is looked for until
    /// one is reported.
    pub(crate) fn accept(&mut self, place: usize) -> Caller<UnixStream> {
        let Some(door) = self.doors.get_mut(place) else {
            return Caller::None;
        };
        let caller = accept_at_door(&door.listener);
        match &caller {
            Caller::None => door.has_callers = false,
            _ => {}
        }
        caller
    }
}
