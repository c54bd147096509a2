//! Accepts the connections that wait at the doors and over TCP.

ghost use Rattle.std.specs.Prelude.{None, Some};
ghost use Rattle.peer_connections.specs.Allowed.{IsDismissal, IsWelcome};
ghost use Rattle.peer_connections.specs.Reaches.{Reaches, ReachesBy};

use crate::listeners::{LISTENER, accept_at};
use crate::server::StationServer;
use crate::sizes::ACCEPTS_A_ROUND;
use connection_calls::{ACCEPTS_A_TURN, Caller};
use journal::Disk;
use mio::Interest;
use mio::net::{TcpStream, UnixStream};
use peer_connections::{Connections, PeerStream};
use std::io;

/// How accepting goes on.
#[derive(Clone, Copy, Debug, PartialEq, Eq)]
enum Accepting {
    /// Others may wait.
    GoesOn,
    /// None waits, or it failed.
    IsOver,
    /// Others may wait, and are accepted once those that came were heard.
    Later,
}

impl StationServer {
    /// Accepts the connections that wait, at the doors and over TCP, unless accepting has failed.
    #[tactic(auto, using(crate::proofs::Rounds::moved))]
    pub(crate) fn accept_waiting<R: Eprint, D: Disk>(
        &mut self,
        rt: &R,
        connections: &mut Connections<D, PeerStream>,
    )
        ensures { Reaches connections.old.stored connections.new.stored }
    {
        if self.is_refused {
            return;
        }
        // Doors first: where descriptors are few, the port takes each one that is free.
        self.accept_at_doors(rt, connections);
        self.accept_on_port(rt, connections);
        if !self.may_have_more && !self.has_callers && !self.doors.have_callers() {
            self.has_told = false;
        }
    }

    /// Accepts the connections that wait over TCP, if some do.
    #[tactic(auto, using(crate::proofs::Rounds::moved))]
    fn accept_on_port<R: Eprint, D: Disk>(
        &mut self,
        rt: &R,
        connections: &mut Connections<D, PeerStream>,
    )
        ensures { ReachesBy (IsWelcome None) connections.old.stored connections.new.stored }
    {
        if self.has_callers || self.has_more_callers {
            self.accept_all(rt, connections);
        }
    }

    /// Accepts the connections that wait at the doors, as `accept_all` does.
    #[tactic(auto, using(crate::proofs::Rounds::moved))]
    fn accept_at_doors<R: Eprint, D: Disk>(
        &mut self,
        rt: &R,
        connections: &mut Connections<D, PeerStream>,
    )
        ensures { Reaches connections.old.stored connections.new.stored }
    {
        for place in 0..self.doors.len() {
            if self.doors.has_callers(place) {
                self.accept_at_door(rt, connections, place);
            }
        }
    }

    /// Accepts the connections that wait at the door of this place.
    #[tactic(auto, using(crate::proofs::Rounds::moved))]
    fn accept_at_door<R: Eprint, D: Disk>(
        &mut self,
        rt: &R,
        connections: &mut Connections<D, PeerStream>,
        place: usize,
    )
        ensures { ReachesBy (IsWelcome (Some place)) connections.old.stored connections.new.stored }
    {
        for _ in 0..ACCEPTS_A_TURN {
            match self.welcome_next_at(rt, connections, place) {
                Accepting::GoesOn => {}
                Accepting::IsOver => return,
                Accepting::Later => break,
            }
        }
        self.may_have_more = true;
        self.doors.watch_again(&self.poll, place);
    }

    /// Accepts one connection that waits at the door of this place, and its peer gets a place.
    #[tactic(auto, using(crate::proofs::Rounds::moved))]
    fn welcome_next_at<R: Eprint, D: Disk>(
        &mut self,
        rt: &R,
        connections: &mut Connections<D, PeerStream>,
        place: usize,
    ) -> Accepting
        ensures { ReachesBy (IsWelcome (Some place)) connections.old.stored connections.new.stored }
    {
        match self.accept_one_at(connections, place) {
            Caller::Came(stream) => {
                self.has_accepted = true;
                let registry = self.poll.registry();
                let stream = PeerStream::Unix(stream);
                connections.welcome_at(registry, rt, place, stream, self.rounds.waited());
                Accepting::GoesOn
            }
            Caller::Gone => Accepting::GoesOn,
            Caller::None => Accepting::IsOver,
            Caller::Failed(error) => self.note_failed(rt, &error),
        }
    }

    /// Accepts one connection that waits at the door of this place. Where that fails, a peer over
    /// TCP leaves that waits without a whole message, and it is tried once more; but not in a round
    /// in which one came: that one is heard first, and without a descriptor the system doesn't say
    /// whether another one waits.
    #[tactic(auto, using(crate::proofs::Rounds::moved))]
    fn accept_one_at<D: Disk>(
        &mut self,
        connections: &mut Connections<D, PeerStream>,
        place: usize,
    ) -> Caller<UnixStream>
        ensures { ReachesBy (IsDismissal None) connections.old.stored connections.new.stored }
    {
        match self.doors.accept(place) {
            Caller::Failed(error) => {
                if !self.has_accepted && connections.make_way() {
                    self.doors.accept(place)
                } else {
                    Caller::Failed(error)
                }
            }
            caller => caller,
        }
    }

    /// Accepts one connection that waits over TCP, as `accept_one_at` does. Nobody leaves for it
    /// unless the port was reported: without a descriptor the system doesn't say whether one waits.
    #[tactic(auto, using(crate::proofs::Rounds::moved))]
    fn accept_one<D: Disk>(
        &mut self,
        connections: &mut Connections<D, PeerStream>,
    ) -> Caller<TcpStream>
        ensures { ReachesBy (IsDismissal None) connections.old.stored connections.new.stored }
    {
        match accept_at(&self.listener) {
            Caller::Failed(error) => {
                if self.has_callers && !self.has_accepted && connections.make_way() {
                    accept_at(&self.listener)
                } else {
                    Caller::Failed(error)
                }
            }
            caller => caller,
        }
    }

    /// Accepts the connections that wait over TCP, but no more than a round may. If some may be left,
    /// the listener is watched anew, so the next poll returns at once; that round goes on accepting,
    /// even if the listener's event isn't among those that it looks at. If accepting fails, that is
    /// printed, once until all that wait are accepted, and tried again.
    #[tactic(auto, using(crate::proofs::Rounds::moved))]
    fn accept_all<R: Eprint, D: Disk>(
        &mut self,
        rt: &R,
        connections: &mut Connections<D, PeerStream>,
    )
        ensures { ReachesBy (IsWelcome None) connections.old.stored connections.new.stored }
    {
        self.has_more_callers = false;
        for _ in 0..ACCEPTS_A_ROUND {
            match self.welcome_next(rt, connections) {
                Accepting::GoesOn => {}
                Accepting::IsOver => return,
                Accepting::Later => return self.watch_port_again(),
            }
        }
        self.has_more_callers = true;
        self.watch_port_again();
    }

    /// The port is reported once more if connections still wait there.
    fn watch_port_again(&mut self) {
        self.may_have_more = true;
        self.has_callers = false;
        if let Some(listener) = &mut self.listener {
            let registry = self.poll.registry();
            let _ = registry.reregister(listener, LISTENER, Interest::READABLE);
        }
    }

    /// Accepts one connection that waits over TCP, and its peer gets a place.
    #[tactic(auto, using(crate::proofs::Rounds::moved))]
    fn welcome_next<R: Eprint, D: Disk>(
        &mut self,
        rt: &R,
        connections: &mut Connections<D, PeerStream>,
    ) -> Accepting
        ensures { ReachesBy (IsWelcome None) connections.old.stored connections.new.stored }
    {
        match self.accept_one(connections) {
            Caller::Came(stream) => {
                self.has_accepted = true;
                let stream = PeerStream::Tcp(stream);
                connections.welcome(self.poll.registry(), rt, stream, self.rounds.waited());
                Accepting::GoesOn
            }
            Caller::Gone => Accepting::GoesOn,
            Caller::None => {
                self.has_callers = false;
                Accepting::IsOver
            }
            Caller::Failed(error) => self.note_failed_on_port(rt, &error),
        }
    }

    /// Accepting over TCP failed so. Where the port wasn't reported, it is tried again once it is:
    /// then one waits.
    fn note_failed_on_port<R: Eprint>(&mut self, rt: &R, error: &io::Error) -> Accepting {
        if self.has_callers {
            self.note_failed(rt, error)
        } else {
            Accepting::Later
        }
    }

    /// Accepting failed so: later in this round, where a connection came, which is heard first.
    fn note_failed<R: Eprint>(&mut self, rt: &R, error: &io::Error) -> Accepting {
        if self.has_accepted {
            return Accepting::Later;
        }
        self.tell_refused(rt, error);
        Accepting::IsOver
    }

    /// Accepting failed so: it is told, where it wasn't yet.
    fn tell_refused<R: Eprint>(&mut self, rt: &R, error: &io::Error) {
        self.is_refused = true;
        if !self.has_told {
            self.has_told = true;
            let _ = eprintln!(rt;
                "cannot accept: {error}; it is tried again each second; let more files be open \
                 (ulimit -n, LimitNOFILE)"
            );
        }
    }

    /// Accepts again, where that failed.
    #[tactic(auto, using(crate::proofs::Rounds::moved))]
    pub(crate) fn accept_again<R: Eprint, D: Disk>(
        &mut self,
        rt: &R,
        connections: &mut Connections<D, PeerStream>,
    )
        ensures { Reaches connections.old.stored connections.new.stored }
    {
        if self.is_refused {
            self.is_refused = false;
            self.accept_waiting(rt, connections);
        }
    }
}
