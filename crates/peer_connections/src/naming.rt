//! How the end of a session is reported.

use crate::nodes::is_of_a_site;
use station::PeerEnd;
use std::fmt;

/// A session that ended, as it is told on standard error.
#[derive(Clone, Copy, Debug)]
pub(crate) struct EndedSession {
    /// The originator of its first message, if there was one.
    pub(crate) node: Option<[u8; 2]>,
    /// How it ended.
    pub(crate) end: PeerEnd,
}

impl fmt::Display for EndedSession {
    /// `session of t1: fault 44: the octets end inside a message`.
    fn fmt<W: fmt::Write>(&self, f: &mut fmt::Formatter<W>) -> fmt::Result {
        let name = PeerName {
            node: self.speaker(),
        };
        write!(f, "session of {name}: {}", self.end)
    }
}

impl EndedSession {
    /// The node that it was of, or that it wanted to speak as.
    fn speaker(&self) -> Option<[u8; 2]> {
        match self.end {
            PeerEnd::Barred(node) | PeerEnd::Crowded(node) => Some(node),
            _ => self.node,
        }
    }
}

/// Who a peer is, by the originator of its first message: `t1`, `d3`.
#[derive(Clone, Copy, Debug)]
pub(crate) struct PeerName {
    pub(crate) node: Option<[u8; 2]>,
}

impl fmt::Display for PeerName {
    fn fmt<W: fmt::Write>(&self, f: &mut fmt::Formatter<W>) -> fmt::Result {
        match self.node {
            None => write!(f, "a peer that said nothing"),
            Some(node) => match (node[0], node[1]) {
                (2, till) if is_of_a_site(node) => write!(f, "t{till}"),
                (3, dispenser) if is_of_a_site(node) => write!(f, "d{dispenser}"),
                (subnet, node) => write!(f, "node {subnet} {node}"),
            },
        }
    }
}
