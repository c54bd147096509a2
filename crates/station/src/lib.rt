//! The station without its devices: the sessions of all its peers over one book.
//!
//! A `Station` owns a book. Peers arrive, their octets are heard, their pending output is taken,
//! and they leave. Each move is exact (`specs/Moves.antt`, over `specs/Sessions.antt` for one
//! session). A session is that of `till_session`. Besides the text of its session a dispenser's
//! peer is sent notices: after its first message those that describe the state of its point, and
//! from then on each change there.
//!
//! The laws (`specs/Laws.antt`) hold over every list of moves: a peer is told its story
//! (`specs/Stories.antt`), the rows are one history, requests are asked in the order in which they
//! are heard, and the end of a session signs off its till.
#![tactic(auto)]

mod asking;
mod gates;
mod hearing;
mod laws;
mod outbox;
mod paper;
mod peer;
mod peer_end;
mod sizes;
mod slots;
mod station;

pub use gates::{Admission, Gates};
pub use laws::{
    doors_stay_open, each_peer_is_told_its_story, ends_leave_their_till,
    ends_spare_tills_of_others, owed_is_bounded, peers_leave_their_till,
    requests_are_asked_in_order, requests_cost_octets, rows_are_one_history,
    rows_come_through_their_door, standing_notices_are_changes,
    standing_notices_tell_what_was_missed, stations_are_never_full, the_station_acts_alone_so,
    tills_have_sessions, what_was_told_stays,
};
pub use peer_end::PeerEnd;
pub use sizes::{
    DOORS, FREE_PLACES, HEARD_OCTETS, NODE_SESSIONS, NOTICE_LIMIT, PEERS, PIECE_ROWS, READ_LIMIT,
};
pub use station::Station;
