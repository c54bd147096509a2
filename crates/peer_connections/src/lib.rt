//! The connections of a station's peers: what peers send is heard, and their pending output is
//! sent.
//!
//! `Connections` changes the station only by the station's own moves (`specs/Reaches.antt`), so
//! each law of `station` holds for what it serves. What one call of a connection does is exact
//! (`specs/Calls.antt`).
#![tactic(auto)]

mod allowance;
mod calls;
mod change_watch;
mod closing;
mod connections;
mod day_end;
mod due_list;
mod due_peers;
mod fed_rows;
mod feed;
mod hearing;
mod held_back;
mod late_peers;
mod link;
mod naming;
mod nodes;
mod own_rows;
mod peer_stream;
mod places;
mod round_end;
mod row_room;
mod session_over;
mod sessions;
mod shift_warning;
mod sizes;
mod tallied_rows;
mod upkeep;

pub use connections::Connections;
pub use fed_rows::FedRows;
pub use peer_stream::{PeerSocket, PeerStream};
pub use sessions::Session;
pub use upkeep::Patience;
