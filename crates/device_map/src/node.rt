//! Who speaks from a node.

ghost use Rattle.std.specs.Prelude.{◌≡◌, [], ◌∷◌};
ghost use Rattle.device_map.specs.declared.ids.TheConstants.{DISPENSER_SUBNET};
ghost use Rattle.device_map.specs.Stages.{Gives};
ghost use Rattle.device_map.specs.Nodes.{site_node, for_us, till_at, dispenser_at};
ghost use Rattle.device_map.specs.Nodes.{actor_at, is_request};

use crate::fault::MapFault;
use crate::ids::{DISPENSER_SUBNET, SITE_NODE, SITE_SUBNET, TILL_SUBNET};
use app_message::Kind;
use site_base::{Actor, FpNo, TillNo};

/// Returns subnet and node of the site.
pub fn site() -> [u8; 2]
    ensures { result ≡ site_node }
{
    [SITE_SUBNET, SITE_NODE]
}

/// Returns subnet and node of a till.
pub fn till(till: TillNo) -> [u8; 2]
    ensures { result ≡ TILL_SUBNET ∷ till ∷ [] }
{
    [TILL_SUBNET, till.get()]
}

/// Returns subnet and node of the dispenser of a fuelling point.
pub fn dispenser(point: FpNo) -> [u8; 2]
    ensures { result ≡ DISPENSER_SUBNET ∷ point ∷ [] }
{
    [DISPENSER_SUBNET, point.get()]
}

/// Checks that the message is a Read, a Write or a Report; otherwise `NotARequest`.
pub fn check_request(kind: Kind) -> Result<(), MapFault>
    ensures { Gives result (is_request kind) }
{
    match kind {
        Kind::Read => Ok(()),
        Kind::Write => Ok(()),
        Kind::Report => Ok(()),
        _ => Err(MapFault::NotARequest),
    }
}

/// Checks that the site is the recipient; otherwise `NotForUs`.
#[tactic(auto, unfolding(crate::specs::Nodes::for_us))]
pub fn check_recipient(to: [u8; 2]) -> Result<(), MapFault>
    ensures { Gives result (for_us to) }
{
    if to[0] == SITE_SUBNET && to[1] == SITE_NODE {
        Ok(())
    } else {
        Err(MapFault::NotForUs)
    }
}

/// Returns the actor of a request of this kind: a till for a Read or a Write, a dispenser for a
/// Report. `BadOriginator` if the node is none of these, `NotARequest` for any other kind.
pub fn actor_of(kind: Kind, from: [u8; 2]) -> Result<Actor, MapFault>
    ensures { Gives result (actor_at kind from) }
{
    match kind {
        Kind::Read => till_of(from),
        Kind::Write => till_of(from),
        Kind::Report => dispenser_of(from),
        _ => Err(MapFault::NotARequest),
    }
}

#[tactic(auto, unfolding(crate::specs::Nodes::till_at))]
fn till_of(from: [u8; 2]) -> Result<Actor, MapFault>
    ensures { Gives result (till_at from) }
{
    if from[0] != TILL_SUBNET {
        return Err(MapFault::BadOriginator);
    }
    match TillNo::new(from[1]) {
        Some(till) => Ok(Actor::Till(till)),
        None => Err(MapFault::BadOriginator),
    }
}

#[tactic(auto, unfolding(crate::specs::Nodes::dispenser_at))]
fn dispenser_of(from: [u8; 2]) -> Result<Actor, MapFault>
    ensures { Gives result (dispenser_at from) }
{
    if from[0] != DISPENSER_SUBNET {
        return Err(MapFault::BadOriginator);
    }
    match FpNo::new(from[1]) {
        Some(point) => Ok(Actor::Dispenser(point)),
        None => Err(MapFault::BadOriginator),
    }
}
