//! The nodes that a site can have.

ghost use Rattle.std.specs.Prelude.{◌≡◌, IfSome, Some, is_some, slice_index};
ghost use Rattle.peer_connections.specs.Allowed.{is_dispenser_node, is_known, is_till_node};

use device_map::{dispenser, till};
use site_base::{FpNo, TillNo};

/// Is this the node of a till, or of a dispenser? A peer of another node is no peer of a site.
pub(crate) fn is_of_a_site(node: [u8; 2]) -> bool
    ensures { result ≡ is_known (Some node) }
{
    is_till(node) || point_of(node).is_some()
}

/// Is this the node of a till?
fn is_till(node: [u8; 2]) -> bool
    ensures { result ≡ is_till_node node }
{
    match TillNo::new(node[1]) {
        Some(number) => till(number)[0] == node[0],
        None => false,
    }
}

/// The point whose dispenser has this node.
pub(crate) fn point_of(node: [u8; 2]) -> Option<FpNo>
    ensures there { is_some result ≡ is_dispenser_node node }
    ensures number { IfSome result (λ p. p ≡ slice_index node 1) }
{
    let p = FpNo::new(node[1])?;
    if dispenser(p)[0] == node[0] {
        Some(p)
    } else {
        None
    }
}
