//! To which kind of node a session belongs.

ghost use Rattle.std.specs.Prelude.{◌≡◌};
ghost use Rattle.device_map.specs.declared.ids.TheConstants.{DISPENSER_SUBNET, TILL_SUBNET};
ghost use Rattle.site_metrics.specs.Metrics.{is_of};

use device_map::{dispenser, till};
use site_base::{FpNo, TillNo};
use site_json::PeerSession;

/// Is it a till's?
pub(crate) fn is_till(session: &PeerSession) -> bool
    ensures { result ≡ is_of TILL_SUBNET session.now }
{
    match TillNo::new(1) {
        Some(t) => session.node[0] == till(t)[0],
        None => unreachable!(),
    }
}

/// Is it a dispenser's?
pub(crate) fn is_dispenser(session: &PeerSession) -> bool
    ensures { result ≡ is_of DISPENSER_SUBNET session.now }
{
    match FpNo::new(1) {
        Some(p) => session.node[0] == dispenser(p)[0],
        None => unreachable!(),
    }
}
