//! The replies of a session come one by one, whether its client waits for them or not.

use super::calls::{THREE_REQUESTS, THREE_TOLD, octets};
use super::noting::Call;
use super::peers::Peer;
use super::sessions::session;
use forecourt_engines::known_site_of;
use site_base::TillNo;
use std::test::Fail;

/// Each request comes once the replies to those before it were told.
const ONE_BY_ONE: &[(u64, usize)] = &[(0, 12), (16, 24), (32, 34)];

#[test]
fn each_reply_is_written_before_the_next_request_is_asked(rt: HostRuntime) -> Result<(), Fail> {
    let alloc = rt.alloc();
    let config = known_site_of(alloc, 1_000_000)?;
    let told = octets(&rt, alloc, THREE_TOLD)?;
    for waits in [false, true] {
        for most in [usize::MAX, 5] {
            let mut peer = Peer::of(octets(&rt, alloc, THREE_REQUESTS)?).in_pieces(most);
            if waits {
                peer.sends = ONE_BY_ONE;
            }
            let seen = session(&rt, alloc, &config, &[], peer)?;
            assert!(rt; seen.end.fault.is_none() && seen.end.asked == 3 && seen.end.signed_off);
            assert!(rt; seen.told == told, "told otherwise");
            assert!(rt; seen.noted.asked == 3 && seen.noted.told_before == [0, 16, 32]);
            assert!(rt; seen.noted.written == 3 && seen.noted.told_after == [16, 32, 70]);
            let left = Call::Left(TillNo::new(1).expect(&rt, "till 1"));
            assert!(rt; seen.noted.last == Some(left), "not left last");
        }
    }
    Ok(())
}
