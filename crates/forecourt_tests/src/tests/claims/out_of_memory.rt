//! For runs in which one allocation fails: no hold changes, and the same call then returns the
//! points.

use super::*;
use site_base::NoMemory;

#[test]
fn a_refused_list_changes_no_hold(rt: HostRuntime) {
    let mut claims = Claims::new();
    for number in [16, 3, 9, 1, 12, 4, 10, 7, 15] {
        take(&rt, &mut claims, number, 1);
    }
    let t = till(&rt, 1);
    let wanted = [1, 3, 4, 7, 9, 10, 12, 15, 16];
    let held = match claims.held_by(rt.alloc(), t) {
        Err(NoMemory) => {
            let _ = rt.eprintln("an allocation failed");
            for number in wanted {
                assert_eq!(rt; claims.holder(point(&rt, number)), Some(t));
            }
            claims.held_by(rt.alloc(), t)
        }
        held => held,
    };
    match held {
        Ok(points) => {
            assert_eq!(rt; points.len(), wanted.len());
            for (held, number) in points.iter().zip(wanted) {
                assert_eq!(rt; *held, point(&rt, number));
            }
        }
        Err(NoMemory) => panic!(&rt; "want of memory twice"),
    }
}
