//! Links that are cut. The texts are the databases of real routers before and after, but for ages,
//! sequence numbers and the LSAs of other routers.

use super::built::{R2, R3, R4, changes, slots};
use event_links::{LinkEnd, LinkEvent};
use lsa_codec::Addr;
use std::test::*;

/// Three parallel links of 3.3.3.3 and 4.4.4.4.
const PARALLEL: &str = "area 0.0.0.1
router 3.3.3.3: point-to-point 1.1.1.1 data=10.0.13.2 cost=10, stub 10.0.13.0/30 cost=10, \
point-to-point 4.4.4.4 data=10.0.34.1 cost=5, stub 10.0.34.0/30 cost=5, \
point-to-point 4.4.4.4 data=10.0.34.5 cost=5, stub 10.0.34.4/30 cost=5, \
point-to-point 4.4.4.4 data=10.0.34.9 cost=12, stub 10.0.34.8/30 cost=12, \
stub 10.1.3.0/24 cost=1, stub 10.10.3.1/32 cost=5
router 4.4.4.4: point-to-point 2.2.2.2 data=10.0.24.2 cost=20, stub 10.0.24.0/30 cost=20, \
point-to-point 3.3.3.3 data=10.0.34.2 cost=5, stub 10.0.34.0/30 cost=5, \
point-to-point 3.3.3.3 data=10.0.34.6 cost=5, stub 10.0.34.4/30 cost=5, \
point-to-point 3.3.3.3 data=10.0.34.10 cost=12, stub 10.0.34.8/30 cost=12, \
point-to-point 6.6.6.6 data=10.0.46.1 cost=10, stub 10.0.46.0/30 cost=10, \
stub 10.1.4.0/24 cost=1, stub 10.10.4.1/32 cost=5";

/// The same without the first of them.
const TWO_LEFT: &str = "area 0.0.0.1
router 3.3.3.3: point-to-point 1.1.1.1 data=10.0.13.2 cost=10, stub 10.0.13.0/30 cost=10, \
point-to-point 4.4.4.4 data=10.0.34.5 cost=5, stub 10.0.34.4/30 cost=5, \
point-to-point 4.4.4.4 data=10.0.34.9 cost=12, stub 10.0.34.8/30 cost=12, \
stub 10.1.3.0/24 cost=1, stub 10.10.3.1/32 cost=5
router 4.4.4.4: point-to-point 2.2.2.2 data=10.0.24.2 cost=20, stub 10.0.24.0/30 cost=20, \
point-to-point 3.3.3.3 data=10.0.34.6 cost=5, stub 10.0.34.4/30 cost=5, \
point-to-point 3.3.3.3 data=10.0.34.10 cost=12, stub 10.0.34.8/30 cost=12, \
point-to-point 6.6.6.6 data=10.0.46.1 cost=10, stub 10.0.46.0/30 cost=10, \
stub 10.1.4.0/24 cost=1, stub 10.10.4.1/32 cost=5";

#[test]
fn one_of_parallel_links_goes_at_both_ends(rt: HostRuntime) -> Result<(), Fail> {
    let event = LinkEvent::CutLink(LinkEnd {
        router: R3,
        neighbor: R4,
        address: Addr(0x0a00_2201),
    });
    let found = changes(rt.alloc(), PARALLEL, event)?;
    let wanted = slots(rt.alloc(), TWO_LEFT, &[(0, 0), (0, 1)])?;
    assert!(rt; found == wanted);
    Ok(())
}

/// 2.2.2.2 is a border router with one link into area 0.0.0.1.
const BORDER: &str = "area 0.0.0.0
router 2.2.2.2 flags=1: point-to-point 1.1.1.1 data=10.0.12.2 cost=10, stub 10.0.12.0/30 cost=10, \
point-to-point 3.3.3.3 data=10.0.23.1 cost=10, stub 10.0.23.0/30 cost=10, stub 10.1.2.0/24 cost=1, \
stub 10.10.2.1/32 cost=5
area 0.0.0.1
router 4.4.4.4: point-to-point 2.2.2.2 data=10.0.24.2 cost=10, stub 10.0.24.0/30 cost=10, \
point-to-point 3.3.3.3 data=10.0.34.2 cost=12, stub 10.0.34.0/30 cost=12, \
point-to-point 5.5.5.5 data=10.0.45.1 cost=10, stub 10.0.45.0/30 cost=10, stub 10.1.4.0/24 cost=1, \
stub 10.10.4.1/32 cost=5
router 2.2.2.2 flags=1: point-to-point 4.4.4.4 data=10.0.24.1 cost=10, stub 10.0.24.0/30 cost=10";

/// The router-LSA of 4.4.4.4 without that link. 2.2.2.2 is not attached to the area any more.
const DETACHED: &str = "area 0.0.0.0
router 2.2.2.2: stub 10.1.2.0/24 cost=1
area 0.0.0.1
router 4.4.4.4: point-to-point 3.3.3.3 data=10.0.34.2 cost=12, stub 10.0.34.0/30 cost=12, \
point-to-point 5.5.5.5 data=10.0.45.1 cost=10, stub 10.0.45.0/30 cost=10, stub 10.1.4.0/24 cost=1, \
stub 10.10.4.1/32 cost=5";

#[test]
fn the_lsa_of_an_area_goes_with_the_last_link(rt: HostRuntime) -> Result<(), Fail> {
    let event = LinkEvent::CutLinks {
        router: R2,
        neighbor: R4,
    };
    let found = changes(rt.alloc(), BORDER, event)?;
    let wanted = slots(rt.alloc(), DETACHED, &[(1, 0), (1, 1)])?;
    assert!(rt; found == wanted);
    Ok(())
}
