//! Events that are refused.

use super::built::{R1, R2, R3, R4, fault};
use event_links::{EventFault, LinkEnd, LinkEvent};
use lsa_codec::{Addr, RouterId};
use std::test::*;

/// 3.3.3.3 is at MaxAge; 1.1.1.1 and 2.2.2.2 have two links without addresses, which look the same.
const NETWORK: &str = "area 0.0.0.0
router 1.1.1.1: point-to-point 2.2.2.2 data=0.0.0.3 cost=7, point-to-point 2.2.2.2 data=0.0.0.4 \
cost=7
router 2.2.2.2: point-to-point 1.1.1.1 data=0.0.0.7 cost=7, point-to-point 1.1.1.1 data=0.0.0.8 \
cost=7
router 3.3.3.3 age=3600: point-to-point 1.1.1.1 data=0.0.0.5 cost=7
router 4.4.4.4: stub 10.4.0.0/16 cost=1";

/// A cut of a link of 1.1.1.1 and 2.2.2.2.
fn cut_at(address: u32) -> LinkEvent {
    LinkEvent::CutLink(LinkEnd {
        router: R1,
        neighbor: R2,
        address: Addr(address),
    })
}

/// A cut of all links of 1.1.1.1 and another router.
fn cut_to(neighbor: RouterId) -> LinkEvent {
    LinkEvent::CutLinks {
        router: R1,
        neighbor,
    }
}

#[test]
fn routers_are_to_be_there_and_neighbors(rt: HostRuntime) -> Result<(), Fail> {
    for (neighbor, wanted) in [
        (R1, EventFault::SameRouter),
        (R3, EventFault::NoRouter(R3)),
        (R4, EventFault::NotNeighbors(R1, R4)),
    ] {
        let found = fault(rt.alloc(), NETWORK, cut_to(neighbor))?;
        assert!(rt; found == wanted);
    }
    Ok(())
}

#[test]
fn links_are_to_look_different(rt: HostRuntime) -> Result<(), Fail> {
    let unclear = fault(rt.alloc(), NETWORK, cut_at(3))?;
    assert!(rt; unclear == EventFault::UnclearEnd(R1, Addr(3)));
    let none = fault(rt.alloc(), NETWORK, cut_at(9))?;
    assert!(rt; none == EventFault::NoInterface(R1, Addr(9)));
    Ok(())
}

#[test]
fn no_link_to_a_router_gets_cost_0(rt: HostRuntime) -> Result<(), Fail> {
    let event = LinkEvent::SetCost {
        router: R1,
        neighbor: R2,
        metric: 0,
        both: false,
    };
    let found = fault(rt.alloc(), NETWORK, event)?;
    assert!(rt; found == EventFault::ZeroCost);
    Ok(())
}
