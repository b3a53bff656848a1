//! Costs of interfaces. The texts are the databases of real routers before and after, but for ages,
//! sequence numbers and the LSAs of other routers.

use super::built::{R1, R4, R6, changes, slots};
use event_links::LinkEvent;
use lsa_codec::Addr;
use std::test::*;

/// 1.1.1.1 has a link to 4.4.4.4, which is on a LAN with two others.
const BEFORE: &str = "area 0.0.0.1
router 1.1.1.1 flags=1: point-to-point 4.4.4.4 data=10.0.14.1 cost=25, stub 10.0.14.0/30 cost=25
router 4.4.4.4: point-to-point 1.1.1.1 data=10.0.14.2 cost=10, stub 10.0.14.0/30 cost=10, \
transit 192.168.1.6 data=192.168.1.4 cost=10, stub 10.1.4.0/24 cost=1, stub 10.10.4.1/32 cost=5
network 192.168.1.6/24 by=6.6.6.6: 4.4.4.4, 5.5.5.5, 6.6.6.6";

#[test]
fn interfaces_at_both_ends_get_a_cost(rt: HostRuntime) -> Result<(), Fail> {
    let event = LinkEvent::SetCost {
        router: R1,
        neighbor: R4,
        metric: 4,
        both: true,
    };
    let found = changes(rt.alloc(), BEFORE, event)?;
    let after = "area 0.0.0.1
router 1.1.1.1 flags=1: point-to-point 4.4.4.4 data=10.0.14.1 cost=4, stub 10.0.14.0/30 cost=4
router 4.4.4.4: point-to-point 1.1.1.1 data=10.0.14.2 cost=4, stub 10.0.14.0/30 cost=4, \
transit 192.168.1.6 data=192.168.1.4 cost=10, stub 10.1.4.0/24 cost=1, stub 10.10.4.1/32 cost=5";
    let wanted = slots(rt.alloc(), after, &[(0, 0), (0, 1)])?;
    assert!(rt; found == wanted);
    Ok(())
}

/// 6.6.6.6 has an interface to the LAN, and a loopback.
const ON_LAN: &str = "area 0.0.0.1
router 6.6.6.6: transit 192.168.1.6 data=192.168.1.6 cost=10, stub 10.1.6.0/24 cost=1, \
stub 10.10.6.1/32 cost=5";

/// Its interface to the LAN has another cost.
const OTHER_LAN_COST: &str = "area 0.0.0.1
router 6.6.6.6: transit 192.168.1.6 data=192.168.1.6 cost=3, stub 10.1.6.0/24 cost=1, \
stub 10.10.6.1/32 cost=5";

/// Its loopback has another cost, too.
const OTHER_LOOPBACK_COST: &str = "area 0.0.0.1
router 6.6.6.6: transit 192.168.1.6 data=192.168.1.6 cost=3, stub 10.1.6.0/24 cost=1, \
stub 10.10.6.1/32 cost=17";

/// And that of one more stub network.
const OTHER_STUB_COST: &str = "area 0.0.0.1
router 6.6.6.6: transit 192.168.1.6 data=192.168.1.6 cost=3, stub 10.1.6.0/24 cost=40, \
stub 10.10.6.1/32 cost=17";

#[test]
fn interfaces_with_an_address_get_a_cost(rt: HostRuntime) -> Result<(), Fail> {
    for (before, address, metric, after) in [
        (ON_LAN, 0xc0a8_0106, 3, OTHER_LAN_COST),
        (OTHER_LAN_COST, 0x0a0a_0601, 17, OTHER_LOOPBACK_COST),
        (OTHER_LOOPBACK_COST, 0x0a01_0601, 40, OTHER_STUB_COST),
    ] {
        let event = LinkEvent::SetCostAt {
            router: R6,
            address: Addr(address),
            metric,
        };
        let found = changes(rt.alloc(), before, event)?;
        let wanted = slots(rt.alloc(), after, &[(0, 0)])?;
        assert!(rt; found == wanted);
    }
    Ok(())
}

/// 4.4.4.4 has links to three routers.
const FULL: &str = "area 0.0.0.1
router 4.4.4.4 flags=2: point-to-point 2.2.2.2 data=10.0.24.2 cost=10, stub 10.0.24.0/30 cost=10, \
point-to-point 5.5.5.5 data=10.0.45.1 cost=10, stub 10.0.45.0/30 cost=10, \
point-to-point 7.7.7.7 data=10.0.47.1 cost=10, stub 10.0.47.0/30 cost=10, \
stub 10.1.4.0/24 cost=1, stub 10.10.4.1/32 cost=5";

#[test]
fn a_drained_router_keeps_the_costs_of_its_stub_networks(rt: HostRuntime) -> Result<(), Fail> {
    let found = changes(rt.alloc(), FULL, LinkEvent::Drain { router: R4 })?;
    let after = "area 0.0.0.1
router 4.4.4.4 flags=2: point-to-point 2.2.2.2 data=10.0.24.2 cost=65535, \
stub 10.0.24.0/30 cost=10, point-to-point 5.5.5.5 data=10.0.45.1 cost=65535, \
stub 10.0.45.0/30 cost=10, point-to-point 7.7.7.7 data=10.0.47.1 cost=65535, \
stub 10.0.47.0/30 cost=10, stub 10.1.4.0/24 cost=1, stub 10.10.4.1/32 cost=5";
    let wanted = slots(rt.alloc(), after, &[(0, 0)])?;
    assert!(rt; found == wanted);
    Ok(())
}
