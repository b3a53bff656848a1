//! Routers that fail. The texts are the databases of real routers before and after, but for ages,
//! sequence numbers, other LSAs, and those of the router that fails, which real routers keep until
//! they are old.

use super::built::{R1, R2, R3, R4, leads_to};
use network_departures::Departure;
use std::test::*;

/// The network has four routers; 4.4.4.4 is its Designated Router.
const LAN: &str = "area 0.0.0.1
router 1.1.1.1 flags=1: transit 192.168.1.4 data=192.168.1.1 cost=10
router 2.2.2.2 flags=1: transit 192.168.1.4 data=192.168.1.2 cost=12, point-to-point 5.5.5.5 \
data=10.0.25.1 cost=15, stub 10.0.25.0/30 cost=15
router 3.3.3.3: transit 192.168.1.4 data=192.168.1.3 cost=8, point-to-point 6.6.6.6 \
data=10.0.36.1 cost=10, stub 10.0.36.0/30 cost=10, stub 10.1.3.0/24 cost=1, stub 10.10.3.1/32 \
cost=5
router 4.4.4.4: transit 192.168.1.4 data=192.168.1.4 cost=6, point-to-point 5.5.5.5 \
data=10.0.45.1 cost=10, stub 10.0.45.0/30 cost=10, stub 10.1.4.0/24 cost=1, stub 10.10.4.1/32 \
cost=5
router 5.5.5.5: point-to-point 4.4.4.4 data=10.0.45.2 cost=10, stub 10.0.45.0/30 cost=10, \
point-to-point 2.2.2.2 data=10.0.25.2 cost=15, stub 10.0.25.0/30 cost=15, point-to-point 6.6.6.6 \
data=10.0.56.1 cost=20, stub 10.0.56.0/30 cost=20, stub 10.1.5.0/24 cost=1, stub 10.10.5.1/32 \
cost=5
router 6.6.6.6: point-to-point 3.3.3.3 data=10.0.36.2 cost=10, stub 10.0.36.0/30 cost=10, \
point-to-point 5.5.5.5 data=10.0.56.2 cost=20, stub 10.0.56.0/30 cost=20, stub 10.1.6.0/24 \
cost=1, stub 10.10.6.1/32 cost=5
network 192.168.1.4/24 by=4.4.4.4: 1.1.1.1, 2.2.2.2, 3.3.3.3, 4.4.4.4";

/// 3.3.3.3 has taken over.
const LAN_OF_THREE: &str = "area 0.0.0.1
router 1.1.1.1 flags=1: transit 192.168.1.3 data=192.168.1.1 cost=10
router 2.2.2.2 flags=1: transit 192.168.1.3 data=192.168.1.2 cost=12, point-to-point 5.5.5.5 \
data=10.0.25.1 cost=15, stub 10.0.25.0/30 cost=15
router 3.3.3.3: transit 192.168.1.3 data=192.168.1.3 cost=8, point-to-point 6.6.6.6 \
data=10.0.36.1 cost=10, stub 10.0.36.0/30 cost=10, stub 10.1.3.0/24 cost=1, stub 10.10.3.1/32 \
cost=5
router 5.5.5.5: stub 10.0.45.0/30 cost=10, point-to-point 2.2.2.2 data=10.0.25.2 cost=15, stub \
10.0.25.0/30 cost=15, point-to-point 6.6.6.6 data=10.0.56.1 cost=20, stub 10.0.56.0/30 cost=20, \
stub 10.1.5.0/24 cost=1, stub 10.10.5.1/32 cost=5
router 6.6.6.6: point-to-point 3.3.3.3 data=10.0.36.2 cost=10, stub 10.0.36.0/30 cost=10, \
point-to-point 5.5.5.5 data=10.0.56.2 cost=20, stub 10.0.56.0/30 cost=20, stub 10.1.6.0/24 \
cost=1, stub 10.10.6.1/32 cost=5
network 192.168.1.3/24 by=3.3.3.3: 1.1.1.1, 2.2.2.2, 3.3.3.3";

#[test]
fn a_designated_router_gets_a_successor(rt: HostRuntime) -> Result<(), Fail> {
    let event = Departure::Fails { router: R4 };
    assert!(rt; leads_to(rt.alloc(), LAN, &event, LAN_OF_THREE)?);
    Ok(())
}

/// 2.2.2.2 has taken over from 3.3.3.3.
const LAN_OF_TWO: &str = "area 0.0.0.1
router 1.1.1.1 flags=1: transit 192.168.1.2 data=192.168.1.1 cost=10
router 2.2.2.2 flags=1: transit 192.168.1.2 data=192.168.1.2 cost=12, point-to-point 5.5.5.5 \
data=10.0.25.1 cost=15, stub 10.0.25.0/30 cost=15
router 5.5.5.5: stub 10.0.45.0/30 cost=10, point-to-point 2.2.2.2 data=10.0.25.2 cost=15, stub \
10.0.25.0/30 cost=15, point-to-point 6.6.6.6 data=10.0.56.1 cost=20, stub 10.0.56.0/30 cost=20, \
stub 10.1.5.0/24 cost=1, stub 10.10.5.1/32 cost=5
router 6.6.6.6: stub 10.0.36.0/30 cost=10, point-to-point 5.5.5.5 data=10.0.56.2 cost=20, stub \
10.0.56.0/30 cost=20, stub 10.1.6.0/24 cost=1, stub 10.10.6.1/32 cost=5
network 192.168.1.2/24 by=2.2.2.2: 1.1.1.1, 2.2.2.2";

#[test]
fn so_does_the_successor(rt: HostRuntime) -> Result<(), Fail> {
    let event = Departure::Fails { router: R3 };
    assert!(rt; leads_to(rt.alloc(), LAN_OF_THREE, &event, LAN_OF_TWO)?);
    Ok(())
}

/// A network of two routers.
const TWO: &str = "area 0.0.0.1
router 1.1.1.1 flags=1: point-to-point 4.4.4.4 data=10.0.14.1 cost=30, stub 10.0.14.0/30 cost=30, \
transit 192.168.1.1 data=192.168.1.1 cost=10
router 2.2.2.2: point-to-point 4.4.4.4 data=10.0.24.1 cost=10, stub 10.0.24.0/30 cost=10, stub \
10.1.2.0/24 cost=1, stub 10.10.2.1/32 cost=5, transit 192.168.1.1 data=192.168.1.2 cost=12
router 4.4.4.4: point-to-point 2.2.2.2 data=10.0.24.2 cost=10, stub 10.0.24.0/30 cost=10, \
point-to-point 1.1.1.1 data=10.0.14.2 cost=30, stub 10.0.14.0/30 cost=30, stub 10.1.4.0/24 \
cost=1, stub 10.10.4.1/32 cost=5
network 192.168.1.1/24 by=1.1.1.1: 1.1.1.1, 2.2.2.2";

/// 1.1.1.1 has a stub network.
const ONE: &str = "area 0.0.0.1
router 1.1.1.1 flags=1: point-to-point 4.4.4.4 data=10.0.14.1 cost=30, stub 10.0.14.0/30 cost=30, \
stub 192.168.1.0/24 cost=10
router 4.4.4.4: stub 10.0.24.0/30 cost=10, point-to-point 1.1.1.1 data=10.0.14.2 cost=30, stub \
10.0.14.0/30 cost=30, stub 10.1.4.0/24 cost=1, stub 10.10.4.1/32 cost=5";

#[test]
fn a_network_of_one_router_is_a_stub_network(rt: HostRuntime) -> Result<(), Fail> {
    let event = Departure::Fails { router: R2 };
    assert!(rt; leads_to(rt.alloc(), TWO, &event, ONE)?);
    Ok(())
}

/// 1.1.1.1 is a border router of three areas.
const BORDERS: &str = "area 0.0.0.0
router 1.1.1.1 flags=3: point-to-point 2.2.2.2 data=10.0.12.1 cost=10, stub 10.0.12.0/30 cost=10, \
point-to-point 3.3.3.3 data=10.0.13.1 cost=10, stub 10.0.13.0/30 cost=10, stub 10.1.1.0/24 \
cost=1, stub 10.10.1.1/32 cost=5
router 2.2.2.2 flags=1: point-to-point 1.1.1.1 data=10.0.12.2 cost=10, stub 10.0.12.0/30 cost=10, \
point-to-point 3.3.3.3 data=10.0.23.1 cost=10, stub 10.0.23.0/30 cost=10, stub 10.1.2.0/24 \
cost=1, stub 10.10.2.1/32 cost=5
router 3.3.3.3 flags=1: point-to-point 2.2.2.2 data=10.0.23.2 cost=10, stub 10.0.23.0/30 cost=10, \
point-to-point 1.1.1.1 data=10.0.13.2 cost=10, stub 10.0.13.0/30 cost=10, stub 10.1.3.0/24 \
cost=1, stub 10.10.3.1/32 cost=5
area 0.0.0.1
router 1.1.1.1 flags=3: point-to-point 4.4.4.4 data=10.0.14.1 cost=10, stub 10.0.14.0/30 cost=10
router 2.2.2.2 flags=1: point-to-point 5.5.5.5 data=10.0.25.1 cost=10, stub 10.0.25.0/30 cost=10
router 4.4.4.4 flags=2: point-to-point 1.1.1.1 data=10.0.14.2 cost=10, stub 10.0.14.0/30 cost=10, \
point-to-point 5.5.5.5 data=10.0.45.1 cost=15, stub 10.0.45.0/30 cost=15, stub 10.1.4.0/24 \
cost=1, stub 10.10.4.1/32 cost=5
router 5.5.5.5: point-to-point 2.2.2.2 data=10.0.25.2 cost=10, stub 10.0.25.0/30 cost=10, \
point-to-point 4.4.4.4 data=10.0.45.2 cost=15, stub 10.0.45.0/30 cost=15, stub 10.1.5.0/24 \
cost=1, stub 10.10.5.1/32 cost=5
area 0.0.0.3
router 1.1.1.1 flags=3: point-to-point 7.7.7.7 data=10.0.17.1 cost=10, stub 10.0.17.0/30 cost=10
router 7.7.7.7: point-to-point 1.1.1.1 data=10.0.17.2 cost=10, stub 10.0.17.0/30 cost=10, stub \
10.1.7.0/24 cost=1, stub 10.10.7.1/32 cost=5";

/// Its neighbors in all of them have no link to it.
const ONE_BORDER: &str = "area 0.0.0.0
router 2.2.2.2 flags=1: stub 10.0.12.0/30 cost=10, point-to-point 3.3.3.3 data=10.0.23.1 cost=10, \
stub 10.0.23.0/30 cost=10, stub 10.1.2.0/24 cost=1, stub 10.10.2.1/32 cost=5
router 3.3.3.3 flags=1: point-to-point 2.2.2.2 data=10.0.23.2 cost=10, stub 10.0.23.0/30 cost=10, \
stub 10.0.13.0/30 cost=10, stub 10.1.3.0/24 cost=1, stub 10.10.3.1/32 cost=5
area 0.0.0.1
router 2.2.2.2 flags=1: point-to-point 5.5.5.5 data=10.0.25.1 cost=10, stub 10.0.25.0/30 cost=10
router 4.4.4.4 flags=2: stub 10.0.14.0/30 cost=10, point-to-point 5.5.5.5 data=10.0.45.1 cost=15, \
stub 10.0.45.0/30 cost=15, stub 10.1.4.0/24 cost=1, stub 10.10.4.1/32 cost=5
router 5.5.5.5: point-to-point 2.2.2.2 data=10.0.25.2 cost=10, stub 10.0.25.0/30 cost=10, \
point-to-point 4.4.4.4 data=10.0.45.2 cost=15, stub 10.0.45.0/30 cost=15, stub 10.1.5.0/24 \
cost=1, stub 10.10.5.1/32 cost=5
area 0.0.0.3
router 7.7.7.7: stub 10.0.17.0/30 cost=10, stub 10.1.7.0/24 cost=1, stub 10.10.7.1/32 cost=5";

#[test]
fn links_to_a_border_router_go_in_all_areas(rt: HostRuntime) -> Result<(), Fail> {
    let event = Departure::Fails { router: R1 };
    assert!(rt; leads_to(rt.alloc(), BORDERS, &event, ONE_BORDER)?);
    Ok(())
}
