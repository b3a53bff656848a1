//! Departures that are refused, and what nobody leaves.

use super::built::{R1, R3, fault, lan, leads_to, leaves};
use departures::DepartureFault;
use lsa_codec::RouterId;
use network_departures::Departure;
use std::test::*;

/// A network of two routers, and 3.3.3.3, which is not on it.
const NETWORK: &str = "area 0.0.0.0
router 1.1.1.1: transit 192.168.1.2 data=192.168.1.1 cost=10
router 2.2.2.2: transit 192.168.1.2 data=192.168.1.2 cost=10
router 3.3.3.3: stub 10.3.0.0/16 cost=1
network 192.168.1.2/24 by=2.2.2.2: 1.1.1.1, 2.2.2.2";

#[test]
fn a_router_is_to_be_there(rt: HostRuntime) -> Result<(), Fail> {
    let other = RouterId(9);
    let found = fault(rt.alloc(), NETWORK, &Departure::Fails { router: other })?;
    assert!(rt; found == DepartureFault::NoRouter(other));
    Ok(())
}

#[test]
fn a_router_is_to_be_on_the_network_that_it_leaves(rt: HostRuntime) -> Result<(), Fail> {
    let event = leaves(R3);
    let found = fault(rt.alloc(), NETWORK, &event)?;
    assert!(rt; found == DepartureFault::NotOnNetwork(R3, lan()));
    Ok(())
}

/// 2.2.2.2 has no other link that leads to a router that is there.
const VIRTUAL: &str = "area 0.0.0.0
router 1.1.1.1: transit 192.168.1.3 data=192.168.1.1 cost=10
router 2.2.2.2: transit 192.168.1.3 data=192.168.1.2 cost=10, virtual 3.3.3.3 data=10.0.0.1 cost=1
router 3.3.3.3: transit 192.168.1.3 data=192.168.1.3 cost=10
network 192.168.1.3/24 by=3.3.3.3: 1.1.1.1, 2.2.2.2, 3.3.3.3";

/// 3.3.3.3 has failed.
const FAILED: &str = "area 0.0.0.0
router 1.1.1.1: transit 192.168.1.2 data=192.168.1.1 cost=10
router 2.2.2.2: transit 192.168.1.2 data=192.168.1.2 cost=10
network 192.168.1.2/24 by=2.2.2.2: 1.1.1.1, 2.2.2.2";

#[test]
fn virtual_links_to_a_router_that_fails_go(rt: HostRuntime) -> Result<(), Fail> {
    let event = Departure::Fails { router: R3 };
    assert!(rt; leads_to(rt.alloc(), VIRTUAL, &event, FAILED)?);
    Ok(())
}

/// 3.3.3.3 has left the network.
const LEFT: &str = "area 0.0.0.0
router 1.1.1.1: transit 192.168.1.2 data=192.168.1.1 cost=10
router 2.2.2.2: transit 192.168.1.2 data=192.168.1.2 cost=10, virtual 3.3.3.3 data=10.0.0.1 cost=1
network 192.168.1.2/24 by=2.2.2.2: 1.1.1.1, 2.2.2.2";

#[test]
fn a_router_without_links_is_no_more(rt: HostRuntime) -> Result<(), Fail> {
    let event = leaves(R3);
    assert!(rt; leads_to(rt.alloc(), VIRTUAL, &event, LEFT)?);
    Ok(())
}

/// A network of three routers of which 1.1.1.1, which is not the Designated Router, leaves.
const THREE: &str = "area 0.0.0.0
router 1.1.1.1: transit 192.168.1.3 data=192.168.1.1 cost=10, stub 10.1.0.0/16 cost=1
router 2.2.2.2: transit 192.168.1.3 data=192.168.1.2 cost=10
router 3.3.3.3: transit 192.168.1.3 data=192.168.1.3 cost=10
network 192.168.1.3/24 by=3.3.3.3: 1.1.1.1, 2.2.2.2, 3.3.3.3";

/// The others stay as they are.
const OTHERS: &str = "area 0.0.0.0
router 1.1.1.1: stub 10.1.0.0/16 cost=1
router 2.2.2.2: transit 192.168.1.3 data=192.168.1.2 cost=10
router 3.3.3.3: transit 192.168.1.3 data=192.168.1.3 cost=10
network 192.168.1.3/24 by=3.3.3.3: 2.2.2.2, 3.3.3.3";

#[test]
fn a_network_lsa_forgets_a_router(rt: HostRuntime) -> Result<(), Fail> {
    let event = leaves(R1);
    assert!(rt; leads_to(rt.alloc(), THREE, &event, OTHERS)?);
    Ok(())
}
