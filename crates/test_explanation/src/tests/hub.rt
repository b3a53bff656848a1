//! A router with one interface to several neighbors.

use super::built::{ends, explained};
use std::test::*;

/// From 1.1.1.1 both 2.2.2.2 and 3.3.3.3 are at 10 over the interface 10.0.0.1. 4.4.4.4 is at 15
/// over the network of 3.3.3.3, at 20 over 2.2.2.2, and its own link to 1.1.1.1 costs 30.
const HUB: &str = "area 0.0.0.0
router 1.1.1.1: point-to-point 2.2.2.2 data=10.0.0.1 cost=10, \
point-to-point 3.3.3.3 data=10.0.0.1 cost=10, point-to-point 4.4.4.4 data=10.0.0.1 cost=30
router 2.2.2.2: point-to-point 1.1.1.1 data=10.0.0.2 cost=10, \
point-to-point 4.4.4.4 data=10.0.24.2 cost=10, stub 10.2.0.0/16 cost=1
router 3.3.3.3: point-to-point 1.1.1.1 data=10.0.0.3 cost=10, \
point-to-point 4.4.4.4 data=10.0.34.3 cost=10, transit 10.5.0.3 data=10.5.0.3 cost=5
router 4.4.4.4: point-to-point 1.1.1.1 data=10.0.0.4 cost=30, \
point-to-point 2.2.2.2 data=10.0.24.4 cost=10, point-to-point 3.3.3.3 data=10.0.34.4 cost=10, \
transit 10.5.0.3 data=10.5.0.4 cost=1, stub 10.4.0.0/16 cost=1
network 10.5.0.3/24 by=3.3.3.3: 3.3.3.3, 4.4.4.4";

const OVER_NETWORK: &str = "no route
rule none
used area 0.0.0.0 router r4 #5 distance 15 metric 1: 16.1 least cost
way area 0.0.0.0 r1 -> r3 out 10.0.0.1 cost 10 sum 10
way area 0.0.0.0 r3 -> r4 out 10.5.0.3 over 10.5.0.3 cost 5 sum 15
rests on area 0.0.0.0 router r1
rests on area 0.0.0.0 router r3
rests on area 0.0.0.0 router r4
rests on area 0.0.0.0 network 10.5.0.3 by r3
";

const TO_NETWORK: &str = "no route
rule none
used area 0.0.0.0 network 10.5.0.3 by r3 distance 15 metric 0: 16.1 least cost
way area 0.0.0.0 r1 -> r3 out 10.0.0.1 cost 10 sum 10
way area 0.0.0.0 r3 -> network 10.5.0.3 out 10.5.0.3 cost 5 sum 15
rests on area 0.0.0.0 router r1
rests on area 0.0.0.0 router r3
rests on area 0.0.0.0 network 10.5.0.3 by r3
";

#[test]
fn steps_lead_over_networks_and_to_them(rt: HostRuntime) -> Result<(), Fail> {
    let over = explained(rt.alloc(), HUB, 0x0a04_0000, 16)?;
    assert_eq!(rt; over.as_str(), OVER_NETWORK);
    let to = explained(rt.alloc(), HUB, 0x0a05_0000, 24)?;
    assert_eq!(rt; to.as_str(), TO_NETWORK);
    Ok(())
}

#[test]
fn routes_lead_to_some_neighbors_alone(rt: HostRuntime) -> Result<(), Fail> {
    let near = ends(rt.alloc(), HUB, 0x0a02_0000, 16, 0x0a00_0001)?;
    assert_eq!(rt; near.as_str(), "[RouterId(33686018)]");
    let far = ends(rt.alloc(), HUB, 0x0a04_0000, 16, 0x0a00_0001)?;
    assert_eq!(rt; far.as_str(), "[RouterId(50529027)]");
    let none = ends(rt.alloc(), HUB, 0x0a04_0000, 16, 0x0a00_0002)?;
    assert_eq!(rt; none.as_str(), "[]");
    Ok(())
}
