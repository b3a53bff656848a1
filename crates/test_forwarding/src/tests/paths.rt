//! Paths of packets.

use super::built::{Network, path, reached};
use std::test::*;
use test_support::{R1, R2, R3, R4};

/// 1.1.1.1 reaches 4.4.4.4 over 2.2.2.2 and over 3.3.3.3 at the same cost.
const SQUARE: &str = "area 0.0.0.0\n\
router 1.1.1.1: point-to-point 2.2.2.2 data=10.0.12.1 cost=10, \
point-to-point 3.3.3.3 data=10.0.13.1 cost=10\n\
router 2.2.2.2: point-to-point 1.1.1.1 data=10.0.12.2 cost=10, \
point-to-point 4.4.4.4 data=10.0.24.2 cost=10\n\
router 3.3.3.3: point-to-point 1.1.1.1 data=10.0.13.3 cost=10, \
point-to-point 4.4.4.4 data=10.0.34.3 cost=10\n\
router 4.4.4.4: point-to-point 2.2.2.2 data=10.0.24.4 cost=10, \
point-to-point 3.3.3.3 data=10.0.34.4 cost=10, stub 10.4.0.0/16 cost=1";

/// 1.1.1.1 reaches 3.3.3.3 over the network 10.5.0.0/16.
const NETWORK: &str = "area 0.0.0.0
router 1.1.1.1: transit 10.5.0.3 data=10.5.0.1 cost=10
router 3.3.3.3: transit 10.5.0.3 data=10.5.0.3 cost=10, stub 10.3.0.0/16 cost=1
router 4.4.4.4: transit 10.5.0.3 data=10.5.0.4 cost=10
network 10.5.0.3/16 by=3.3.3.3: 1.1.1.1, 3.3.3.3, 4.4.4.4";

/// Two border routers announce a prefix that neither has.
pub(super) const BORDERS: &str = "area 0.0.0.0
router 1.1.1.1 flags=1: point-to-point 2.2.2.2 data=10.0.0.1 cost=10
router 2.2.2.2 flags=1: point-to-point 1.1.1.1 data=10.0.0.2 cost=10
summary 10.9.0.0/16 by=1.1.1.1 cost=5
summary 10.9.0.0/16 by=2.2.2.2 cost=5";

/// 1.1.1.1 reaches 2.2.2.2 and 3.3.3.3 over one interface, and 4.4.4.4 over both at the same cost.
pub(super) const HUB: &str = "area 0.0.0.0
router 1.1.1.1: point-to-point 2.2.2.2 data=10.0.0.1 cost=10, \
point-to-point 3.3.3.3 data=10.0.0.1 cost=10
router 2.2.2.2: point-to-point 1.1.1.1 data=10.0.0.2 cost=10, \
point-to-point 4.4.4.4 data=10.0.24.2 cost=10, stub 10.2.0.0/16 cost=1
router 3.3.3.3: point-to-point 1.1.1.1 data=10.0.0.3 cost=10, \
point-to-point 4.4.4.4 data=10.0.34.3 cost=10
router 4.4.4.4: point-to-point 2.2.2.2 data=10.0.24.4 cost=10, \
point-to-point 3.3.3.3 data=10.0.34.4 cost=10, stub 10.4.0.0/16 cost=1";

/// What a packet shows, the network, the router that it starts at, its address, and its path.
const PATHS: &[(&str, Network, u32, u32, &str)] = &[
    (
        "equal ways are all taken",
        Network::Text(SQUARE),
        R1,
        0x0a04_0001,
        "1.1.1.1 2.2.2.2 3.3.3.3 4.4.4.4 delivered ",
    ),
    (
        "an address without a route is a blackhole",
        Network::Text(SQUARE),
        R4,
        0x0a05_0001,
        "4.4.4.4 blackhole ",
    ),
    (
        "gateways are routers on the network",
        Network::Text(NETWORK),
        R1,
        0x0a03_0001,
        "1.1.1.1 3.3.3.3 delivered ",
    ),
    (
        "a walk that comes back is a loop",
        Network::Text(BORDERS),
        R1,
        0x0a09_0001,
        "1.1.1.1 2.2.2.2 loop 1.1.1.1 2.2.2.2 ",
    ),
    // Paths of least cost to 2.2.2.2 begin with the link to it alone (RFC 2328, 16.1.1).
    (
        "over one interface packets go to the neighbor on the least path",
        Network::Text(HUB),
        R1,
        0x0a02_0001,
        "1.1.1.1 2.2.2.2 delivered ",
    ),
    (
        "over one interface packets go to both neighbors on least paths",
        Network::Text(HUB),
        R1,
        0x0a04_0001,
        "1.1.1.1 2.2.2.2 3.3.3.3 4.4.4.4 delivered ",
    ),
    // Two areas: 1.1.1.1 and 2.2.2.2 in the backbone, 1.1.1.1 and 3.3.3.3 in the other one. 3.3.3.3
    // has a route by the summary-LSA of 1.1.1.1, which has two equal ways to 2.2.2.2.
    (
        "a summary leads into the backbone",
        Network::TwoAreas,
        R3,
        0x0a02_0001,
        "3.3.3.3 1.1.1.1 2.2.2.2 delivered ",
    ),
    // 10.5.0.0/16 is a network of 1.1.1.1 itself.
    (
        "a network of the router itself ends a walk",
        Network::TwoAreas,
        R1,
        0x0a05_0002,
        "1.1.1.1 delivered ",
    ),
    // No router makes a summary-LSA for 10.3.0.0/16, which is in the other area.
    (
        "a prefix without a summary is a blackhole",
        Network::TwoAreas,
        R2,
        0x0a03_0001,
        "2.2.2.2 blackhole ",
    ),
    // 2.2.2.2 announces 10.20.0.0/16 to the backbone, and does not use its own summary-LSA.
    (
        "the originator of a summary is without a route",
        Network::TwoAreas,
        R1,
        0x0a14_0001,
        "1.1.1.1 2.2.2.2 blackhole ",
    ),
    // 3.3.3.3 announces 10.31.0.0/16 with the forwarding address 10.2.0.9, to which 1.1.1.1 has
    // ways over 2.2.2.2. That router has no entry for 3.3.3.3, and so no route.
    (
        "packets go to the forwarding address",
        Network::TwoAreas,
        R1,
        0x0a1f_0001,
        "1.1.1.1 2.2.2.2 blackhole ",
    ),
    // Packets for prefixes that routers announce themselves (RFC 2328, 16.4 (2) and (3)): 3.3.3.3
    // announces 10.31.0.0/16, and 2.2.2.2 announces 10.32.0.0/16.
    (
        "packets leave at the router that announces",
        Network::TwoAreas,
        R3,
        0x0a1f_0001,
        "3.3.3.3 external ",
    ),
    (
        "other routers send to the one that announces",
        Network::TwoAreas,
        R1,
        0x0a20_0001,
        "1.1.1.1 2.2.2.2 external ",
    ),
    (
        "a prefix at MaxAge is not in use",
        Network::AtMaxAge,
        R3,
        0x0a1f_0001,
        "3.3.3.3 blackhole ",
    ),
];

#[test]
fn packets_go_where_their_paths_lead(rt: HostRuntime) -> Result<(), Fail> {
    for (name, network, from, address, wanted) in PATHS {
        let found = path(rt.alloc(), *network, *from, *address)?;
        assert_eq!(rt; found.as_str(), *wanted, "{name}");
    }
    Ok(())
}

/// The same where the tables of all routers are made before.
#[test]
fn a_hub_sends_to_neighbors_on_least_paths(rt: HostRuntime) -> Result<(), Fail> {
    let near = reached(rt.alloc(), HUB, R1, 0x0a02_0001)?;
    assert_eq!(rt; near.as_str(), "1.1.1.1 2.2.2.2 ");
    let far = reached(rt.alloc(), HUB, R1, 0x0a04_0001)?;
    assert_eq!(rt; far.as_str(), "1.1.1.1 2.2.2.2 3.3.3.3 4.4.4.4 ");
    Ok(())
}
