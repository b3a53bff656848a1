//! Routers that leave a transit network. The texts are the databases of real routers before and
//! after, but for ages, sequence numbers and other LSAs.

use super::built::{R1, R2, leads_to, leaves};
use std::test::*;

/// A network of 1.1.1.1 and 2.2.2.2, its Designated Router.
const TWO: &str = "area 0.0.0.1
router 1.1.1.1 flags=1: point-to-point 4.4.4.4 data=10.0.14.1 cost=30, stub 10.0.14.0/30 cost=30, \
transit 192.168.1.2 data=192.168.1.1 cost=10
router 2.2.2.2: transit 192.168.1.2 data=192.168.1.2 cost=12, point-to-point 4.4.4.4 \
data=10.0.24.1 cost=10, stub 10.0.24.0/30 cost=10, stub 10.1.2.0/24 cost=1, stub 10.10.2.1/32 \
cost=5
network 192.168.1.2/24 by=2.2.2.2: 1.1.1.1, 2.2.2.2";

/// 2.2.2.2 has a stub network.
const SECOND: &str = "area 0.0.0.1
router 1.1.1.1 flags=1: point-to-point 4.4.4.4 data=10.0.14.1 cost=30, stub 10.0.14.0/30 cost=30
router 2.2.2.2: stub 192.168.1.0/24 cost=12, point-to-point 4.4.4.4 data=10.0.24.1 cost=10, stub \
10.0.24.0/30 cost=10, stub 10.1.2.0/24 cost=1, stub 10.10.2.1/32 cost=5";

#[test]
fn the_other_router_leaves(rt: HostRuntime) -> Result<(), Fail> {
    let event = leaves(R1);
    assert!(rt; leads_to(rt.alloc(), TWO, &event, SECOND)?);
    Ok(())
}

/// 1.1.1.1 has a stub network.
const FIRST: &str = "area 0.0.0.1
router 1.1.1.1 flags=1: point-to-point 4.4.4.4 data=10.0.14.1 cost=30, stub 10.0.14.0/30 cost=30, \
stub 192.168.1.0/24 cost=10
router 2.2.2.2: point-to-point 4.4.4.4 data=10.0.24.1 cost=10, stub 10.0.24.0/30 cost=10, stub \
10.1.2.0/24 cost=1, stub 10.10.2.1/32 cost=5";

#[test]
fn the_designated_router_leaves(rt: HostRuntime) -> Result<(), Fail> {
    let event = leaves(R2);
    assert!(rt; leads_to(rt.alloc(), TWO, &event, FIRST)?);
    Ok(())
}
