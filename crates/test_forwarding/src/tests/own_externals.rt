//! External prefixes that routers announce themselves: 3.3.3.3 announces 10.31.0.0/16, and 2.2.2.2
//! announces 10.32.0.0/16 (RFC 2328, 16.4 (2) and (3)).

use super::built::graph_of;
use lsa_codec::RouterId;
use std::alloc::Global;
use std::test::*;
use test_support::{NETWORK, R1, R2, R3};

/// Whether a router's match of an address in the network is an external prefix of its own, and the
/// number of its ways. `None` where it has no match.
fn own_and_ways(alloc: Global, router: u32, address: u32) -> Result<Option<(bool, usize)>, Fail> {
    let graph = graph_of(alloc, NETWORK, address)?;
    let step = graph.step(RouterId(router)).ok_or("the router")?;
    match &step.matched {
        Some(found) => Ok(Some((found.is_own, found.ways.len()))),
        None => Ok(None),
    }
}

/// 1.1.1.1 has two ways to 2.2.2.2: over their link, and over their network. 3.3.3.3 has no entry
/// for 2.2.2.2.
#[test]
fn the_prefix_is_that_of_one_router_alone(rt: HostRuntime) -> Result<(), Fail> {
    for (router, wanted) in [(R1, Some((false, 2))), (R2, Some((true, 0))), (R3, None)] {
        let found = own_and_ways(rt.alloc(), router, 0x0a20_0001)?;
        assert_eq!(rt; found, wanted, "{router:x}");
    }
    Ok(())
}
