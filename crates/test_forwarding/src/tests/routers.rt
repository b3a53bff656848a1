//! The routers that next hops lead to, and those of a graph.

use super::built::{built_database, graph_of};
use super::texts::push_routers;
use hop_ends::AreaGraphs;
use lsa_codec::{Addr, RouterId};
use std::alloc::Global;
use std::test::*;
use test_support::{NETWORK, R1, R2, R3};

/// The far ends of an interface of 1.1.1.1.
fn far_ends(alloc: Global, interface: u32) -> Result<String, Fail> {
    let database = built_database(alloc)?;
    let graphs = AreaGraphs::of(alloc, &database)?;
    let mut text = String::new(alloc);
    let routers = graphs.far_ends(alloc, RouterId(R1), Addr(interface))?;
    push_routers(alloc, &mut text, &routers)?;
    Ok(text)
}

/// The other routers with an address on the networks of an interface of a router.
fn owners(alloc: Global, router: u32, interface: u32, address: u32) -> Result<String, Fail> {
    let database = built_database(alloc)?;
    let graphs = AreaGraphs::of(alloc, &database)?;
    let mut text = String::new(alloc);
    let routers = graphs.owners(alloc, RouterId(router), Addr(interface), Addr(address))?;
    push_routers(alloc, &mut text, &routers)?;
    Ok(text)
}

/// The routers of the graph of an address.
fn routers_of(alloc: Global, address: u32) -> Result<String, Fail> {
    let graph = graph_of(alloc, NETWORK, address)?;
    let mut text = String::new(alloc);
    for step in graph.as_slice() {
        push_routers(alloc, &mut text, &[step.router])?;
    }
    Ok(text)
}

/// Each area has one link of 1.1.1.1. The interface 10.5.0.1 has none: it joins a network.
#[test]
fn far_ends_are_found_in_all_areas(rt: HostRuntime) -> Result<(), Fail> {
    for (interface, wanted) in [
        (0x0a00_0001, "2.2.2.2 "),
        (0x0a01_0001, "3.3.3.3 "),
        (0x0a05_0001, ""),
        (0x0a00_0002, ""),
    ] {
        let found = far_ends(rt.alloc(), interface)?;
        assert_eq!(rt; found.as_str(), wanted, "{interface:x}");
    }
    Ok(())
}

/// The network 10.5.0.2 has two routers: 1.1.1.1 with 10.5.0.1, and 2.2.2.2 with 10.5.0.2.
#[test]
fn owners_are_other_routers_on_the_network(rt: HostRuntime) -> Result<(), Fail> {
    for (router, interface, address, wanted) in [
        (R1, 0x0a05_0001, 0x0a05_0002, "2.2.2.2 "),
        (R2, 0x0a05_0002, 0x0a05_0001, "1.1.1.1 "),
        (R1, 0x0a05_0001, 0x0a05_0001, ""),
        (R1, 0x0a05_0001, 0x0a05_0009, ""),
        (R1, 0x0a00_0001, 0x0a05_0002, ""),
        (R3, 0x0a05_0001, 0x0a05_0002, ""),
    ] {
        let found = owners(rt.alloc(), router, interface, address)?;
        assert_eq!(rt;
            found.as_str(),
            wanted,
            "{router:x} {interface:x} {address:x}"
        );
    }
    Ok(())
}

/// 9.9.9.9, of which there is no more than an AS-external-LSA and a summary-LSA, is attached to no
/// area.
#[test]
fn a_graph_has_the_attached_routers_alone(rt: HostRuntime) -> Result<(), Fail> {
    let found = routers_of(rt.alloc(), 0x0a1e_0001)?;
    assert_eq!(rt; found.as_str(), "1.1.1.1 2.2.2.2 3.3.3.3 ");
    Ok(())
}
