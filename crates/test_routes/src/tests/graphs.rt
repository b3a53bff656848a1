//! Numbers of vertices, networks, and areas that are absent.

use super::built::{Network, graph_fault, graph_in};
use area_graph::{Graph, GraphFault, Vertex};
use lsa_codec::{Addr, RouterId};
use std::alloc::Global;
use std::test::*;
use test_support::{R2, R4};

/// The number of a router's vertex.
fn router_at(graph: &Graph, router: u32) -> Option<usize> {
    graph.index_of(Vertex::Router(RouterId(router)))
}

/// The number of a network's vertex.
fn network_at(graph: &Graph, address: u32) -> Option<usize> {
    graph.index_of(Vertex::Network(Addr(address)))
}

/// How many vertices a graph has, and the numbers of a router and of the network 10.5.0.3.
fn numbers_of(graph: &Graph, router: u32) -> (usize, Option<usize>, Option<usize>) {
    (
        graph.len(),
        router_at(graph, router),
        network_at(graph, 0x0a05_0003),
    )
}

/// The numbers of the vertices that are networks.
fn networks_of(alloc: Global, graph: &Graph) -> Result<Vec<usize>, Fail> {
    let mut indices = Vec::new(alloc);
    for index in 0..graph.len() {
        if graph.is_network(index) {
            indices.push(index)?;
        }
    }
    Ok(indices)
}

/// Networks, a router of each, how many vertices the graph has, the numbers of the router and of
/// the network 10.5.0.3, and those of the vertices that are networks.
const NUMBERS: &[(
    &str,
    Network,
    u32,
    (usize, Option<usize>, Option<usize>),
    &[usize],
)] = &[
    ("the sample", Network::Sample, R2, (2, Some(1), None), &[]),
    (
        "three routers",
        Network::OfThree,
        R4,
        (4, Some(2), Some(3)),
        &[3],
    ),
];

#[test]
fn reports_numbers_and_networks(rt: HostRuntime) -> Result<(), Fail> {
    for (name, network, router, numbers, networks) in NUMBERS {
        let graph = graph_in(rt.alloc(), network)?;
        assert_eq!(rt; numbers_of(&graph, *router), *numbers, "{name}");
        assert_eq!(rt;
            networks_of(rt.alloc(), &graph)?.as_slice(),
            *networks,
            "{name}"
        );
    }
    Ok(())
}

#[test]
fn reports_an_absent_area(rt: HostRuntime) -> Result<(), Fail> {
    assert_eq!(rt; graph_fault(rt.alloc(), 0)?, None);
    assert_eq!(rt; graph_fault(rt.alloc(), 1)?, Some(GraphFault::NoArea));
    Ok(())
}
