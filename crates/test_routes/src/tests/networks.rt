//! The edges of two small networks, and the ways in them.

ghost use Rattle.std.specs.Prelude.{◌≡◌, length};
ghost use Rattle.area_graph.specs.declared.vertex.Vertex.{Vertex};
ghost use Rattle.spf.specs.Distances.{IsTreeOf};

use super::built::{Network, graph_in};
use super::texts::hops_text;
use area_graph::{Edge, Graph};
use lsa_codec::RouterId;
use next_hops::Hops;
use spf::{Meter, Tree};
use std::alloc::Global;
use std::test::*;
use test_support::R1;

/// The network 10.5.0.3, of which 3.3.3.3 is the Designated Router, and three routers on it. A link
/// joins 1.1.1.1 and 4.4.4.4 too.
const THREE: &str = "\
area 0.0.0.0
router 1.1.1.1: transit 10.5.0.3 data=10.5.0.1 cost=10, point-to-point 4.4.4.4 data=10.0.0.1 cost=5
router 3.3.3.3 flags=2: transit 10.5.0.3 data=10.5.0.3 cost=10, stub 10.3.0.0/16 cost=1
router 4.4.4.4: point-to-point 1.1.1.1 data=10.0.0.4 cost=5, transit 10.5.0.3 data=10.5.0.4 cost=5
network 10.5.0.3/16 by=3.3.3.3: 1.1.1.1, 3.3.3.3, 4.4.4.4";

/// Adds edges: the vertex that each leads to, its cost, and the address of the interface.
fn push_edges(text: &mut String, edges: &[Edge]) -> Result<(), Fail> {
    for edge in edges {
        let (to, cost, address) = (edge.to, edge.cost, edge.link_data);
        write!(text, " {to} at {cost} by {address},")?;
    }
    Ok(())
}

/// The edges out of each vertex.
fn edges_text(alloc: Global, graph: &Graph) -> Result<String, Fail> {
    let mut text = String::new(alloc);
    for index in 0..graph.len() {
        write!(text, "{index}:")?;
        push_edges(&mut text, graph.edges(index))?;
        text.push_str("\n")?;
    }
    Ok(text)
}

/// The next hops of each vertex.
fn hops_of_each(alloc: Global, graph: &Graph, hops: &Hops) -> Result<String, Fail>
    requires { length hops.now ≡ length graph.now.vertices }
{
    let mut text = String::new(alloc);
    for index in 0..graph.len() {
        write!(text, "{index}:")?;
        text.push_str(&hops_text(alloc, hops.of(index))?)?;
        text.push_str("\n")?;
    }
    Ok(text)
}

/// The same by a tree.
fn hops_by_tree(alloc: Global, graph: &Graph, tree: &Tree) -> Result<String, Fail>
    requires { (root : Vertex) × IsTreeOf graph.now root tree.now }
{
    let hops = Hops::build(alloc, graph, tree)?;
    hops_of_each(alloc, graph, &hops)
}

/// The same by the tree of 1.1.1.1.
fn hops_in(alloc: Global, graph: &Graph) -> Result<String, Fail> {
    let tree = Tree::build(alloc, graph, RouterId(R1), &mut Meter::new())?;
    hops_by_tree(alloc, graph, &tree)
}

/// The edges of the graph of a network, and the next hops of 1.1.1.1.
fn edges_and_hops(alloc: Global, network: &Network) -> Result<(String, String), Fail> {
    let graph = graph_in(alloc, network)?;
    Ok((edges_text(alloc, &graph)?, hops_in(alloc, &graph)?))
}

/// Networks, the edges out of each vertex in the order of the texts, and its next hops.
const NETWORKS: &[(&str, Network, &str, &str)] = &[
    (
        "two routers",
        Network::Sample,
        "0: 1 at 10 by 10.0.0.1,\n1: 0 at 10 by 10.0.0.2,\n",
        "0:\n1: link:10.0.0.1\n",
    ),
    (
        "a network",
        Network::Text(THREE),
        "0: 3 at 10 by 10.5.0.1, 2 at 5 by 10.0.0.1,\n\
        1: 3 at 10 by 10.5.0.3,\n\
        2: 0 at 5 by 10.0.0.4, 3 at 5 by 10.5.0.4,\n\
        3: 0 at 0 by 10.5.0.1, 1 at 0 by 10.5.0.3, 2 at 0 by 10.5.0.4,\n",
        "0:\n\
        1: link:10.0.0.1 gateway:10.5.0.1:10.5.0.3\n\
        2: link:10.0.0.1\n\
        3: link:10.0.0.1 attached:10.5.0.1\n",
    ),
];

#[test]
fn edges_and_hops_of_networks(rt: HostRuntime) -> Result<(), Fail> {
    for (name, network, edges, hops) in NETWORKS {
        let found = edges_and_hops(rt.alloc(), network)?;
        assert_eq!(rt; found.0.as_str(), *edges, "{name}");
        assert_eq!(rt; found.1.as_str(), *hops, "{name}");
    }
    Ok(())
}
