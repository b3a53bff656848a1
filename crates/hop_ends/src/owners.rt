//! The routers with an address on a network.

ghost use Rattle.std.specs.Prelude.{◌≡◌, ◌<◌, ◌++◌, length, List, IfOk, OnOk};
ghost use Rattle.std.specs.List.{filter_map};
ghost use Rattle.lsa_codec.specs.declared.address.RouterId.{RouterId as AnyRouter};
ghost use Rattle.lsdb.specs.Lists.{Lists};
ghost use Rattle.area_graph.specs.declared.vertex.Vertex.{Vertex as AnyVertex};
ghost use Rattle.area_graph.specs.Paths.{DirectedEdge};
ghost use Rattle.area_graph.specs.Rising.{rising};
ghost use Rattle.lsa_codec.specs.Order.{router_cmp};
ghost use Rattle.hop_ends.specs.Owners.{AreGraphsOf, other_than, owner, owners};
ghost use Rattle.hop_ends.specs.steps.Rows.{HasEdges, joins_over, owner_over, owners_over};

use crate::area_graphs::AreaGraphs;
use crate::far_ends::{push_some, target_of};
use crate::rising::in_order;
use area_graph::{Edge, Graph, Vertex};
use lsa_codec::{Addr, RouterId};
use std::alloc::{AllocError, Allocator};

/// A router that is not this one.
fn other_than(router: RouterId, other: Option<RouterId>) -> Option<RouterId>
    ensures { result ≡ other_than router other }
{
    match other {
        Some(other) if other != router => Some(other),
        _ => None,
    }
}

/// The other router that an edge out of a network leads to, if it has this address there.
fn owner_over<A: Allocator + Copy>(
    graph: &Graph<A>,
    router: RouterId,
    address: Addr,
    edge: &Edge,
) -> Option<RouterId>
    requires { edge.now.to < length graph.now.vertices }
    ensures { result ≡ owner_over graph.now router address edge.now }
{
    if edge.link_data != address {
        return None;
    }
    other_than(router, target_of(graph, edge))
}

/// Whether an edge is one over this interface, to a network.
fn joins_over<A: Allocator + Copy>(graph: &Graph<A>, interface: Addr, edge: &Edge) -> bool
    requires { edge.now.to < length graph.now.vertices }
    ensures { result ≡ joins_over graph.now interface edge.now }
{
    edge.link_data == interface && graph.is_network(edge.to as usize)
}

/// Adds the other routers with this address on the network that an edge leads to, if it is one over
/// this interface.
fn push_owners_over<A: Allocator + Copy>(
    found: &mut Vec<RouterId, A>,
    graph: &Graph<A>,
    router: RouterId,
    interface: Addr,
    address: Addr,
    edge: &Edge,
) -> Result<(), AllocError>
    requires { edge.now.to < length graph.now.vertices }
    ensures { OnOk result (found.new.items
        ≡ found.old.items ++ owners_over graph.now router interface address edge.now) }
{
    if !joins_over(graph, interface, edge) {
        return Ok(());
    }
    for other in graph.edges(edge.to as usize) {
        push_some(found, owner_over(graph, router, address, other))?;
    }
    Ok(())
}

/// Adds the other routers with this address on the networks of a router's interface in one graph.
fn push_owners<A: Allocator + Copy>(
    found: &mut Vec<RouterId, A>,
    graph: &Graph<A>,
    router: RouterId,
    interface: Addr,
    address: Addr,
) -> Result<(), AllocError>
    ensures { OnOk result ((edges : List (DirectedEdge AnyVertex)) (before : List AnyRouter)
        → HasEdges graph.now edges
        → rising router_cmp found.old.items ≡ rising router_cmp before
        → rising router_cmp found.new.items
        ≡ rising router_cmp (before ++ filter_map (owner edges router interface address) edges)) }
{
    let Some(index) = graph.index_of(Vertex::Router(router)) else {
        return Ok(());
    };
    for edge in graph.edges(index) {
        push_owners_over(found, graph, router, interface, address, edge)?;
    }
    Ok(())
}

impl<'a, A: Allocator + Copy> AreaGraphs<'a, A> {
    /// The other routers with this interface address on the transit networks that a router's
    /// interface joins, in all areas and in rising order: their router-LSAs have a link to the
    /// network with this Link Data. There are none where the address is that of no router, such as
    /// a forwarding address outside the AS.
    ///
    /// # Errors
    ///
    /// Memory ran out.
    pub fn owners(
        &self,
        alloc: A,
        router: RouterId,
        interface: Addr,
        address: Addr,
    ) -> Result<Vec<RouterId, A>, AllocError>
        ensures { IfOk result (λ found. (db : Lists) → AreGraphsOf db self.now
            → found.items ≡ owners db router interface address) }
    {
        let mut found = Vec::new(alloc);
        for graph in self.as_slice() {
            push_owners(&mut found, graph, router, interface, address)?;
        }
        in_order(alloc, &found)
    }
}
