//! The routers at the other ends of links.

ghost use Rattle.std.specs.Prelude.{◌≡◌, ◌<◌, ◌++◌, ◌∷◌, [], length, List, IfOk, OnOk};
ghost use Rattle.std.specs.List.{cons_option, filter_map};
ghost use Rattle.lsa_codec.specs.declared.address.RouterId.{RouterId as AnyRouter};
ghost use Rattle.lsdb.specs.Lists.{Lists};
ghost use Rattle.area_graph.specs.declared.vertex.Vertex.{Vertex as AnyVertex};
ghost use Rattle.area_graph.specs.Paths.{DirectedEdge};
ghost use Rattle.area_graph.specs.Rising.{rising};
ghost use Rattle.lsa_codec.specs.Order.{router_cmp};
ghost use Rattle.hop_ends.specs.Owners.{AreGraphsOf, far_end, far_ends, router_at};
ghost use Rattle.hop_ends.specs.steps.Rows.{HasEdges, end_over, target_of};

use crate::area_graphs::AreaGraphs;
use crate::rising::in_order;
use area_graph::{Edge, Graph, Vertex};
use lsa_codec::{Addr, RouterId};
use std::alloc::{AllocError, Allocator};

/// The router of a vertex, if it is one.
fn router_at(vertex: Vertex) -> Option<RouterId>
    ensures { result ≡ router_at vertex }
{
    match vertex {
        Vertex::Router(router) => Some(router),
        Vertex::Network(_) => None,
    }
}

/// The router that an edge of a graph leads to, if it leads to one.
pub(crate) fn target_of<A: Allocator + Copy>(graph: &Graph<A>, edge: &Edge) -> Option<RouterId>
    requires { edge.now.to < length graph.now.vertices }
    ensures { result ≡ target_of graph.now edge.now }
{
    router_at(graph.vertex(edge.to as usize))
}

/// Adds an item to a list, if there is one.
pub fn push_some<T: Drop, A: Allocator + Copy>(
    list: &mut Vec<T, A>,
    item: Option<T>,
) -> Result<(), AllocError>
    ensures { OnOk result (list.new.items ≡ list.old.items ++ cons_option item []) }
{
    if let Some(item) = item {
        list.push(item)?;
    }
    Ok(())
}

/// The router that an edge of a graph leads to, if it is one over this interface.
fn end_over<A: Allocator + Copy>(graph: &Graph<A>, interface: Addr, edge: &Edge) -> Option<RouterId>
    requires { edge.now.to < length graph.now.vertices }
    ensures { result ≡ end_over graph.now interface edge.now }
{
    if edge.link_data != interface {
        return None;
    }
    target_of(graph, edge)
}

/// Adds the routers at the other ends of the links of a router's interface in one graph.
fn push_far_ends<A: Allocator + Copy>(
    found: &mut Vec<RouterId, A>,
    graph: &Graph<A>,
    router: RouterId,
    interface: Addr,
) -> Result<(), AllocError>
    ensures { OnOk result ((edges : List (DirectedEdge AnyVertex)) (before : List AnyRouter)
        → HasEdges graph.now edges
        → rising router_cmp found.old.items ≡ rising router_cmp before
        → rising router_cmp found.new.items
        ≡ rising router_cmp (before ++ filter_map (far_end router interface) edges)) }
{
    let Some(index) = graph.index_of(Vertex::Router(router)) else {
        return Ok(());
    };
    for edge in graph.edges(index) {
        push_some(found, end_over(graph, interface, edge))?;
    }
    Ok(())
}

impl<'a, A: Allocator + Copy> AreaGraphs<'a, A> {
    /// The routers at the other ends of the point-to-point links of a router with this Link Data,
    /// in all areas and in rising order. Over an interface to several neighbors, as one of
    /// point-to-multipoint, these are all of them.
    ///
    /// # Errors
    ///
    /// Memory ran out.
    pub fn far_ends(
        &self,
        alloc: A,
        router: RouterId,
        interface: Addr,
    ) -> Result<Vec<RouterId, A>, AllocError>
        ensures { IfOk result (λ found. (db : Lists) → AreGraphsOf db self.now
            → found.items ≡ far_ends db router interface) }
    {
        let mut found = Vec::new(alloc);
        for graph in self.as_slice() {
            push_far_ends(&mut found, graph, router, interface)?;
        }
        in_order(alloc, &found)
    }
}
