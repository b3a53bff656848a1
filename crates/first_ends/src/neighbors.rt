//! The neighbors to which a route leads over one interface.

ghost use Rattle.std.specs.Prelude.{◌≡◌, Contains, IfOk, OnOk};
ghost use Rattle.first_ends.specs.FirstEnds.{first_ends, first_ends_in, router_of, vertex_in, vertices_in};
ghost use Rattle.first_ends.specs.steps.Ends.{AreEdgesTo, InsertsRouters, IsEndOf, IsEndOver, end_over};

use area_candidates::AreaView;
use area_graph::Vertex;
use least_paths::{LeastEdge, edges_on_least_paths, least_edges, least_paths_by_distances};
use lsa_codec::{Addr, AreaId, RouterId};
use route_candidates::{RouterView, Target};
use std::alloc::{AllocError, Allocator};
use std::collections::BTreeSet;

/// The vertex of a target, if it is in this area.
fn vertex_in(area: AreaId, target: &Target) -> Option<Vertex>
    ensures { result ≡ vertex_in area target.now }
{
    if target.area.0 == area.0 {
        Some(target.vertex)
    } else {
        None
    }
}

/// The vertices of an area that are targets.
fn vertices_in<A: Allocator + Copy>(
    alloc: A,
    targets: &[Target],
    area: AreaId,
) -> Result<Vec<Vertex, A>, AllocError>
    ensures { IfOk result (λ vertices. vertices.items ≡ vertices_in area targets.now) }
{
    targets
        .iter()
        .filter_map(|target| vertex_in(area, target))
        .collect(alloc)
}

/// The router of a vertex, if it is one.
fn router_of(vertex: Vertex) -> Option<RouterId>
    ensures { result ≡ router_of vertex }
{
    match vertex {
        Vertex::Router(router) => Some(router),
        Vertex::Network(_) => None,
    }
}

/// The neighbor at the other end of an edge, if it starts at a router with this Link Data.
fn end_over(edge: &LeastEdge, router: RouterId, interface: Addr) -> Option<RouterId>
    ensures { result ≡ end_over router interface edge.now }
{
    if edge.from == Vertex::Router(router) && edge.link_data == interface {
        router_of(edge.to)
    } else {
        None
    }
}

/// Adds the neighbor at the other end of an edge, if it starts at a router with this Link Data.
fn insert_end<A: Allocator + Copy>(
    found: &mut BTreeSet<RouterId, A>,
    edge: &LeastEdge,
    router: RouterId,
    interface: Addr,
) -> Result<(), AllocError>
    ensures { OnOk result
        (InsertsRouters (IsEndOf router interface edge.now) found.old.keys found.new.keys) }
{
    let Some(end) = end_over(edge, router, interface) else {
        return Ok(());
    };
    found.insert(end)?;
    Ok(())
}

/// Adds the neighbors at the other ends of those of some edges that start at a router with this
/// Link Data.
fn insert_over<A: Allocator + Copy>(
    found: &mut BTreeSet<RouterId, A>,
    edges: &[LeastEdge],
    router: RouterId,
    interface: Addr,
) -> Result<(), AllocError>
    ensures { OnOk result
        (InsertsRouters (IsEndOver router interface edges.now) found.old.keys found.new.keys) }
{
    for edge in edges {
        insert_end(found, edge, router, interface)?;
    }
    Ok(())
}

/// The edges of an area on paths of least cost to targets, each with the distance of its start.
fn edges_to<A: Allocator + Copy>(
    alloc: A,
    view: &AreaView<'_, A>,
    vertices: &[Vertex],
) -> Result<Vec<LeastEdge, A>, AllocError>
    ensures { IfOk result (λ edges. AreEdgesTo view.now vertices.now edges.items) }
{
    least_paths_by_distances();
    edges_on_least_paths();
    let (graph, tree) = view.graph_and_tree();
    least_edges(alloc, graph, tree, vertices)
}

/// Adds the neighbors over an interface of an area with whose link a path of least cost begins.
fn insert_ends<A: Allocator + Copy>(
    alloc: A,
    found: &mut BTreeSet<RouterId, A>,
    view: &AreaView<'_, A>,
    targets: &[Target],
    interface: Addr,
) -> Result<(), AllocError>
    ensures { OnOk result (InsertsRouters
        (λ end. Contains (first_ends_in interface targets.now view.now) end)
        found.old.keys found.new.keys) }
{
    let vertices = vertices_in(alloc, targets, view.area())?;
    let edges = edges_to(alloc, view, &vertices)?;
    insert_over(found, &edges, view.router(), interface)?;
    Ok(())
}

/// The neighbors over the interface of a router with this Link Data with whose link a path of least
/// cost to one of these targets begins, in rising order.
///
/// # Errors
///
/// Memory ran out.
pub fn first_ends<A: Allocator + Copy>(
    alloc: A,
    view: &RouterView<'_, A>,
    targets: &[Target],
    interface: Addr,
) -> Result<Vec<RouterId, A>, AllocError>
    ensures { IfOk result (λ found. found.items ≡ first_ends view.now targets.now interface) }
{
    let mut found = BTreeSet::new(alloc);
    for area in view.areas() {
        insert_ends(alloc, &mut found, area, targets, interface)?;
    }
    found.into_iter().collect(alloc)
}
