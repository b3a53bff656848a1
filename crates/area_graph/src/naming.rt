//! Which vertices the LSAs of an area name: those that a router's links lead to, and the routers
//! that a network lists (RFC 2328, 16.1).

ghost use Rattle.std.specs.Prelude.{◌≡◌, ◌≢◌, ◌≤◌, ◌++◌, [], length, map, filter_map, AllPairs, OnOk, IfOk};
ghost use Rattle.std.specs.List.{cons_option};
ghost use Rattle.area_graph.specs.AreaEdges.{target_of};
ghost use Rattle.area_graph.specs.steps.Naming.{edge_to, linked, listed, naming};

use crate::edge::Edge;
use crate::numbers::{Vertices, number_near};
use crate::rows::Rows;
use crate::used::VertexLsa;
use crate::vertex::Vertex;
use lsa_codec::{Addr, Attached, Link, LinkKind, Links, Lsa, RouterId};
use std::alloc::{AllocError, Allocator};

/// The vertex that a link leads to.
pub(crate) fn target_of(link: Link) -> Option<Vertex>
    ensures { result ≡ target_of link }
{
    match link.kind {
        LinkKind::PointToPoint => Some(Vertex::Router(RouterId(link.id.0))),
        LinkKind::Transit => Some(Vertex::Network(link.id)),
        _ => None,
    }
}

/// An edge to a vertex, if it has a number. The number `near` is tried first.
fn edge_to<A: Allocator + Copy>(
    vertices: &Vertices<A>,
    near: usize,
    target: Vertex,
    cost: u16,
    link_data: Addr,
) -> Option<Edge>
    requires distinct { AllPairs (λ v w. v ≢ w) vertices.now.keys }
    requires few { length vertices.now.keys ≤ 8192 }
    ensures { result ≡ edge_to vertices.now.keys target cost link_data }
{
    let to = number_near(vertices, near, target)?;
    Some(Edge {
        to: to as u16,
        cost,
        link_data,
    })
}

/// The edge over a link of a router, whether or not the other end links back.
fn linked<A: Allocator + Copy>(vertices: &Vertices<A>, near: usize, link: Link) -> Option<Edge>
    requires distinct { AllPairs (λ v w. v ≢ w) vertices.now.keys }
    requires few { length vertices.now.keys ≤ 8192 }
    ensures { result ≡ linked vertices.now.keys link }
{
    let target = target_of(link)?;
    edge_to(vertices, near, target, link.metric, link.link_data)
}

/// An edge from a network to a router that it lists.
fn listed<A: Allocator + Copy>(
    vertices: &Vertices<A>,
    near: usize,
    router: RouterId,
) -> Option<Edge>
    requires distinct { AllPairs (λ v w. v ≢ w) vertices.now.keys }
    requires few { length vertices.now.keys ≤ 8192 }
    ensures { result ≡ listed vertices.now.keys router }
{
    edge_to(vertices, near, Vertex::Router(router), 0, Addr(0))
}

/// The number after that of the vertex to which the last edge of a row leads: many LSAs name
/// vertices in the order of the vertices' LSAs.
fn next_number(row: &[Edge]) -> usize {
    match row.last() {
        Some(edge) => usize::from(edge.to).saturating_add(1),
        None => 0,
    }
}

/// Adds an edge, if there is one.
fn add_any<A: Allocator + Copy>(
    row: &mut Vec<Edge, A>,
    edge: Option<Edge>,
) -> Result<(), AllocError>
    ensures { OnOk result (row.new.items ≡ row.old.items ++ cons_option edge []) }
{
    if let Some(edge) = edge {
        row.push(edge)?;
    }
    Ok(())
}

/// Adds the edges over the links of a router.
fn add_linked<A: Allocator + Copy>(
    row: &mut Vec<Edge, A>,
    vertices: &Vertices<A>,
    links: Links<'_>,
) -> Result<(), AllocError>
    requires distinct { AllPairs (λ v w. v ≢ w) vertices.now.keys }
    requires few { length vertices.now.keys ≤ 8192 }
    ensures { OnOk result
        (row.new.items ≡ row.old.items ++ filter_map (linked vertices.now.keys) links.entry) }
{
    for link in links {
        add_any(row, linked(vertices, next_number(row), link))?;
    }
    Ok(())
}

/// Adds edges to the routers that a network lists.
fn add_listed<A: Allocator + Copy>(
    row: &mut Vec<Edge, A>,
    vertices: &Vertices<A>,
    routers: Attached<'_>,
) -> Result<(), AllocError>
    requires distinct { AllPairs (λ v w. v ≢ w) vertices.now.keys }
    requires few { length vertices.now.keys ≤ 8192 }
    ensures { OnOk result
        (row.new.items ≡ row.old.items ++ filter_map (listed vertices.now.keys) routers.entry) }
{
    for router in routers {
        add_any(row, listed(vertices, next_number(row), router))?;
    }
    Ok(())
}

/// Adds an edge to each vertex that an LSA names.
fn add_naming<A: Allocator + Copy>(
    row: &mut Vec<Edge, A>,
    vertices: &Vertices<A>,
    lsa: &Lsa<A>,
) -> Result<(), AllocError>
    requires distinct { AllPairs (λ v w. v ≢ w) vertices.now.keys }
    requires few { length vertices.now.keys ≤ 8192 }
    ensures { OnOk result (row.new.items ≡ row.old.items ++ naming vertices.now.keys lsa.now) }
{
    if let Some(router) = lsa.router() {
        return add_linked(row, vertices, router.links());
    }
    match lsa.network() {
        Some(network) => add_listed(row, vertices, network.attached()),
        None => Ok(()),
    }
}

/// A row for each of these LSAs: edges to the vertices that it names.
pub(crate) fn naming_rows<A: Allocator + Copy>(
    alloc: A,
    vertices: &Vertices<A>,
    lsas: &[VertexLsa<'_, A>],
) -> Result<Rows<A>, AllocError>
    requires distinct { AllPairs (λ v w. v ≢ w) vertices.now.keys }
    requires few { length vertices.now.keys ≤ 8192 }
    ensures { IfOk result (λ rows. rows ≡ map (naming vertices.now.keys) lsas.now) }
{
    let mut rows = Rows::with_capacity(alloc, lsas.len())?;
    let mut row = Vec::new(alloc);
    for lsa in lsas {
        row.clear();
        add_naming(&mut row, vertices, lsa.lsa())?;
        rows.push(&row)?;
    }
    Ok(rows)
}
