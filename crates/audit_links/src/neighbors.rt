//! Interfaces with several neighbors.

ghost use Rattle.std.specs.Prelude.{◌≡◌, IfOk, map};
ghost use Rattle.std.specs.List.{filter_map, list_any};
ghost use Rattle.area_graph.specs.Vertex.{is_same};
ghost use Rattle.audit_places.specs.Places.{several_neighbors};
ghost use Rattle.audit_links.specs.Neighbors.{interfaces_with_several, leads_to_neighbor, neighbor_over, neighbors_of};

use crate::links::links_in;
use area_graph::Vertex;
use audit_areas::{AuditedArea, is_end, several};
use audit_places::{Form, Place};
use link_report::rising;
use lsa_codec::{Addr, AreaId, Link, LinkKind, RouterId};
use std::alloc::{AllocError, Allocator};

/// An address, and a router at it, or over the interface with it.
pub(crate) type AtAddress = (Addr, RouterId);

/// Whether a link is a point-to-point link to a router that is one of the ends of edges.
fn leads_to_neighbor(ends: &[Vertex], link: Link) -> bool
    ensures { result ≡ leads_to_neighbor (λ v. list_any (is_same v) ends.now) link }
{
    matches!(link.kind, LinkKind::PointToPoint) && is_end(ends, Vertex::Router(RouterId(link.id.0)))
}

/// The router at the other end of a point-to-point link, if it is one of the ends of edges, with
/// the address of the interface, the Link Data.
fn neighbor_over(ends: &[Vertex], link: Link) -> Option<AtAddress>
    ensures { result ≡ neighbor_over (λ v. list_any (is_same v) ends.now) link }
{
    if leads_to_neighbor(ends, link) {
        Some((link.link_data, RouterId(link.id.0)))
    } else {
        None
    }
}

/// The neighbors of a router in an area over point-to-point links that edges lead over, by the
/// address of the interface, each once.
fn neighbors_of<A: Allocator + Copy>(
    alloc: A,
    area: &AuditedArea<'_, A>,
    router: RouterId,
) -> Result<Vec<AtAddress, A>, AllocError>
    ensures { IfOk result (λ neighbors. neighbors.items ≡ neighbors_of area.now router) }
{
    let links = links_in(alloc, area, router)?;
    let ends = area.ends(alloc, Vertex::Router(router))?;
    let neighbors = neighbors_over(alloc, &ends, &links)?;
    rising(alloc, &neighbors)
}

/// The routers at the other ends of point-to-point links, of those that are ends of edges.
fn neighbors_over<A: Allocator + Copy>(
    alloc: A,
    ends: &[Vertex],
    links: &[Link],
) -> Result<Vec<AtAddress, A>, AllocError>
    ensures { IfOk result (λ neighbors. neighbors.items
        ≡ filter_map (neighbor_over (λ v. list_any (is_same v) ends.now)) links.now) }
{
    links
        .iter()
        .filter_map(|link| neighbor_over(ends, *link))
        .collect(alloc)
}

/// The place of an interface with several neighbors.
fn place_of_interface<A: Allocator>(
    area: AreaId,
    router: RouterId,
    group: (Addr, Vec<RouterId, A>),
) -> Place<A>
    ensures { result ≡ several_neighbors area router group.0 group.1.items }
{
    Place::of(Form::Interface {
        area,
        router,
        data: group.0,
        neighbors: group.1,
    })
}

/// The places of interfaces with several neighbors.
fn places_of_interfaces<A: Allocator + Copy>(
    alloc: A,
    area: AreaId,
    router: RouterId,
    groups: Vec<(Addr, Vec<RouterId, A>), A>,
) -> Result<Vec<Place<A>, A>, AllocError>
    ensures { IfOk result (λ places. places.items
        ≡ map (λ g. several_neighbors area router g.0 g.1.items) groups.items) }
{
    groups
        .into_iter()
        .map(|group| place_of_interface(area, router, group))
        .collect(alloc)
}

/// The places of the interfaces of a router with several neighbors, by address.
pub(crate) fn interfaces_with_several<A: Allocator + Copy>(
    alloc: A,
    area: &AuditedArea<'_, A>,
    router: RouterId,
) -> Result<Vec<Place<A>, A>, AllocError>
    ensures { IfOk result (λ places. places.items ≡ interfaces_with_several area.now router) }
{
    let neighbors = neighbors_of(alloc, area, router)?;
    let groups = several(alloc, &neighbors)?;
    places_of_interfaces(alloc, area.area(), router, groups)
}
