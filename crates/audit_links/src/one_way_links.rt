//! Links without a link back.

ghost use Rattle.std.specs.Prelude.{◌≡◌, ◌+◌, ◌<◌, ◌^◌, IfOk, Some};
ghost use Rattle.std.specs.List.{list_any};
ghost use Rattle.area_graph.specs.AreaEdges.{target_of};
ghost use Rattle.area_graph.specs.Vertex.{is_same};
ghost use Rattle.audit_links.specs.OneWay.{one_way_links, place_of_link, place_to, places_of_links};

use crate::links::links_in;
use area_graph::Vertex;
use audit_areas::{AuditedArea, is_end, push_some};
use audit_places::{Form, Place};
use lsa_codec::{AreaId, Link, LinkKind, RouterId};
use std::alloc::{AllocError, Allocator};

/// The router or transit network that a link leads to. Links of other types lead to none.
fn target_of(link: Link) -> Option<Vertex>
    ensures { result ≡ target_of link }
{
    match link.kind {
        LinkKind::PointToPoint => Some(Vertex::Router(RouterId(link.id.0))),
        LinkKind::Transit => Some(Vertex::Network(link.id)),
        _ => None,
    }
}

/// The place of a link to a vertex, with this number of links before it, unless the vertex is an
/// end of an edge.
fn place_to<A: Allocator>(
    area: AreaId,
    router: RouterId,
    ends: &[Vertex],
    before: usize,
    to: Vertex,
) -> Option<Place<A>>
    requires { before + 1 < 2 ^ 63 }
    ensures { result
        ≡ place_to area router (λ v. list_any (is_same v) ends.now) before (Some to) }
{
    if is_end(ends, to) {
        return None;
    }
    let number = before + 1;
    Some(Place::of(Form::OneWay {
        area,
        router,
        number,
        to,
    }))
}

/// The place of a link with this number of links before it, if it leads to a vertex that is no end
/// of an edge.
fn place_of_link<A: Allocator>(
    area: AreaId,
    router: RouterId,
    ends: &[Vertex],
    before: usize,
    link: Link,
) -> Option<Place<A>>
    requires { before + 1 < 2 ^ 63 }
    ensures { result
        ≡ place_of_link area router (λ v. list_any (is_same v) ends.now) (before, link) }
{
    match target_of(link) {
        Some(to) => place_to(area, router, ends, before, to),
        None => None,
    }
}

/// The places of those links that lead to no end of an edge, by number.
fn places_of_links<A: Allocator + Copy>(
    alloc: A,
    area: AreaId,
    router: RouterId,
    ends: &[Vertex],
    links: &[Link],
) -> Result<Vec<Place<A>, A>, AllocError>
    ensures { IfOk result (λ places. places.items
        ≡ places_of_links area router (λ v. list_any (is_same v) ends.now) links.now) }
{
    let mut places = Vec::new(alloc);
    for before in 0..links.len() {
        push_some(
            &mut places,
            place_of_link(area, router, ends, before, links[before]),
        )?;
    }
    Ok(places)
}

/// The places of the links of types 1 and 2 of a router that no edge leads over, by number.
pub(crate) fn one_way_links<A: Allocator + Copy>(
    alloc: A,
    area: &AuditedArea<'_, A>,
    router: RouterId,
) -> Result<Vec<Place<A>, A>, AllocError>
    ensures { IfOk result (λ places. places.items ≡ one_way_links area.now router) }
{
    let links = links_in(alloc, area, router)?;
    let ends = area.ends(alloc, Vertex::Router(router))?;
    places_of_links(alloc, area.area(), router, &ends, &links)
}
