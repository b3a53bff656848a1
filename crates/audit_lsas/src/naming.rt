//! Routers that LSAs name.

ghost use Rattle.std.specs.Prelude.{◌≡◌, IfOk, map, filter};
ghost use Rattle.std.specs.List.{list_any};
ghost use Rattle.lsa_codec.specs.Links.{is_point_to_point};
ghost use Rattle.lsdb.specs.Slots.{lists_of};
ghost use Rattle.link_report.specs.Links.{neighbor_of};
ghost use Rattle.audit_lsas.specs.Undescribed.{listed_if_linked, named, named_routers, namings_by, neighbors_of};

use interfaces::{Member, members_of};
use link_report::links_of;
use lsa_codec::{AreaId, Link, LinkKind, Lsa, RouterId};
use lsdb::Database;
use std::alloc::{AllocError, Allocator};

/// A router, and another one whose LSA names it: by a link, or as a member of its network.
#[derive(Clone, Copy, Debug, PartialEq, Eq, PartialOrd, Ord)]
pub(crate) struct Naming {
    /// The router that is named.
    pub(crate) router: RouterId,
    /// The router that originated the LSA.
    pub(crate) by: RouterId,
}

/// Whether a link is a point-to-point link.
fn is_point_to_point(link: Link) -> bool
    ensures { result ≡ is_point_to_point link.kind }
{
    matches!(link.kind, LinkKind::PointToPoint)
}

/// The router at the other end of a point-to-point link.
fn neighbor_of(link: Link) -> RouterId
    ensures { result ≡ neighbor_of link }
{
    RouterId(link.id.0)
}

/// Those of some links that are point-to-point links.
fn point_to_point<A: Allocator + Copy>(alloc: A, links: &[Link]) -> Result<Vec<Link, A>, AllocError>
    ensures { IfOk result
        (λ found. found.items ≡ filter (λ link. is_point_to_point link.kind) links.now) }
{
    links
        .iter()
        .copied()
        .filter(|link| is_point_to_point(*link))
        .collect(alloc)
}

/// The routers at the other ends of point-to-point links.
fn far_routers<A: Allocator + Copy>(
    alloc: A,
    links: &[Link],
) -> Result<Vec<RouterId, A>, AllocError>
    ensures { IfOk result (λ routers. routers.items ≡ map neighbor_of links.now) }
{
    links.iter().map(|link| neighbor_of(*link)).collect(alloc)
}

/// The routers to which the point-to-point links of a router-LSA lead. Other LSAs have no links.
fn neighbors_of<A: Allocator + Copy>(alloc: A, lsa: &Lsa<A>) -> Result<Vec<RouterId, A>, AllocError>
    ensures { IfOk result (λ routers. routers.items ≡ neighbors_of lsa.now) }
{
    let Some(router) = lsa.router() else {
        return Ok(Vec::new(alloc));
    };
    let links = links_of(alloc, &router)?;
    let found = point_to_point(alloc, &links)?;
    far_routers(alloc, &found)
}

/// Whether one of the members of a network has a link to it.
fn has_joined(members: &[Member]) -> bool
    ensures { result ≡ list_any (λ member. member.is_joined) members.now }
{
    members.iter().any(|member| member.is_joined)
}

/// The routers of members of a network.
fn listed<A: Allocator + Copy>(alloc: A, members: &[Member]) -> Result<Vec<RouterId, A>, AllocError>
    ensures { IfOk result (λ routers. routers.items ≡ map (λ member. member.router) members.now) }
{
    members.iter().map(|member| member.router).collect(alloc)
}

/// The routers of members of a network, where one of them has a link to it.
fn listed_if_linked<A: Allocator + Copy>(
    alloc: A,
    members: &[Member],
) -> Result<Vec<RouterId, A>, AllocError>
    ensures { IfOk result (λ routers. routers.items ≡ listed_if_linked members.now) }
{
    if !has_joined(members) {
        return Ok(Vec::new(alloc));
    }
    listed(alloc, members)
}

/// The routers that an LSA of an area names: those to which point-to-point links lead, and those
/// that a network-LSA lists, where the network has an edge (RFC 2328, 16.1).
fn named_routers<A: Allocator + Copy>(
    alloc: A,
    database: &Database<A>,
    area: AreaId,
    lsa: &Lsa<A>,
) -> Result<Vec<RouterId, A>, AllocError>
    ensures { IfOk result
        (λ routers. routers.items ≡ named_routers (lists_of database.now) area lsa.now) }
{
    let mut routers = neighbors_of(alloc, lsa)?;
    let members = members_of(alloc, database, area, lsa)?;
    let mut listed = listed_if_linked(alloc, &members)?;
    routers.append(&mut listed)?;
    Ok(routers)
}

/// The namings by an LSA of an area.
pub(crate) fn namings_by<A: Allocator + Copy>(
    alloc: A,
    database: &Database<A>,
    area: AreaId,
    lsa: &Lsa<A>,
) -> Result<Vec<Naming, A>, AllocError>
    ensures { IfOk result
        (λ namings. namings.items ≡ namings_by (lists_of database.now) area lsa.now) }
{
    let by = lsa.key().adv;
    let routers = named_routers(alloc, database, area, lsa)?;
    routers
        .iter()
        .map(|router| Naming {
            router: *router,
            by,
        })
        .collect(alloc)
}
