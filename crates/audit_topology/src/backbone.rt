//! The places of `abr-without-backbone`.

ghost use Rattle.std.specs.Prelude.{◌≡◌, IfOk, filter, map};
ghost use Rattle.lsdb.specs.Slots.{lists_of};
ghost use Rattle.audit_places.specs.Places.{at_router};
ghost use Rattle.audit_topology.specs.Backbone.{abr_without_backbone_places, has_backbone_edge, has_backbone_edge_in, is_off_backbone};

use area_graph::Vertex;
use audit_areas::{AuditedArea, audited_areas, is_border};
use audit_places::{Form, Place};
use lsa_codec::RouterId;
use lsdb::Database;
use routing_table::routers;
use std::alloc::{AllocError, Allocator};

/// Whether an area is the backbone, and a router has an edge there.
fn has_backbone_edge_in<A: Allocator + Copy>(router: RouterId, area: &AuditedArea<'_, A>) -> bool
    ensures { result ≡ has_backbone_edge_in router area.now }
{
    area.area().0 == 0 && area.has_edge(Vertex::Router(router))
}

/// Whether a router has an edge in the backbone.
fn has_backbone_edge<A: Allocator + Copy>(areas: &[AuditedArea<'_, A>], router: RouterId) -> bool
    ensures { result ≡ has_backbone_edge areas.now router }
{
    areas.iter().any(|area| has_backbone_edge_in(router, area))
}

/// Whether a router is a border router without an edge in the backbone.
#[tactic(auto, unfolding(crate::specs::Backbone::is_off_backbone))]
fn is_off_backbone<A: Allocator + Copy>(areas: &[AuditedArea<'_, A>], router: RouterId) -> bool
    ensures { result ≡ is_off_backbone areas.now router }
{
    is_border(areas, router) && !has_backbone_edge(areas, router)
}

/// The place of a router.
fn place_of_router<A: Allocator>(router: RouterId) -> Place<A>
    ensures { result ≡ at_router router }
{
    Place::of(Form::Router(router))
}

/// Those of some routers that are border routers without an edge in the backbone.
fn off_backbone<A: Allocator + Copy>(
    alloc: A,
    areas: &[AuditedArea<'_, A>],
    routers: &[RouterId],
) -> Result<Vec<RouterId, A>, AllocError>
    ensures { IfOk result
        (λ found. found.items ≡ filter (is_off_backbone areas.now) routers.now) }
{
    routers
        .iter()
        .copied()
        .filter(|router| is_off_backbone(areas, *router))
        .collect(alloc)
}

/// The places of some routers.
fn places_of_routers<A: Allocator + Copy>(
    alloc: A,
    routers: &[RouterId],
) -> Result<Vec<Place<A>, A>, AllocError>
    ensures { IfOk result
        (λ places. places.items ≡ map (λ router. at_router router) routers.now) }
{
    routers
        .iter()
        .map(|router| place_of_router(*router))
        .collect(alloc)
}

/// The places of `abr-without-backbone`: the border routers that are not attached to the backbone
/// or have no edge there (RFC 3509), in rising order.
///
/// # Errors
///
/// Memory ran out.
pub fn abr_without_backbone_places<A: Allocator + Copy>(
    alloc: A,
    database: &Database<A>,
) -> Result<Vec<Place<A>, A>, AllocError>
    ensures { IfOk result
        (λ places. places.items ≡ abr_without_backbone_places (lists_of database.now)) }
{
    let areas = audited_areas(alloc, database)?;
    let attached = routers(alloc, database)?;
    let found = off_backbone(alloc, &areas, &attached)?;
    places_of_routers(alloc, &found)
}
