//! Linked routers, and border routers.

ghost use Rattle.std.specs.Prelude.{◌≡◌};
ghost use Rattle.area_routes.specs.Attached.{is_attached};
ghost use Rattle.audit_areas.specs.Borders.{attached_count, has_edge_in, is_border, is_linked};

use crate::area::AuditedArea;
use area_graph::Vertex;
use area_routes::is_attached;
use lsa_codec::RouterId;
use std::alloc::Allocator;

/// Whether a router is attached to an area.
fn is_attached_to<A: Allocator + Copy>(router: RouterId, area: &AuditedArea<'_, A>) -> bool
    ensures { result ≡ is_attached area.now.db area.now.area router }
{
    is_attached(area.database(), area.area(), router)
}

/// How many of some areas a router is attached to.
pub fn attached_count<A: Allocator + Copy>(areas: &[AuditedArea<'_, A>], router: RouterId) -> usize
    ensures { result ≡ attached_count areas.now router }
{
    areas
        .iter()
        .filter(|area| is_attached_to(router, area))
        .count()
}

/// Whether a router has an edge in an area.
fn has_edge_in<A: Allocator + Copy>(router: RouterId, area: &AuditedArea<'_, A>) -> bool
    ensures { result ≡ has_edge_in router area.now }
{
    area.has_edge(Vertex::Router(router))
}

/// Whether a router is linked: it has an edge in one of the areas. A router without any is down or
/// cut off.
pub fn is_linked<A: Allocator + Copy>(areas: &[AuditedArea<'_, A>], router: RouterId) -> bool
    ensures { result ≡ is_linked areas.now router }
{
    areas.iter().any(|area| has_edge_in(router, area))
}

/// Whether a router is a border router: it is linked, and attached to several areas.
pub fn is_border<A: Allocator + Copy>(areas: &[AuditedArea<'_, A>], router: RouterId) -> bool
    ensures { result ≡ is_border areas.now router }
{
    attached_count(areas, router) > 1 && is_linked(areas, router)
}
