//! Transit networks in use.

ghost use Rattle.std.specs.Prelude.{◌≡◌, ◌||◌, IfOk};
ghost use Rattle.std.specs.List.{list_any};
ghost use Rattle.audit_areas.specs.Areas.{is_other};
ghost use Rattle.audit_topology.specs.Networks.{is_in_use, leads_elsewhere, leads_elsewhere_in};

use area_graph::Vertex;
use audit_areas::{AuditedArea, has_other_end};
use std::alloc::{AllocError, Allocator};

/// Whether an edge in an area leads out of a router to another vertex than a network.
fn leads_elsewhere_in<A: Allocator + Copy>(
    alloc: A,
    area: &AuditedArea<'_, A>,
    network: Vertex,
    router: Vertex,
) -> Result<bool, AllocError>
    ensures { IfOk result (λ leads. leads ≡ leads_elsewhere_in router network area.now) }
{
    let ends = area.ends(alloc, router)?;
    Ok(has_other_end(&ends, network))
}

/// Whether an edge in one of the areas leads out of a router to another vertex than a network.
fn leads_elsewhere<A: Allocator + Copy>(
    alloc: A,
    areas: &[AuditedArea<'_, A>],
    network: Vertex,
    router: Vertex,
) -> Result<bool, AllocError>
    ensures { IfOk result (λ leads. leads ≡ leads_elsewhere areas.now network router) }
{
    for area in areas {
        if leads_elsewhere_in(alloc, area, network, router)? {
            return Ok(true);
        }
    }
    Ok(false)
}

/// Whether one of the ends of edges out of a network is another router than this one, or this one
/// has an edge elsewhere.
fn shows_use<A: Allocator + Copy>(
    alloc: A,
    areas: &[AuditedArea<'_, A>],
    network: Vertex,
    ends: &[Vertex],
    router: Vertex,
) -> Result<bool, AllocError>
    ensures { IfOk result (λ shows. shows ≡ (list_any (is_other router) ends.now
        || leads_elsewhere areas.now network router)) }
{
    if has_other_end(ends, router) {
        return Ok(true);
    }
    leads_elsewhere(alloc, areas, network, router)
}

/// Whether one of the ends of edges out of a network shows that it is in use.
fn some_shows_use<A: Allocator + Copy>(
    alloc: A,
    areas: &[AuditedArea<'_, A>],
    network: Vertex,
    ends: &[Vertex],
) -> Result<bool, AllocError>
    ensures { IfOk result (λ shows. shows ≡ list_any (λ router. list_any (is_other router) ends.now
        || leads_elsewhere areas.now network router) ends.now) }
{
    for router in ends {
        if shows_use(alloc, areas, network, ends, *router)? {
            return Ok(true);
        }
    }
    Ok(false)
}

/// Whether a network of an area is in use: it has edges to several routers, or to one that has an
/// edge elsewhere. What is left of a Designated Router that is down is not in use.
pub(crate) fn is_in_use<A: Allocator + Copy>(
    alloc: A,
    areas: &[AuditedArea<'_, A>],
    area: &AuditedArea<'_, A>,
    network: Vertex,
) -> Result<bool, AllocError>
    ensures { IfOk result (λ in_use. in_use ≡ is_in_use areas.now area.now network) }
{
    let ends = area.ends(alloc, network)?;
    some_shows_use(alloc, areas, network, &ends)
}
