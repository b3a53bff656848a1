//! The parts of an area.

ghost use Rattle.std.specs.Prelude.{◌≡◌, IfOk, OnOk, filter};
ghost use Rattle.audit_topology.specs.Parts.{counts, has_border, is_in, is_in_some, parts_of, parts_that_count, with_part};

use crate::part::part_of;
use audit_areas::{AuditedArea, is_border};
use audit_places::Part;
use lsa_codec::RouterId;
use std::alloc::{AllocError, Allocator};

/// Whether a router is among the routers of a part.
fn is_in(router: RouterId, part: &[RouterId]) -> bool
    ensures { result ≡ is_in router part.now }
{
    part.iter().any(|other| other.0 == router.0)
}

/// Whether a router is in a part.
fn is_in_part<A: Allocator>(router: RouterId, part: &Part<A>) -> bool
    ensures { result ≡ is_in router part.now }
{
    is_in(router, &part.routers)
}

/// Whether a router is in one of some parts.
fn is_in_some<A: Allocator>(router: RouterId, parts: &[Part<A>]) -> bool
    ensures { result ≡ is_in_some router parts.now }
{
    parts.iter().any(|part| is_in_part(router, part))
}

/// Adds the part of a router, unless it is in one of the parts.
fn add_part<A: Allocator + Copy>(
    parts: &mut Vec<Part<A>, A>,
    alloc: A,
    area: &AuditedArea<'_, A>,
    router: RouterId,
) -> Result<(), AllocError>
    ensures { OnOk result (parts.new.items ≡ with_part area.now parts.old.items router) }
{
    if is_in_some(router, parts) {
        return Ok(());
    }
    let routers = part_of(alloc, area, router)?;
    parts.push(Part { routers })?;
    Ok(())
}

/// The parts of an area, in order of their least routers.
fn parts_of<A: Allocator + Copy>(
    alloc: A,
    area: &AuditedArea<'_, A>,
) -> Result<Vec<Part<A>, A>, AllocError>
    ensures { IfOk result (λ parts. parts.items ≡ parts_of area.now) }
{
    let mut parts = Vec::new(alloc);
    for router in area.routers() {
        add_part(&mut parts, alloc, area, *router)?;
    }
    Ok(parts)
}

/// Whether one of some routers is a border router.
fn has_border<A: Allocator + Copy>(areas: &[AuditedArea<'_, A>], routers: &[RouterId]) -> bool
    ensures { result ≡ has_border areas.now routers.now }
{
    routers.iter().any(|router| is_border(areas, *router))
}

/// Whether the routers of a part are several, or one of them is a border router.
fn counts<A: Allocator + Copy>(areas: &[AuditedArea<'_, A>], part: &[RouterId]) -> bool
    ensures { result ≡ counts areas.now part.now }
{
    part.len() > 1 || has_border(areas, part)
}

/// Whether a part has several routers, or is a border router.
fn part_counts<A: Allocator + Copy>(areas: &[AuditedArea<'_, A>], part: &Part<A>) -> bool
    ensures { result ≡ counts areas.now part.now }
{
    counts(areas, &part.routers)
}

/// Those of some parts that have several routers, or are border routers.
fn counted<A: Allocator + Copy>(
    alloc: A,
    areas: &[AuditedArea<'_, A>],
    parts: Vec<Part<A>, A>,
) -> Result<Vec<Part<A>, A>, AllocError>
    ensures { IfOk result (λ found. found.items ≡ filter (counts areas.now) parts.items) }
{
    parts
        .into_iter()
        .filter(|part| part_counts(areas, part))
        .collect(alloc)
}

/// The parts of an area that have several routers, or are border routers, in order of their least
/// routers.
pub(crate) fn parts_that_count<A: Allocator + Copy>(
    alloc: A,
    areas: &[AuditedArea<'_, A>],
    area: &AuditedArea<'_, A>,
) -> Result<Vec<Part<A>, A>, AllocError>
    ensures { IfOk result (λ parts. parts.items ≡ parts_that_count areas.now area.now) }
{
    let parts = parts_of(alloc, area)?;
    counted(alloc, areas, parts)
}
