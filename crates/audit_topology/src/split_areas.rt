//! The places of `split-area`.

ghost use Rattle.std.specs.Prelude.{◌≡◌, IfOk, length, nat_lt};
ghost use Rattle.lsdb.specs.Slots.{lists_of};
ghost use Rattle.audit_topology.specs.Parts.{place_of_parts, split_area_places, split_in, split_in_all};

use crate::parts::parts_that_count;
use audit_areas::{AuditedArea, audited_areas, push_some};
use audit_places::{Form, Part, Place};
use lsa_codec::AreaId;
use lsdb::Database;
use std::alloc::{AllocError, Allocator};

/// The places of `split-area`: the areas whose routers are in several parts without a path between
/// them (RFC 2328, 3.7), each with its parts. A part of one router counts only if that is a border
/// router.
///
/// It takes a tree for each part.
///
/// # Errors
///
/// Memory ran out.
pub fn split_area_places<A: Allocator + Copy>(
    alloc: A,
    database: &Database<A>,
) -> Result<Vec<Place<A>, A>, AllocError>
    ensures { IfOk result
        (λ places. places.items ≡ split_area_places (lists_of database.now)) }
{
    split_in_all(alloc, &audited_areas(alloc, database)?)
}

/// The places of those areas that have several parts that count.
fn split_in_all<A: Allocator + Copy>(
    alloc: A,
    areas: &[AuditedArea<'_, A>],
) -> Result<Vec<Place<A>, A>, AllocError>
    ensures { IfOk result (λ places. places.items ≡ split_in_all areas.now) }
{
    let mut places = Vec::new(alloc);
    for area in areas {
        push_some(&mut places, split_in(alloc, areas, area)?)?;
    }
    Ok(places)
}

/// The place of an area, if it has several parts that count.
fn split_in<A: Allocator + Copy>(
    alloc: A,
    areas: &[AuditedArea<'_, A>],
    area: &AuditedArea<'_, A>,
) -> Result<Option<Place<A>>, AllocError>
    ensures { IfOk result (λ place. place ≡ split_in areas.now area.now) }
{
    let parts = parts_that_count(alloc, areas, area)?;
    Ok(place_of_parts(area.area(), parts))
}

/// Whether parts are several.
fn are_several<A: Allocator>(parts: &[Part<A>]) -> bool
    ensures { result ≡ nat_lt 1 (length parts.now) }
{
    parts.len() > 1
}

/// The place of an area with these parts, if they are several.
fn place_of_parts<A: Allocator>(area: AreaId, parts: Vec<Part<A>, A>) -> Option<Place<A>>
    ensures { result ≡ place_of_parts area parts.items }
{
    if !are_several(&parts) {
        return None;
    }
    Some(Place::of(Form::Parts { area, parts }))
}
