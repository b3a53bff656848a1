//! What is found at each router of each area.

ghost use Rattle.std.specs.Prelude.{◌≡◌, ◌++◌, IfOk, OnOk};
ghost use Rattle.lsdb.specs.Slots.{lists_of};
ghost use Rattle.audit_areas.specs.Findings.{places_by_router, places_in, places_in_areas};

use crate::area::{AuditedArea, audited_areas};
use audit_places::Place;
use lsa_codec::RouterId;
use lsdb::Database;
use std::alloc::{AllocError, Allocator};

/// What may be found at a router in an area.
pub trait Finding {
    ghost use Rattle.std.specs.Prelude.{◌≡◌, ◌++◌, OnOk};
    ghost use Rattle.audit_areas.specs.Findings.{FindsAt};

    /// The places at a router in one of the areas of a database.
    ghost finds: { Self → FindsAt };

    /// Adds the places.
    ///
    /// # Errors
    ///
    /// Memory ran out.
    fn push_found<A: Allocator + Copy>(
        &self,
        places: &mut Vec<Place<A>, A>,
        alloc: A,
        areas: &[AuditedArea<'_, A>],
        area: &AuditedArea<'_, A>,
        router: RouterId,
    ) -> Result<(), AllocError>
        ensures { OnOk result (places.new.items
            ≡ places.old.items ++ finds self.now areas.now area.now router) };
}

/// Adds what is found at the routers of one of the areas of a database, by Router ID.
///
/// # Errors
///
/// Memory ran out.
pub fn push_places_in<F: Finding, A: Allocator + Copy>(
    places: &mut Vec<Place<A>, A>,
    alloc: A,
    finding: &F,
    areas: &[AuditedArea<'_, A>],
    area: &AuditedArea<'_, A>,
) -> Result<(), AllocError>
    ensures { OnOk result (places.new.items
        ≡ places.old.items ++ places_in (F.finds finding.now) areas.now area.now) }
{
    for router in area.routers() {
        finding.push_found(places, alloc, areas, area, *router)?;
    }
    Ok(())
}

/// What is found at the routers of some areas, by area and Router ID.
fn places_in_areas<F: Finding, A: Allocator + Copy>(
    alloc: A,
    finding: &F,
    areas: &[AuditedArea<'_, A>],
) -> Result<Vec<Place<A>, A>, AllocError>
    ensures { IfOk result
        (λ places. places.items ≡ places_in_areas (F.finds finding.now) areas.now) }
{
    let mut places = Vec::new(alloc);
    for area in areas {
        push_places_in(&mut places, alloc, finding, areas, area)?;
    }
    Ok(places)
}

/// What is found at the routers of all areas of a database, by area and Router ID.
///
/// # Errors
///
/// Memory ran out.
pub fn places_by_router<F: Finding, A: Allocator + Copy>(
    alloc: A,
    database: &Database<A>,
    finding: &F,
) -> Result<Vec<Place<A>, A>, AllocError>
    ensures { IfOk result (λ places. places.items
        ≡ places_by_router (F.finds finding.now) (lists_of database.now)) }
{
    let areas = audited_areas(alloc, database)?;
    places_in_areas(alloc, finding, &areas)
}
