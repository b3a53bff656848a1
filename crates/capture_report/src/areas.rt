//! The areas in a file, and those of a database.

ghost use Rattle.std.specs.Prelude.{◌≡◌, IfOk, map};
ghost use Rattle.std.specs.List.{filter_map};
ghost use Rattle.lsdb.specs.Slots.{lists_of};
ghost use Rattle.capture_report.specs.Areas.{area_in, reported_areas};
ghost use Rattle.capture_report.specs.NoKind.{areas_in};

use lsa_codec::AreaId;
use lsa_instances::{AreaReport, Observation, Scope};
use lsdb::Database;
use network_files::ParsedFile;
use std::alloc::{AllocError, Allocator};

/// The area of a scope.
fn area_in(scope: Scope) -> Option<AreaId>
    ensures { result ≡ area_in scope }
{
    match scope {
        Scope::Area(id) => Some(id),
        Scope::AsWide => None,
    }
}

/// The areas whose kind the file reports, one for each report.
pub(crate) fn areas_of_kinds<A: Allocator + Copy>(
    alloc: A,
    kinds: &[AreaReport],
) -> Result<Vec<AreaId, A>, AllocError>
    ensures { IfOk result (λ areas. areas.items ≡ map (λ area. area.id) kinds.now) }
{
    kinds.iter().map(|area| area.id).collect(alloc)
}

/// The areas of LSAs, one for each LSA of an area.
pub(crate) fn areas_of_lsas<A: Allocator + Copy>(
    alloc: A,
    observations: &[Observation<A>],
) -> Result<Vec<AreaId, A>, AllocError>
    ensures { IfOk result (λ areas. areas.items
        ≡ filter_map (λ observation. area_in observation.scope) observations.now) }
{
    observations
        .iter()
        .filter_map(|observation| area_in(observation.scope))
        .collect(alloc)
}

/// The areas of the file, one for each report of a kind and for each LSA of an area.
pub(crate) fn reported_areas<A: Allocator + Copy>(
    alloc: A,
    file: &ParsedFile<A>,
) -> Result<Vec<AreaId, A>, AllocError>
    ensures { IfOk result (λ areas. areas.items ≡ reported_areas file.now) }
{
    let mut areas = areas_of_kinds(alloc, &file.areas)?;
    let of_lsas = areas_of_lsas(alloc, &file.observations)?;
    areas.extend_from_slice(&of_lsas)?;
    Ok(areas)
}

/// The areas of a database, in rising order.
pub(crate) fn areas_in<A: Allocator + Copy>(
    alloc: A,
    database: &Database<A>,
) -> Result<Vec<AreaId, A>, AllocError>
    ensures { IfOk result (λ ids. ids.items ≡ areas_in (lists_of database.now)) }
{
    let mut ids = Vec::new(alloc);
    for i in 0..database.area_count() {
        let (id, _is_stub) = database.area(i);
        ids.push(id)?;
    }
    Ok(ids)
}
