//! The areas of a database, and the AS.

ghost use Rattle.std.specs.Prelude.{◌≡◌, IfOk, map};
ghost use Rattle.lsdb.specs.Lists.{areas_of};
ghost use Rattle.lsdb.specs.Slots.{lists_of};
ghost use Rattle.audit_lsas.specs.Found.{area_in, scopes, section_in, some_scope};

use lsa_codec::AreaId;
use lsdb::{Database, Section};
use std::alloc::{AllocError, Allocator};

/// An area, and whether it is a stub area (RFC 2328, 3.6).
#[derive(Clone, Copy, Debug, PartialEq, Eq)]
pub struct AreaScope {
    /// The area.
    pub id: AreaId,
    /// Whether it is a stub area.
    pub is_stub: bool,
}

/// The section of the LSAs of an area, or of those of AS scope.
pub(crate) fn section_in(scope: Option<AreaScope>) -> Section
    ensures { result ≡ section_in scope }
{
    match scope {
        Some(area) => Section::Area(area.id),
        None => Section::AsWide,
    }
}

/// The ID of an area; the AS is none.
pub(crate) fn area_in(scope: Option<AreaScope>) -> Option<AreaId>
    ensures { result ≡ area_in scope }
{
    match scope {
        Some(area) => Some(area.id),
        None => None,
    }
}

/// The areas of a database, in rising order of their IDs.
fn area_scopes<A: Allocator + Copy>(
    alloc: A,
    database: &Database<A>,
) -> Result<Vec<Option<AreaScope>, A>, AllocError>
    ensures { IfOk result
        (λ found. found.items ≡ map some_scope (areas_of (lists_of database.now))) }
{
    let mut found = Vec::new(alloc);
    for i in 0..database.area_count() {
        let (id, is_stub) = database.area(i);
        found.push(Some(AreaScope { id, is_stub }))?;
    }
    Ok(found)
}

/// The areas of a database, in rising order of their IDs, and at the end the AS, which is no area.
pub(crate) fn scopes<A: Allocator + Copy>(
    alloc: A,
    database: &Database<A>,
) -> Result<Vec<Option<AreaScope>, A>, AllocError>
    ensures { IfOk result (λ found. found.items ≡ scopes (lists_of database.now)) }
{
    let mut found = area_scopes(alloc, database)?;
    found.push(None)?;
    Ok(found)
}
