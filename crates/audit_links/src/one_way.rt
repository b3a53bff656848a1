//! The places of `one-way-link`.

ghost use Rattle.std.specs.Prelude.{◌≡◌, IfOk};
ghost use Rattle.lsdb.specs.Slots.{lists_of};
ghost use Rattle.audit_links.specs.LinkFindings.{one_way_in_all, one_way_link_places};

use crate::finding::LinkFinding;
use crate::one_way_members::push_members;
use audit_areas::{AuditedArea, audited_areas, push_places_in};
use audit_places::Place;
use lsdb::Database;
use std::alloc::{AllocError, Allocator};

/// What no edge leads over in some areas: first links of routers, then members of networks.
fn one_way_in_all<A: Allocator + Copy>(
    alloc: A,
    areas: &[AuditedArea<'_, A>],
) -> Result<Vec<Place<A>, A>, AllocError>
    ensures { IfOk result (λ places. places.items ≡ one_way_in_all areas.now) }
{
    let mut places = Vec::new(alloc);
    for area in areas {
        push_places_in(&mut places, alloc, &LinkFinding::OneWay, areas, area)?;
        push_members(&mut places, alloc, area)?;
    }
    Ok(places)
}

/// The places of `one-way-link`, by area: first the links of types 1 and 2 of routers that no edge
/// leads over, by router and number, then the routers that network-LSAs in use list without a link
/// to the network, by LSA and router (RFC 2328, 16.1).
///
/// For each link it takes time in proportion to the number of edges out of the router, and for each
/// listed router to that of edges out of the network.
///
/// # Errors
///
/// Memory ran out.
pub fn one_way_link_places<A: Allocator + Copy>(
    alloc: A,
    database: &Database<A>,
) -> Result<Vec<Place<A>, A>, AllocError>
    ensures { IfOk result
        (λ places. places.items ≡ one_way_link_places (lists_of database.now)) }
{
    let areas = audited_areas(alloc, database)?;
    one_way_in_all(alloc, &areas)
}
