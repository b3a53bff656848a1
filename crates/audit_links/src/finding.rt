//! What is found on the links of each router.

ghost use Rattle.std.specs.Prelude.{◌≡◌, IfOk};
ghost use Rattle.lsdb.specs.Slots.{lists_of};
ghost use Rattle.audit_links.specs.LinkFindings.{found_in, point_to_multipoint_places, unequal_cost_places};

use crate::neighbors::interfaces_with_several;
use crate::one_way_links::one_way_links;
use crate::unequal::unequal_costs;
use audit_areas::{AuditedArea, Finding, places_by_router};
use audit_places::Place;
use lsa_codec::RouterId;
use lsdb::Database;
use std::alloc::{AllocError, Allocator};

/// What may be found on the links of a router in an area.
#[derive(Clone, Copy, Debug, PartialEq, Eq)]
pub(crate) enum LinkFinding {
    /// Links of types 1 and 2 that no edge leads over.
    OneWay,
    /// Point-to-point links to routers of greater ID whose far ends have other costs.
    UnequalCost,
    /// Interfaces with several neighbors.
    SeveralNeighbors,
}

/// What is found on the links of a router in an area.
fn found_in<A: Allocator + Copy>(
    alloc: A,
    finding: LinkFinding,
    area: &AuditedArea<'_, A>,
    router: RouterId,
) -> Result<Vec<Place<A>, A>, AllocError>
    ensures { IfOk result (λ places. places.items ≡ found_in finding area.now router) }
{
    match finding {
        LinkFinding::OneWay => one_way_links(alloc, area, router),
        LinkFinding::UnequalCost => unequal_costs(alloc, area, router),
        LinkFinding::SeveralNeighbors => interfaces_with_several(alloc, area, router),
    }
}

impl Finding for LinkFinding {
    ghost use Rattle.audit_links.specs.LinkFindings.{found_on_links};

    ghost finds = { found_on_links };

    fn push_found<A: Allocator + Copy>(
        &self,
        places: &mut Vec<Place<A>, A>,
        alloc: A,
        _areas: &[AuditedArea<'_, A>],
        area: &AuditedArea<'_, A>,
        router: RouterId,
    ) -> Result<(), AllocError> {
        let mut found = found_in(alloc, *self, area, router)?;
        places.append(&mut found)?;
        Ok(())
    }
}

/// The places of `unequal-cost`: the point-to-point links to routers of greater ID whose far ends
/// have other costs, by area, router and number (RFC 2328, 12.4.1).
///
/// For each link it takes time in proportion to the number of the neighbor's links.
///
/// # Errors
///
/// Memory ran out.
pub fn unequal_cost_places<A: Allocator + Copy>(
    alloc: A,
    database: &Database<A>,
) -> Result<Vec<Place<A>, A>, AllocError>
    ensures { IfOk result
        (λ places. places.items ≡ unequal_cost_places (lists_of database.now)) }
{
    places_by_router(alloc, database, &LinkFinding::UnequalCost)
}

/// The places of `point-to-multipoint`: the interfaces whose point-to-point links lead to several
/// neighbors that link back, by area, router and address (RFC 2328, 12.4.1.4).
///
/// For each link it takes time in proportion to the number of edges out of the router.
///
/// # Errors
///
/// Memory ran out.
pub fn point_to_multipoint_places<A: Allocator + Copy>(
    alloc: A,
    database: &Database<A>,
) -> Result<Vec<Place<A>, A>, AllocError>
    ensures { IfOk result
        (λ places. places.items ≡ point_to_multipoint_places (lists_of database.now)) }
{
    places_by_router(alloc, database, &LinkFinding::SeveralNeighbors)
}
