//! Why a departure is refused.

ghost use Rattle.std.specs.Prelude.{◌≡◌, length, map, IfOk};
ghost use Rattle.lsdb.specs.Slots.{lists_of};
ghost use Rattle.event_links.specs.Events.{has_router};
ghost use Rattle.event_links.specs.Selections.{area_ids};
ghost use Rattle.network_departures.specs.Leaving.{networks_left};
ghost use Rattle.departures.specs.Departures.{all_zero, leaves_nothing, network_fault, fault_of};

use crate::fault::DepartureFault;
use interfaces::router_lsa_of;
use lsa_codec::{AreaId, RouterId};
use lsdb::Database;
use network_departures::{Departure, networks_left};
use std::alloc::{AllocError, Allocator};

/// The areas of a database, by their IDs.
fn areas_of<A: Allocator + Copy>(database: &Database<A>) -> Result<Vec<AreaId, A>, AllocError>
    ensures { IfOk result (λ v. v.items ≡ area_ids (lists_of database.now)) }
{
    let mut areas = Vec::new(database.alloc());
    for i in 0..database.area_count() {
        areas.push(database.area(i).0)?;
    }
    Ok(areas)
}

/// Whether a router has a router-LSA below MaxAge in some area.
fn is_there<A: Allocator + Copy>(database: &Database<A>, areas: &[AreaId], router: RouterId) -> bool
    requires { areas.now ≡ area_ids (lists_of database.now) }
    ensures { result ≡ has_router (lists_of database.now) router }
{
    areas
        .iter()
        .any(|area| router_lsa_of(database, *area, router).is_some())
}

/// How many networks a router leaves in each area.
fn network_counts<A: Allocator + Copy>(
    database: &Database<A>,
    event: &Departure,
    areas: &[AreaId],
) -> Result<Vec<usize, A>, AllocError>
    ensures { IfOk result (λ v. v.items
        ≡ map (λ area. length (networks_left (lists_of database.now) event.now area)) areas.now) }
{
    let mut counts = Vec::new(database.alloc());
    for area in areas {
        let networks = networks_left(database, event, *area)?;
        counts.push(networks.len())?;
    }
    Ok(counts)
}

/// Whether all of them are 0.
fn all_zero(counts: &[usize]) -> bool
    ensures { result ≡ all_zero counts.now }
{
    counts.iter().all(|count| *count == 0)
}

/// Whether no area has a network that the router leaves.
fn leaves_nothing<A: Allocator + Copy>(
    database: &Database<A>,
    event: &Departure,
    areas: &[AreaId],
) -> Result<bool, AllocError>
    requires { areas.now ≡ area_ids (lists_of database.now) }
    ensures { IfOk result (λ nothing. nothing ≡ leaves_nothing (lists_of database.now) event.now) }
{
    let counts = network_counts(database, event, areas)?;
    Ok(all_zero(&counts))
}

/// The refusal of a router that is on no such network.
fn network_fault<A: Allocator + Copy>(
    database: &Database<A>,
    event: &Departure,
    areas: &[AreaId],
) -> Result<Option<DepartureFault>, AllocError>
    requires { areas.now ≡ area_ids (lists_of database.now) }
    ensures { IfOk result (λ fault. fault ≡ network_fault (lists_of database.now) event.now) }
{
    let Departure::LeavesNetwork { router, net } = event else {
        return Ok(None);
    };
    if leaves_nothing(database, event, areas)? {
        return Ok(Some(DepartureFault::NotOnNetwork(*router, *net)));
    }
    Ok(None)
}

/// The first refusal of a departure.
pub(crate) fn fault_of<A: Allocator + Copy>(
    database: &Database<A>,
    event: &Departure,
) -> Result<Option<DepartureFault>, AllocError>
    ensures { IfOk result (λ fault. fault ≡ fault_of (lists_of database.now) event.now) }
{
    let areas = areas_of(database)?;
    let router = event.router();
    if !is_there(database, &areas, router) {
        return Ok(Some(DepartureFault::NoRouter(router)));
    }
    network_fault(database, event, &areas)
}
