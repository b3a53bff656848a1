//! The links that ways lead over, and the interfaces at their other ends.

ghost use Rattle.std.specs.Prelude.{◌≡◌, filter, IfOk};
ghost use Rattle.std.specs.List.{flat_map};
ghost use Rattle.area_graph.specs.Area.{used};
ghost use Rattle.lsdb.specs.Slots.{lists_of};
ghost use Rattle.lsdb.specs.declared.section.Section.TheVariants.{Area as InArea};
ghost use Rattle.lsdb.specs.Lists.{lsas_of};
ghost use Rattle.interfaces.specs.Routers.{interfaces_in};
ghost use Rattle.route_report.specs.LinksOver.{ends_on, far_addresses, is_listed, is_net_over, leads_over, least_cost, links_over, sought, sought_in};

use crate::sought::{Leg, Side, Sought};
use area_graph::{VertexLsa, used_lsas};
use interfaces::{
    Interface, addrs_of, costs_back, far_ends_in, interfaces_in, lists_router, network_lsa_in,
};
use lsa_codec::{Addr, AreaId, LinkKind, RouterId};
use lsdb::{Database, Section};
use std::alloc::{AllocError, Allocator};

/// Whether a link leads over the interface of a leg to its neighbor.
fn leads_over(leg: Leg, own: Interface) -> bool
    ensures { result ≡ leads_over leg own }
{
    matches!(own.link.kind, LinkKind::PointToPoint)
        && own.link.id.0 == leg.neighbor.0
        && own.link.link_data.0 == leg.interface.0
}

/// The links of a leg in an area.
fn links_over<A: Allocator + Copy>(
    alloc: A,
    database: &Database<A>,
    leg: Leg,
    area: AreaId,
) -> Result<Vec<Interface, A>, AllocError>
    ensures { IfOk result (λ links. links.items ≡ links_over (lists_of database.now) leg area) }
{
    let all = interfaces_in(alloc, database, area, leg.router)?;
    all.iter()
        .copied()
        .filter(|own| leads_over(leg, *own))
        .collect(alloc)
}

/// The interfaces on a side of a link of a router in an area: none, where no neighbor links back.
fn ends_on<A: Allocator + Copy>(
    alloc: A,
    database: &Database<A>,
    side: Side,
    router: RouterId,
    area: AreaId,
    own: Interface,
) -> Result<Vec<Interface, A>, AllocError>
    ensures { IfOk result
        (λ ends. ends.items ≡ ends_on (lists_of database.now) side router area own) }
{
    let ends = far_ends_in(alloc, database, area, router, own)?;
    match side {
        Side::Far => Ok(ends),
        Side::Near if ends.is_empty() => Ok(Vec::new(alloc)),
        Side::Near => Ok(Vec::from_array(alloc, [own])?),
    }
}

/// The interfaces on a side of each of some links of a router in an area.
fn ends_of<A: Allocator + Copy>(
    alloc: A,
    database: &Database<A>,
    side: Side,
    router: RouterId,
    area: AreaId,
    links: &[Interface],
) -> Result<Vec<Interface, A>, AllocError>
    ensures { IfOk result (λ ends. ends.items
        ≡ flat_map (ends_on (lists_of database.now) side router area) links.now) }
{
    let mut ends = Vec::new(alloc);
    for own in links {
        let mut more = ends_on(alloc, database, side, router, area, *own)?;
        ends.append(&mut more)?;
    }
    Ok(ends)
}

/// Whether the network-LSA of a network, among the LSAs in use of an area, lists a router.
fn is_listed<A: Allocator + Copy>(
    used: &[VertexLsa<'_, A>],
    network: Addr,
    router: RouterId,
) -> bool
    ensures { result ≡ is_listed used.now network router }
{
    let Some(lsa) = network_lsa_in(used, network) else {
        return false;
    };
    match lsa.network() {
        Some(view) => lists_router(&view, router),
        None => false,
    }
}

/// Whether a link leads over an interface to a transit network that lists the router.
fn is_net_over<A: Allocator + Copy>(
    used: &[VertexLsa<'_, A>],
    router: RouterId,
    interface: Addr,
    own: Interface,
) -> bool
    ensures { result ≡ is_net_over used.now router interface own }
{
    own.link.link_data.0 == interface.0
        && matches!(own.link.kind, LinkKind::Transit)
        && is_listed(used, own.link.id, router)
}

/// The links of an interface in an area to transit networks that list the router.
fn nets_over<A: Allocator + Copy>(
    alloc: A,
    database: &Database<A>,
    router: RouterId,
    interface: Addr,
    area: AreaId,
) -> Result<Vec<Interface, A>, AllocError>
    ensures { IfOk result (λ nets. nets.items
        ≡ filter (is_net_over (used (lsas_of (InArea area) (lists_of database.now))) router
        interface) (interfaces_in (lists_of database.now) area router)) }
{
    let used = used_lsas(alloc, database.lsas(Section::Area(area)))?;
    let all = interfaces_in(alloc, database, area, router)?;
    all.iter()
        .copied()
        .filter(|own| is_net_over(&used, router, interface, *own))
        .collect(alloc)
}

/// What is sought, in an area.
fn sought_in<A: Allocator + Copy>(
    alloc: A,
    database: &Database<A>,
    what: Sought,
    area: AreaId,
) -> Result<Vec<Interface, A>, AllocError>
    ensures { IfOk result (λ found. found.items ≡ sought_in (lists_of database.now) what area) }
{
    match what {
        Sought::Ends(leg, side) => {
            let links = links_over(alloc, database, leg, area)?;
            ends_of(alloc, database, side, leg.router, area, &links)
        }
        Sought::Nets(router, interface) => nets_over(alloc, database, router, interface, area),
    }
}

/// What is sought, in all areas.
fn sought<A: Allocator + Copy>(
    alloc: A,
    database: &Database<A>,
    what: Sought,
) -> Result<Vec<Interface, A>, AllocError>
    ensures { IfOk result (λ found. found.items ≡ sought (lists_of database.now) what) }
{
    let mut found = Vec::new(alloc);
    for i in 0..database.area_count() {
        let (area, _is_stub) = database.area(i);
        let mut more = sought_in(alloc, database, what, area)?;
        found.append(&mut more)?;
    }
    Ok(found)
}

/// The addresses at the other ends of the links of a leg, each once, in rising order.
pub(crate) fn far_addresses<A: Allocator + Copy>(
    alloc: A,
    database: &Database<A>,
    leg: Leg,
) -> Result<Vec<Addr, A>, AllocError>
    ensures { IfOk result (λ addrs. addrs.items ≡ far_addresses (lists_of database.now) leg) }
{
    let ends = sought(alloc, database, Sought::Ends(leg, Side::Far))?;
    addrs_of(alloc, &ends)
}

/// The least cost of the links that are sought; 0 where there is none.
pub(crate) fn least_cost<A: Allocator + Copy>(
    alloc: A,
    database: &Database<A>,
    what: Sought,
) -> Result<u32, AllocError>
    ensures { IfOk result (λ cost. cost ≡ least_cost (sought (lists_of database.now) what)) }
{
    let links = sought(alloc, database, what)?;
    let costs = costs_back(alloc, &links)?;
    Ok(costs.first().copied().unwrap_or(0))
}
