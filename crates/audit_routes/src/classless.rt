//! Ways inside the AS without a class, as RFC1583Compatibility has them.

ghost use Rattle.std.specs.Prelude.{◌≡◌, map, IfOk};
ghost use Rattle.audit_routes.specs.Compatibility.{classless, classless_entry, classless_kind, classless_route};

use crate::ways::RouterWays;
use area_routes::{EntryKind, InsideRoutes, RouterEntries, RouterEntry};
use best_ways::{AreaList, PathType, Route, Routes};
use std::alloc::{AllocError, Allocator};

/// A route inside the AS as one through no area, which is of no class.
fn classless_route<A: Allocator + Copy>(alloc: A, route: &Route<A>) -> Result<Route<A>, AllocError>
    ensures { IfOk result (λ copy. copy ≡ classless_route route.now) }
{
    Ok(Route {
        net: route.net,
        kind: PathType::Inter,
        areas: AreaList::new(alloc),
        cost: route.cost,
        cost2: route.cost2,
        hops: route.hops.clone_of(alloc)?,
    })
}

/// The kind of an entry without its class.
fn classless_kind(kind: EntryKind) -> EntryKind
    ensures { result ≡ classless_kind kind }
{
    match kind {
        EntryKind::Border => EntryKind::Border,
        EntryKind::AsbrIntra | EntryKind::AsbrInter => EntryKind::AsbrInter,
    }
}

/// An entry without its class.
fn classless_entry<A: Allocator + Copy>(
    alloc: A,
    entry: &RouterEntry<A>,
) -> Result<RouterEntry<A>, AllocError>
    ensures { IfOk result (λ copy. copy ≡ classless_entry entry.now) }
{
    Ok(RouterEntry {
        router: entry.router,
        area: entry.area,
        kind: classless_kind(entry.kind),
        cost: entry.cost,
        hops: entry.hops.clone_of(alloc)?,
    })
}

/// Routes inside the AS without their classes.
fn classless_routes<A: Allocator + Copy>(
    alloc: A,
    routes: &InsideRoutes<A>,
) -> Result<InsideRoutes<A>, AllocError>
    ensures { IfOk result (λ all. all ≡ map classless_route routes.now) }
{
    let mut all = Vec::new(alloc);
    for route in routes.as_routes().as_slice() {
        all.push(classless_route(alloc, route)?)?;
    }
    Ok(InsideRoutes::from_routes(Routes::from_sorted(all)))
}

/// Router entries without their classes.
fn classless_entries<A: Allocator + Copy>(
    alloc: A,
    entries: &RouterEntries<A>,
) -> Result<RouterEntries<A>, AllocError>
    ensures { IfOk result (λ all. all ≡ map classless_entry entries.now) }
{
    let mut all = RouterEntries::new(alloc);
    for entry in entries.as_slice() {
        all.push(classless_entry(alloc, entry)?)?;
    }
    Ok(all)
}

/// The ways of a router without their classes.
pub(crate) fn classless<A: Allocator + Copy>(
    alloc: A,
    ways: &RouterWays<A>,
) -> Result<RouterWays<A>, AllocError>
    ensures { IfOk result (λ found. found ≡ classless ways.now) }
{
    let routes = classless_routes(alloc, ways.routes())?;
    let entries = classless_entries(alloc, ways.entries())?;
    Ok(RouterWays::new(ways.router(), routes, entries))
}
