//! The metrics that summary-LSAs should have.

ghost use Rattle.std.specs.Prelude.{◌≡◌, ◌≤◌};
ghost use Rattle.lsa_codec.specs.Views.{ls_infinity};
ghost use Rattle.lsdb.specs.Slots.{lists_of};
ghost use Rattle.external_routes.specs.Summaries.{announced_cost, asbr_of_summary, cost_of_asbr};
ghost use Rattle.external_routes.specs.Summaries.{cost_of_net, due, is_among, is_announced_entry};
ghost use Rattle.external_routes.specs.Summaries.{is_announced_route, metric_for};

use crate::areas::is_stub_area;
use crate::choose::preferred;
use area_routes::{EntryKind, InsideRoutes, PathType, Route, RouterEntries, RouterEntry};
use lsa_codec::{ASBR_SUMMARY_LSA, AreaId, LS_INFINITY, Lsa, Prefix, RouterId};
use lsdb::Database;
use std::alloc::Allocator;

/// Whether an area is in a list of areas, such as those that the paths of a route lead through. It
/// takes no memory.
pub fn is_among(area: AreaId, areas: &[AreaId]) -> bool
    ensures { result ≡ is_among area areas.now }
{
    areas.iter().any(|other| *other == area)
}

/// Whether a route is announced into an area.
fn is_announced_route<A: Allocator + Copy>(area: AreaId, route: &Route<A>) -> bool
    ensures { result ≡ is_announced_route area route.now }
{
    !is_among(area, route.areas.as_slice())
        && (area != AreaId::BACKBONE || route.kind == PathType::Intra)
}

/// Whether an entry of an AS boundary router is announced into an area.
fn is_announced_entry<A: Allocator + Copy>(area: AreaId, entry: &RouterEntry<A>) -> bool
    ensures { result ≡ is_announced_entry area entry.now }
{
    entry.area != area && (area != AreaId::BACKBONE || entry.kind == EntryKind::AsbrIntra)
}

/// The cost of the route to a prefix, where it is announced into the area.
fn cost_of_net<A: Allocator + Copy>(
    area: AreaId,
    routes: &InsideRoutes<A>,
    net: Prefix,
) -> Option<u64>
    ensures { result ≡ cost_of_net area routes.now net }
{
    match routes.as_routes().route_to(net) {
        Some(route) if is_announced_route(area, route) => Some(route.cost),
        _ => None,
    }
}

/// The cost of the preferred entry of an AS boundary router, where it is announced into the area.
fn cost_of_asbr<A: Allocator + Copy>(
    area: AreaId,
    entries: &RouterEntries<A>,
    asbr: RouterId,
) -> Option<u64>
    ensures { result ≡ cost_of_asbr area entries.now asbr }
{
    match preferred(entries.as_slice(), asbr) {
        Some(entry) if is_announced_entry(area, entry) => Some(entry.cost),
        _ => None,
    }
}

/// The AS boundary router of a summary-LSA of type 4, unless the LSA is in a stub area, into which
/// none is announced (RFC 2328, 12.4.3). It takes no memory.
pub fn asbr_of_summary<A: Allocator + Copy>(
    database: &Database<A>,
    area: AreaId,
    lsa: &Lsa<A>,
) -> Option<RouterId>
    ensures { result ≡ asbr_of_summary (lists_of database.now) area lsa.now }
{
    let key = lsa.key();
    if key.kind != ASBR_SUMMARY_LSA || is_stub_area(database, area) {
        return None;
    }
    Some(RouterId(key.id.0))
}

/// The cost that the originator of an LSA announces for the LSA's destination into the area.
fn announced_cost<A: Allocator + Copy>(
    database: &Database<A>,
    area: AreaId,
    lsa: &Lsa<A>,
    routes: &InsideRoutes<A>,
    entries: &RouterEntries<A>,
) -> Option<u64>
    ensures { result ≡ announced_cost (lists_of database.now) area lsa.now routes.now entries.now }
{
    match lsa.summary()?.net() {
        Some(net) => cost_of_net(area, routes, net),
        None => cost_of_asbr(area, entries, asbr_of_summary(database, area, lsa)?),
    }
}

/// The metric of a summary-LSA for a cost: the cost, but at most LSInfinity. It takes no memory.
pub fn metric_for(cost: u64) -> u32
    ensures { result ≡ metric_for cost }
{
    if cost < u64::from(LS_INFINITY) {
        cost as u32
    } else {
        LS_INFINITY
    }
}

/// The metric that a summary-LSA of an area should have (RFC 2328, 12.4.3), by all intra-area and
/// inter-area routes and all router entries of its originator: the cost to the LSA's destination,
/// and LSInfinity where the originator does not announce that into the area. A router announces no
/// route and no AS boundary router that it reaches through the area itself. Into the backbone it
/// announces only what it reaches within an area, and into a stub area no AS boundary router. It
/// takes no memory.
pub fn due<A: Allocator + Copy>(
    database: &Database<A>,
    area: AreaId,
    lsa: &Lsa<A>,
    routes: &InsideRoutes<A>,
    entries: &RouterEntries<A>,
) -> u32
    ensures due { result ≡ due (lists_of database.now) area lsa.now routes.now entries.now }
    ensures most { result ≤ ls_infinity }
{
    match announced_cost(database, area, lsa, routes, entries) {
        Some(cost) => metric_for(cost),
        None => LS_INFINITY,
    }
}
