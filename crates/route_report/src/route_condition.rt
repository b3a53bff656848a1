//! What is expected of the route of a router for a prefix.

ghost use Rattle.std.specs.Prelude.{◌≡◌, ◌++◌, OnOk, option_map};
ghost use Rattle.std.specs.List.{list_all, list_any};
ghost use Rattle.network_names.specs.Names.{called};
ghost use Rattle.route_report.specs.Expected.{compares, found_text, has_cost, has_kind, has_neighbors, has_route, hops_of, is_kind, leads_to, leads_to_each, meets, meets_by};

use lsa_codec::RouterId;
use network_names::Names;
use route_lines::{OwnSource, RouteLine, RouteWay, WayTarget, push_route};
use std::alloc::{AllocError, Allocator};
use study_script::Bound;
use study_words::{Comparison, RouteKind};

/// Whether a number compares to another one so.
fn compares(comparison: Comparison, found: u64, number: u64) -> bool
    ensures { result ≡ compares comparison found number }
{
    match comparison {
        Comparison::AtMost => found <= number,
        Comparison::Equal => found == number,
        Comparison::AtLeast => number <= found,
    }
}

/// Whether a number is as a bound says.
pub fn meets(bound: Bound, found: u64) -> bool
    ensures { result ≡ meets bound found }
{
    compares(bound.comparison, found, u64::from(bound.number))
}

/// Whether a kind of routes is the one that is wanted.
fn is_kind(wanted: RouteKind, kind: RouteKind) -> bool
    ensures { result ≡ is_kind wanted kind }
{
    match wanted {
        RouteKind::Intra => matches!(kind, RouteKind::Intra),
        RouteKind::Inter => matches!(kind, RouteKind::Inter),
        RouteKind::External1 => matches!(kind, RouteKind::External1),
        RouteKind::External2 => matches!(kind, RouteKind::External2),
        RouteKind::Own => matches!(kind, RouteKind::Own),
    }
}

/// Whether a route is of this kind, if one is given.
fn has_kind<A: Allocator + Copy>(wanted: Option<RouteKind>, route: &RouteLine<A>) -> bool
    ensures { result ≡ has_kind wanted route.now }
{
    match wanted {
        Some(kind) => is_kind(kind, route.source.kind),
        None => true,
    }
}

/// Whether a way leads to a neighbor.
fn leads_to(neighbor: RouterId, target: WayTarget) -> bool
    ensures { result ≡ leads_to neighbor target }
{
    match target {
        WayTarget::Via(router) => router.0 == neighbor.0,
        WayTarget::Direct | WayTarget::Exit(_) => false,
    }
}

/// Whether one of some ways leads to a neighbor.
fn is_led_to<A: Allocator + Copy>(ways: &[RouteWay<A>], neighbor: RouterId) -> bool
    ensures { result ≡ list_any (λ way. leads_to neighbor way.target) ways.now }
{
    ways.iter().any(|way| leads_to(neighbor, way.target))
}

/// Whether a way leads to one of some neighbors.
fn leads_to_one(neighbors: &[RouterId], target: WayTarget) -> bool
    ensures { result ≡ list_any (λ neighbor. leads_to neighbor target) neighbors.now }
{
    neighbors.iter().any(|neighbor| leads_to(*neighbor, target))
}

/// Whether ways lead to each of these neighbors.
fn lead_to_all<A: Allocator + Copy>(neighbors: &[RouterId], ways: &[RouteWay<A>]) -> bool
    ensures { result
        ≡ list_all (λ neighbor. list_any (λ way. leads_to neighbor way.target) ways.now)
        neighbors.now }
{
    neighbors.iter().all(|neighbor| is_led_to(ways, *neighbor))
}

/// Whether ways lead to no others than these neighbors.
fn lead_to_no_other<A: Allocator + Copy>(neighbors: &[RouterId], ways: &[RouteWay<A>]) -> bool
    ensures { result
        ≡ list_all (λ way. list_any (λ neighbor. leads_to neighbor way.target) neighbors.now)
        ways.now }
{
    ways.iter().all(|way| leads_to_one(neighbors, way.target))
}

/// Whether the ways of a route lead exactly to these neighbors, if some are given.
fn has_neighbors<A: Allocator + Copy>(wanted: Option<&[RouterId]>, route: &RouteLine<A>) -> bool
    ensures { result ≡ has_neighbors (option_map (λ n. n.now) wanted.entry) route.now }
{
    match wanted {
        Some(neighbors) => {
            lead_to_all(neighbors, &route.ways) && lead_to_no_other(neighbors, &route.ways)
        }
        None => true,
    }
}

/// Whether the cost of a route is as a bound says: an external prefix of the router itself has
/// none.
fn meets_by(own: Option<OwnSource>, bound: Bound, cost: u64) -> bool
    ensures { result ≡ meets_by own bound cost }
{
    match own {
        Some(_) => false,
        None => meets(bound, cost),
    }
}

/// Whether the cost of a route is as a bound says, if one is given.
fn has_cost<A: Allocator + Copy>(wanted: Option<Bound>, route: &RouteLine<A>) -> bool
    ensures { result ≡ has_cost wanted route.now }
{
    match wanted {
        Some(bound) => meets_by(route.source.own, bound, route.source.cost),
        None => true,
    }
}

/// Whether there is a route, and it is of this kind, its ways lead exactly to these neighbors, and
/// its cost is as a bound says, as far as these are given.
pub fn has_route<A: Allocator + Copy>(
    kind: Option<RouteKind>,
    neighbors: Option<&[RouterId]>,
    cost: Option<Bound>,
    route: Option<&RouteLine<A>>,
) -> bool
    ensures { result ≡ has_route kind (option_map (λ n. n.now) neighbors.entry) cost
        (option_map (λ r. r.now) route.entry) }
{
    match route {
        Some(route) => {
            has_kind(kind, route) && has_neighbors(neighbors, route) && has_cost(cost, route)
        }
        None => false,
    }
}

/// How many ways a route has. An external prefix of the router itself counts as one, and there are
/// none without a route.
pub fn hops_of<A: Allocator + Copy>(route: Option<&RouteLine<A>>) -> usize
    ensures { result ≡ hops_of (option_map (λ r. r.now) route.entry) }
{
    let Some(route) = route else {
        return 0;
    };
    match route.source.own {
        Some(_) => 1,
        None => route.ways.len(),
    }
}

/// Adds the route that was found, without its prefix, or `no route`.
///
/// # Errors
///
/// Memory ran out. A part of the text may have been added.
pub fn push_found_route<A: Allocator + Copy, B: Allocator + Copy>(
    text: &mut Vec<u8, A>,
    names: &Names<'_, A>,
    route: Option<&RouteLine<B>>,
) -> Result<(), AllocError>
    ensures { OnOk result (text.new.items ≡ text.old.items
        ++ found_text (called names.now) (option_map (λ r. r.now) route.entry)) }
{
    match route {
        Some(route) => push_route(text, names, route),
        None => text.extend_from_slice(b"no route"),
    }
}
