//! Costs of routes that fall along all ways: where they do, packets neither go round nor are
//! dropped.

ghost use Rattle.std.specs.Prelude.{◌≡◌, ◌<◌, All, MatchOption, Some, true, ⊤};
ghost use Rattle.std.specs.Bool.{OnTrue};
ghost use Rattle.std.specs.Option.{option_copied};
ghost use Rattle.lsdb.specs.Lists.{Lists};
ghost use Rattle.best_ways.specs.Routes.{AreSortedRoutes};
ghost use Rattle.loop_report.specs.steps.Falling.{AreCheaper, Falls, FallsOver, IsAfter, IsLongestRoute, NoneCovers, cost_at, cost_of, source_by, source_of};
ghost use Rattle.loop_report.specs.steps.Targets.{AreHopsOf};

use crate::targets::RouterHops;
use best_ways::{PathType, Route, Routes};
use forwarding::{Forwarding, RouterRoutes};
use lsa_codec::{Addr, Prefix, RouterId};
use next_hops::Hop;
use std::alloc::Allocator;
use std::collections::BTreeSet;

/// Whether a route is one to a prefix that begins after an address, if there is a route.
fn is_after<A: Allocator + Copy>(route: Option<&Route<A>>, address: Addr) -> bool
    ensures { OnTrue result (IsAfter address (option_copied route.entry)) }
{
    match route {
        Some(route) => route.net.addr().0 > address.0,
        None => true,
    }
}

/// The route at an index, if it is the longest match of an address. Where it is none, or a longer
/// prefix of the address may follow, there is nothing: what is missed costs time alone.
fn match_at<A: Allocator + Copy>(
    routes: &[Route<A>],
    index: usize,
    address: Addr,
) -> Option<&Route<A>>
    requires { AreSortedRoutes routes.now }
    ensures { MatchOption result ⊤ (λ route. IsLongestRoute routes.now address route.now) }
{
    let route = routes.get(index)?;
    if Prefix::masked(address, route.net.len()) != route.net
        || !is_after(routes.get(index + 1), address)
    {
        return None;
    }
    Some(route)
}

/// The index of the last route to a prefix that begins at an address or before.
fn place_of<A: Allocator + Copy>(routes: &[Route<A>], address: Addr) -> usize
    requires { AreSortedRoutes routes.now }
{
    match routes.binary_search_by_key(&Prefix::masked(address, 32), |route| route.net) {
        Ok(index) => index,
        Err(index) => index.saturating_sub(1),
    }
}

/// The route to the longest prefix that covers an address, if it is quick to find. It is looked for
/// at an index of the table first, which then is its own.
fn route_near<'r, A: Allocator + Copy>(
    routes: &'r Routes<A>,
    near: &mut usize,
    address: Addr,
) -> Option<&'r Route<A>>
    ensures { MatchOption result ⊤ (λ route. IsLongestRoute routes.now address route.now) }
{
    let table = routes.as_slice();
    if let Some(route) = match_at(table, *near, address) {
        return Some(route);
    }
    *near = place_of(table, address);
    match_at(table, *near, address)
}

/// Whether no prefix of a set that covers an address has this length or a greater one.
fn none_covers<A: Allocator + Copy>(nets: &BTreeSet<Prefix, A>, address: Addr, least: u8) -> bool
    ensures { OnTrue result (NoneCovers nets.now.keys address least) }
{
    if nets.is_empty() {
        return true;
    }
    for len in least..33 {
        if nets.contains(&Prefix::masked(address, len)) {
            return false;
        }
    }
    true
}

/// What a router uses for an external prefix of its own, if the route to it is none within an area:
/// its own source. A network of the router itself would come first.
fn own_source<A: Allocator + Copy>(route: Option<&Route<A>>) -> Option<Option<&Route<A>>>
    ensures { MatchOption result ⊤
        (λ source. source_by true (option_copied route.entry) ≡ Some (option_copied source)) }
{
    match route {
        Some(route) if route.kind == PathType::Intra => None,
        _ => Some(None),
    }
}

/// What a router uses for an address, if it has a match and it is known which comes first.
fn source_of<A: Allocator + Copy>(
    routes: &RouterRoutes<A>,
    address: Addr,
) -> Option<Option<&Route<A>>>
    ensures { MatchOption result ⊤
        (λ source. source_of routes.now address ≡ Some (option_copied source)) }
{
    for shorter in 0..33 {
        let net = Prefix::masked(address, 32 - shorter);
        let route = routes.routes().route_to(net);
        if routes.own().contains(&net) {
            return own_source(route);
        }
        if route.is_some() {
            return Some(route);
        }
    }
    None
}

/// What a router uses for an address, if it has a match and it is known which comes first. A route
/// is looked for near an index of the table first.
fn source_near<'r, A: Allocator + Copy>(
    routes: &'r RouterRoutes<A>,
    near: &mut usize,
    address: Addr,
) -> Option<Option<&'r Route<A>>>
    ensures { MatchOption result ⊤
        (λ source. source_of routes.now address ≡ Some (option_copied source)) }
{
    if let Some(route) = route_near(routes.routes(), near, address) {
        if none_covers(routes.own(), address, route.net.len()) {
            return Some(Some(route));
        }
    }
    source_of(routes, address)
}

/// The cost of a route. A source of a router's own costs nothing.
fn cost_of<A: Allocator + Copy>(source: Option<&Route<A>>) -> u64
    ensures { result ≡ cost_of (option_copied source.entry) }
{
    match source {
        Some(route) => route.cost,
        None => 0,
    }
}

/// Whether what a router uses for an address costs less than this.
fn is_cheaper<A: Allocator + Copy>(
    forwarding: &Forwarding<'_, A>,
    near: &mut usize,
    address: Addr,
    cost: u64,
    router: RouterId,
) -> bool
    ensures { OnTrue result (cost_at forwarding.now.routers address router < cost) }
{
    let Some(routes) = forwarding.routes_of(router) else {
        return false;
    };
    match source_near(routes, near, address) {
        Some(source) => cost_of(source) < cost,
        None => false,
    }
}

/// Whether what some routers use for an address costs less than this.
fn are_cheaper<A: Allocator + Copy>(
    forwarding: &Forwarding<'_, A>,
    near: &mut usize,
    address: Addr,
    cost: u64,
    routers: &[RouterId],
) -> bool
    ensures { OnTrue result (AreCheaper forwarding.now.routers address cost routers.now) }
{
    for router in routers {
        if !is_cheaper(forwarding, near, address, cost, *router) {
            return false;
        }
    }
    true
}

/// Whether a next hop of a router leads to one router at most, and what that one uses for an
/// address costs less than this.
fn falls_over<A: Allocator + Copy>(
    forwarding: &Forwarding<'_, A>,
    known: &RouterHops<A>,
    near: &mut usize,
    address: Addr,
    cost: u64,
    hop: Hop,
) -> bool
    ensures { OnTrue result ((db : Lists) → AreHopsOf db known.now
        → FallsOver forwarding.now.routers address db known.now.router cost hop) }
{
    match hop {
        Hop::Connected | Hop::Attached(_) => true,
        Hop::Link(_) | Hop::Gateway(_, _) => match known.targets(hop) {
            Some(targets) => {
                targets.len() <= 1 && are_cheaper(forwarding, near, address, cost, targets)
            }
            None => false,
        },
    }
}

/// Whether the costs fall over all these next hops of a router.
fn falls_over_all<A: Allocator + Copy>(
    forwarding: &Forwarding<'_, A>,
    known: &RouterHops<A>,
    near: &mut usize,
    address: Addr,
    cost: u64,
    hops: &[Hop],
) -> bool
    ensures { OnTrue result ((db : Lists) → AreHopsOf db known.now
        → All (FallsOver forwarding.now.routers address db known.now.router cost) hops.now) }
{
    for hop in hops {
        if !falls_over(forwarding, known, near, address, cost, *hop) {
            return false;
        }
    }
    true
}

/// Whether a router has a match of an address, and the costs fall over all its next hops.
fn falls<A: Allocator + Copy>(
    forwarding: &Forwarding<'_, A>,
    known: &RouterHops<A>,
    near: &mut usize,
    address: Addr,
    routes: &RouterRoutes<A>,
) -> bool
    ensures { OnTrue result ((db : Lists) → AreHopsOf db known.now
        → Falls forwarding.now.routers address db routes.now) }
{
    if known.router() != routes.router() {
        return false;
    }
    match source_near(routes, near, address) {
        Some(Some(route)) => {
            let hops = route.hops.as_slice();
            falls_over_all(forwarding, known, near, address, route.cost, hops)
        }
        Some(None) => true,
        None => false,
    }
}

/// Whether all routers have a match of an address, and the costs fall along all ways: then no walk
/// in the forwarding graph comes back, and no router drops the packets. A next hop that leads to
/// two routers or more counts as one over which they do not fall. It takes no memory.
pub(crate) fn costs_fall<A: Allocator + Copy>(
    forwarding: &Forwarding<'_, A>,
    hops: &[RouterHops<A>],
    address: Addr,
) -> bool
    ensures { OnTrue result ((db : Lists) → All (AreHopsOf db) hops.now
        → All (Falls forwarding.now.routers address db) forwarding.now.routers) }
{
    let routers = forwarding.routers();
    let mut near = 0;
    for index in 0..routers.len() {
        let Some(known) = hops.get(index) else {
            return false;
        };
        if !falls(forwarding, known, &mut near, address, &routers[index]) {
            return false;
        }
    }
    true
}
