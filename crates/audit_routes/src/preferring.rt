//! Intra-area routes before inter-area routes.

ghost use Rattle.std.specs.Prelude.{◌≡◌, ◌++◌, [], IfOk, OnOk};
ghost use Rattle.std.specs.List.{cons_option, filter_map};
ghost use Rattle.std.specs.Option.{option_copied};
ghost use Rattle.lsa_codec.specs.Order.{area_cmp, prefix_cmp};
ghost use Rattle.area_graph.specs.Rising.{rising};
ghost use Rattle.best_ways.specs.Order.{AreSortedAreas};
ghost use Rattle.best_ways.specs.Routes.{nets};
ghost use Rattle.routing_table.specs.Preferring.{preferred_route, preferring};

use area_routes::InsideRoutes;
use best_ways::{AreaList, Route, Routes};
use link_report::rising;
use lsa_codec::{AreaId, Prefix};
use std::alloc::{AllocError, Allocator};

/// A list of areas that are in rising order.
fn list_of<A: Allocator + Copy>(alloc: A, areas: &[AreaId]) -> Result<AreaList<A>, AllocError>
    requires { AreSortedAreas areas.now }
    ensures { IfOk result (λ list. list ≡ areas.now) }
{
    let mut list = AreaList::new(alloc);
    for area in areas {
        list.add(*area)?;
    }
    Ok(list)
}

/// The same route.
fn copy_of<A: Allocator + Copy>(alloc: A, route: &Route<A>) -> Result<Route<A>, AllocError>
    ensures { IfOk result (λ copy. copy ≡ route.now) }
{
    Ok(Route {
        net: route.net,
        kind: route.kind,
        areas: list_of(alloc, route.areas.as_slice())?,
        cost: route.cost,
        cost2: route.cost2,
        hops: route.hops.clone_of(alloc)?,
    })
}

/// To a prefix the route of the first list, else that of the second (RFC 2328, 11).
fn preferred_route<'a, A: Allocator + Copy>(
    first: &'a Routes<A>,
    second: &'a Routes<A>,
    net: Prefix,
) -> Option<&'a Route<A>>
    ensures { option_copied result ≡ preferred_route first.now second.now net }
{
    match first.route_to(net) {
        Some(route) => Some(route),
        None => second.route_to(net),
    }
}

/// The prefixes of two lists of routes, in order.
fn nets_of_both<A: Allocator + Copy>(
    alloc: A,
    first: &Routes<A>,
    second: &Routes<A>,
) -> Result<Vec<Prefix, A>, AllocError>
    ensures { IfOk result
        (λ found. found.items ≡ rising prefix_cmp (nets first.now ++ nets second.now)) }
{
    let mut nets = first.nets(alloc)?;
    let mut more = second.nets(alloc)?;
    nets.append(&mut more)?;
    rising(alloc, &nets)
}

/// Adds a copy of a route, if there is one.
fn push_copy<A: Allocator + Copy>(
    alloc: A,
    routes: &mut Vec<Route<A>, A>,
    route: Option<&Route<A>>,
) -> Result<(), AllocError>
    ensures { OnOk result
        (routes.new.items ≡ routes.old.items ++ cons_option (option_copied route.entry) []) }
{
    if let Some(route) = route {
        routes.push(copy_of(alloc, route)?)?;
    }
    Ok(())
}

/// The routes to some prefixes, of the first list where it has one.
fn preferred_routes<A: Allocator + Copy>(
    alloc: A,
    first: &Routes<A>,
    second: &Routes<A>,
    nets: &[Prefix],
) -> Result<Vec<Route<A>, A>, AllocError>
    ensures { IfOk result
        (λ routes. routes.items ≡ filter_map (preferred_route first.now second.now) nets.now) }
{
    let mut routes = Vec::new(alloc);
    for net in nets {
        push_copy(alloc, &mut routes, preferred_route(first, second, *net))?;
    }
    Ok(routes)
}

/// To each prefix the intra-area route, else the inter-area route (RFC 2328, 11).
pub(crate) fn preferring<A: Allocator + Copy>(
    alloc: A,
    intra: &InsideRoutes<A>,
    inter: &InsideRoutes<A>,
) -> Result<InsideRoutes<A>, AllocError>
    ensures { IfOk result (λ routes. routes ≡ preferring intra.now inter.now) }
{
    let first = intra.as_routes();
    let second = inter.as_routes();
    let nets = nets_of_both(alloc, first, second)?;
    let routes = preferred_routes(alloc, first, second, &nets)?;
    Ok(InsideRoutes::from_routes(Routes::from_sorted(routes)))
}
