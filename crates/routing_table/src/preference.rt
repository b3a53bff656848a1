//! Routes of one list before those of another.

ghost use Rattle.std.specs.Prelude.{◌≡◌, ◌^◌, [], IfOk, IsOk};
ghost use Rattle.lsa_codec.specs.Prefix.{Net};
ghost use Rattle.best_ways.specs.Routes.{AreSortedRoutes, route_to};
ghost use Rattle.best_ways.specs.Values.{RoutesBelow};
ghost use Rattle.routing_table.specs.Preferring.{preferring};

use area_routes::{InsideRoutes, Route, Routes};
use std::alloc::{AllocError, Allocator};

/// To each prefix the route of the first list, else that of the second: paths of the first list are
/// preferred (RFC 2328, 11). Where the second list is empty it takes no memory.
///
/// # Errors
///
/// Memory ran out.
pub(crate) fn prefer<A: Allocator + Copy>(
    first: Routes<A>,
    second: Routes<A>,
) -> Result<Routes<A>, AllocError>
    ensures routes { IfOk result (λ routes. routes ≡ preferring first second) }
    ensures small { RoutesBelow (2 ^ 34) first → RoutesBelow (2 ^ 34) second
        → IfOk result (RoutesBelow (2 ^ 34)) }
    ensures memory { second ≡ [] → IsOk result }
{
    if second.as_slice().is_empty() {
        return Ok(Routes::from_sorted(first.into_vec()));
    }
    let mut routes = first.into_vec();
    routes.append(&mut second.into_vec())?;
    Ok(Routes::from_sorted(first_of_each(routes)?))
}

/// To each prefix the intra-area route, else the inter-area route (RFC 2328, 11). Where there are
/// no inter-area routes it takes no memory.
///
/// # Errors
///
/// Memory ran out.
pub(crate) fn prefer_intra<A: Allocator + Copy>(
    intra: InsideRoutes<A>,
    inter: InsideRoutes<A>,
) -> Result<InsideRoutes<A>, AllocError>
    ensures routes { IfOk result (λ routes. routes ≡ preferring intra inter) }
    ensures memory { inter ≡ [] → IsOk result }
{
    let routes = prefer(intra.into_routes(), inter.into_routes())?;
    Ok(InsideRoutes::from_routes(routes))
}

/// The routes in order of prefix, of several to one prefix the first.
fn first_of_each<A: Allocator + Copy>(
    routes: Vec<Route<A>, A>,
) -> Result<Vec<Route<A>, A>, AllocError>
    ensures sorted { IfOk result (λ firsts. AreSortedRoutes firsts.items) }
    ensures routes { IfOk result (λ firsts. (net : Net)
        → route_to firsts.items net ≡ route_to routes.items net) }
{
    let mut routes = routes;
    // Two lists in order: a stable sort merges them in one go.
    routes.sort_by_key(|route| route.net)?;
    routes.dedup_by_key(|route| route.net);
    Ok(routes)
}
