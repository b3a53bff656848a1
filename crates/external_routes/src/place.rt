//! Places of prefixes among routes in order of prefix.

ghost use Rattle.std.specs.Prelude.{◌≡◌, false, true};
ghost use Rattle.best_ways.specs.Routes.{AreSortedRoutes, has_route};
ghost use Rattle.external_routes.specs.steps.Lookup.{is_ahead, is_after};

use area_routes::{Route, Routes};
use lsa_codec::Prefix;
use std::alloc::Allocator;

/// Whether a prefix is greater than that of the route before a place.
fn is_after<A: Allocator + Copy>(routes: &[Route<A>], place: usize, net: Prefix) -> bool
    ensures { result ≡ is_after routes.now place net }
{
    if place == 0 {
        return true;
    }
    match routes.get(place - 1) {
        Some(last) => last.net.cmp(&net).is_lt(),
        None => false,
    }
}

/// Whether a prefix is less than that of the route at a place, if there is one.
fn is_ahead<A: Allocator + Copy>(routes: &[Route<A>], place: usize, net: Prefix) -> bool
    ensures { result ≡ is_ahead routes.now place net }
{
    match routes.get(place) {
        Some(next) => net.cmp(&next.net).is_lt(),
        None => true,
    }
}

/// Whether a prefix is between those of the routes before and at a place. Then it has no route.
fn stands_between<A: Allocator + Copy>(routes: &[Route<A>], place: usize, net: Prefix) -> bool
    requires { AreSortedRoutes routes.now }
    ensures { result ≡ true → has_route routes.now net ≡ false }
{
    is_after(routes, place, net) && is_ahead(routes, place, net)
}

/// Whether a prefix has a route. There is no search where it is between the same routes as the
/// prefix that was looked up last, whose place is kept in `place`.
pub(crate) fn has_route_near<A: Allocator + Copy>(
    routes: &Routes<A>,
    place: &mut usize,
    net: Prefix,
) -> bool
    ensures { result ≡ has_route routes.now net }
{
    let routes = routes.as_slice();
    if stands_between(routes, *place, net) {
        return false;
    }
    match routes.binary_search_by_key(&net, |route| route.net) {
        Ok(_) => true,
        Err(next) => {
            *place = next;
            false
        }
    }
}
