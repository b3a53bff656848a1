//! Routes in order of prefix.

ghost use Rattle.std.specs.Prelude.{◌≡◌, [], IfOk};
ghost use Rattle.std.specs.Option.{option_copied};
ghost use Rattle.best_ways.specs.Routes.{AreSortedRoutes, has_route, nets, route_to};

use crate::route::Route;
use lsa_codec::Prefix;
use std::alloc::{AllocError, Allocator, Global};
use std::marker::Model;

/// Routes in order of prefix, one for each. Contracts see them as this list.
#[derive(Drop)]
pub struct Routes<A: Allocator = Global> {
    routes: Vec<Route<A>, A>,
}

impl<A: Allocator> Model for Routes<A> {
    ghost use Rattle.std.specs.Prelude.{List};
    ghost use Rattle.best_ways.specs.Routes.{AreSortedRoutes};
    ghost use Rattle.best_ways.specs.Values.{RouteValue};

    ghost Value = { List RouteValue };

    ghost view = { λ r. r.routes.items };

    ghost invariant = { λ r. AreSortedRoutes r.routes.items };
}

impl<A: Allocator + Copy> Routes<A> {
    /// No routes. It takes no memory.
    pub fn new(alloc: A) -> Routes<A>
        ensures { result ≡ [] }
    {
        Routes {
            routes: Vec::new(alloc),
        }
    }

    /// Routes that are in order of prefix, one for each.
    pub fn from_sorted(routes: Vec<Route<A>, A>) -> Routes<A>
        requires { AreSortedRoutes routes.items }
        ensures { result ≡ routes.items }
    {
        Routes { routes }
    }

    /// The routes in order of prefix, one for each.
    pub fn as_slice(&self) -> &[Route<A>]
        ensures routes { result.now ≡ self.now }
        ensures sorted { AreSortedRoutes result.now }
    {
        self.routes.as_slice()
    }

    /// The routes in order of prefix, one for each.
    pub fn into_vec(self) -> Vec<Route<A>, A>
        ensures routes { result.items ≡ self }
        ensures sorted { AreSortedRoutes result.items }
    {
        self.routes
    }

    /// The prefixes of the routes, in order.
    ///
    /// # Errors
    ///
    /// Memory ran out.
    pub fn nets(&self, alloc: A) -> Result<Vec<Prefix, A>, AllocError>
        ensures nets { IfOk result (λ found. found.items ≡ nets self.now) }
        ensures sorted { AreSortedRoutes self.now }
    {
        let routes = self.as_slice();
        routes.iter().map(|route| route.net).collect(alloc)
    }

    /// The route to a prefix. It takes no memory, and time logarithmic in the number of routes.
    pub fn route_to(&self, net: Prefix) -> Option<&Route<A>>
        ensures { option_copied result ≡ route_to self.now net }
    {
        let routes = self.as_slice();
        match routes.binary_search_by_key(&net, |route| route.net) {
            Ok(index) => Some(&routes[index]),
            Err(_) => None,
        }
    }

    /// Whether a prefix has a route.
    pub fn has_route(&self, net: Prefix) -> bool
        ensures { result ≡ has_route self.now net }
    {
        self.route_to(net).is_some()
    }
}
