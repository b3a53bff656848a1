//! Routes inside the AS.

ghost use Rattle.std.specs.Prelude.{◌≡◌, [], ◌^◌};
ghost use Rattle.best_ways.specs.Values.{RoutesBelow};

use best_ways::Routes;
use std::alloc::{Allocator, Global};
use std::marker::Model;

/// Intra-area and inter-area routes in order of prefix, one for each. Contracts see them as this
/// list.
///
/// Each cost is below 2^34: the cost within an area is below 2^33, and a summary-LSA adds less than
/// 2^24.
#[derive(Drop)]
pub struct InsideRoutes<A: Allocator = Global> {
    routes: Routes<A>,
}

impl<A: Allocator> Model for InsideRoutes<A> {
    ghost use Rattle.std.specs.Prelude.{List, ◌^◌};
    ghost use Rattle.best_ways.specs.Values.{RouteValue, RoutesBelow};

    ghost Value = { List RouteValue };

    ghost view = { λ r. r.routes };

    ghost invariant = { λ r. RoutesBelow (2 ^ 34) r.routes };
}

impl<A: Allocator + Copy> InsideRoutes<A> {
    /// No routes. It takes no memory.
    pub fn new(alloc: A) -> InsideRoutes<A>
        ensures { result ≡ [] }
    {
        InsideRoutes {
            routes: Routes::new(alloc),
        }
    }

    /// Routes whose costs are all below 2^34.
    pub fn from_routes(routes: Routes<A>) -> InsideRoutes<A>
        requires { RoutesBelow (2 ^ 34) routes }
        ensures { result ≡ routes }
    {
        InsideRoutes { routes }
    }

    /// The routes.
    pub fn as_routes(&self) -> &Routes<A>
        ensures routes { result.now ≡ self.now }
        ensures small { RoutesBelow (2 ^ 34) result.now }
    {
        &self.routes
    }

    /// The routes.
    pub fn into_routes(self) -> Routes<A>
        ensures routes { result ≡ self }
        ensures small { RoutesBelow (2 ^ 34) result }
    {
        self.routes
    }
}
