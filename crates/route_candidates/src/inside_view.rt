//! The routes and the router entries of a router inside the AS.

ghost use Rattle.std.specs.Prelude.{◌≡◌, ◌<◌, ◌^◌, ◌++◌, List, IfOk, IfSome};
ghost use Rattle.std.specs.Option.{option_copied};
ghost use Rattle.lsdb.specs.Slots.{lists_of};
ghost use Rattle.area_graph.specs.Least.{later};
ghost use Rattle.best_ways.specs.Values.{RouteValue};
ghost use Rattle.external_routes.specs.Choose.{covers, forward_match, longer, preferred};
ghost use Rattle.route_candidates.specs.RouterViews.{inside_of};

use area_routes::{InsideRoutes, InterResult, Route, RouterEntry, inter, intra};
use external_routes::preferred;
use lsa_codec::{Addr, Prefix, RouterId};
use lsdb::Database;
use routing_table::KeptTrees;
use spf::Meter;
use std::alloc::{AllocError, Allocator};
use std::marker::Model;

/// The intra-area routes of a router, its inter-area routes and its router entries. Contracts see
/// the routes as one list.
#[derive(Drop)]
pub(crate) struct InsideView<A: Allocator> {
    intra: InsideRoutes<A>,
    inter: InterResult<A>,
}

impl<A: Allocator> Model for InsideView<A> {
    ghost use Rattle.std.specs.Prelude.{◌++◌};
    ghost use Rattle.route_candidates.specs.RouterViews.{InsideValue};

    ghost Value = { InsideValue };

    ghost view = { λ v.
        record { routes = v.intra ++ v.inter.routes; routers = v.inter.routers } };
}

/// Whether a prefix covers an address.
fn covers(net: Prefix, addr: Addr) -> bool
    ensures { result ≡ covers net addr }
{
    addr.0 & net.mask() == net.addr().0
}

/// The route of the longer prefix, of the longest so far and another one.
fn longer_of<'a, A: Allocator + Copy>(
    best: Option<&'a Route<A>>,
    route: &'a Route<A>,
) -> &'a Route<A>
    ensures { result.now ≡ later longer (option_copied best.entry) route.now }
{
    match best {
        Some(best) if route.net.len() <= best.net.len() => best,
        _ => route,
    }
}

/// The route of the longest prefix that covers an address, of the one so far and some others.
fn longest<'a, A: Allocator + Copy>(
    best: Option<&'a Route<A>>,
    routes: &'a [Route<A>],
    addr: Addr,
) -> Option<&'a Route<A>>
    ensures { (before : List RouteValue) → option_copied best.entry ≡ forward_match before addr
        → option_copied result ≡ forward_match (before ++ routes.now) addr }
{
    let mut best = best;
    for route in routes {
        if covers(route.net, addr) {
            best = Some(longer_of(best, route));
        }
    }
    best
}

impl<A: Allocator + Copy> InsideView<A> {
    /// The routes and the entries of a router. The meter counts its trees.
    ///
    /// # Errors
    ///
    /// Memory ran out.
    pub(crate) fn of(
        alloc: A,
        database: &Database<A>,
        router: RouterId,
        meter: &mut Meter,
    ) -> Result<InsideView<A>, AllocError>
        ensures { IfOk result (λ view. view ≡ inside_of (lists_of database.now) router) }
    {
        let mut trees = KeptTrees::new(alloc);
        let results = trees.results_of(alloc, database, router, meter)?;
        let intra = intra(alloc, &results)?;
        let inter = inter(alloc, database, router, &results, &intra)?;
        Ok(InsideView { intra, inter })
    }

    /// The preferred entry of an AS boundary router (RFC 2328, 16.4.1).
    pub(crate) fn preferred(&self, boundary: RouterId) -> Option<&RouterEntry<A>>
        ensures entry { option_copied result ≡ preferred self.now.routers boundary }
        ensures small { IfSome result (λ entry. entry.now.cost < 2 ^ 34) }
    {
        preferred(self.inter.routers.as_slice(), boundary)
    }

    /// The route of the longest prefix that covers a forwarding address (RFC 2328, 16.4 (3)).
    pub(crate) fn forward_match(&self, addr: Addr) -> Option<&Route<A>>
        ensures route { option_copied result ≡ forward_match self.now.routes addr }
        ensures small { IfSome result (λ route. route.now.cost < 2 ^ 34) }
    {
        let best = longest(None, self.intra.as_routes().as_slice(), addr);
        longest(best, self.inter.routes.as_routes().as_slice(), addr)
    }
}
