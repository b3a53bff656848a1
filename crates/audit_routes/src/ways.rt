//! What a router has of routes inside the AS and of router entries.

ghost use Rattle.std.specs.Prelude.{◌≡◌, map, IfOk};
ghost use Rattle.lsdb.specs.Slots.{lists_of};
ghost use Rattle.routing_table.specs.AreasTrees.{AreOfDatabase};
ghost use Rattle.audit_routes.specs.Ways.{ways_from, ways_of};

use crate::preferring::preferring;
use area_routes::{AreaResult, InsideRoutes, RouterEntries, inter, intra};
use lsa_codec::RouterId;
use lsdb::Database;
use routing_table::KeptTrees;
use spf::Meter;
use std::alloc::{AllocError, Allocator};
use std::marker::Model;

/// The intra-area and inter-area routes of a router's table, and its router entries (RFC 2328, 11).
#[derive(Drop)]
pub(crate) struct RouterWays<A: Allocator> {
    router: RouterId,
    routes: InsideRoutes<A>,
    entries: RouterEntries<A>,
}

impl<A: Allocator> Model for RouterWays<A> {
    ghost use Rattle.audit_routes.specs.Ways.{WaysValue};

    ghost Value = { WaysValue };

    ghost view = { λ w. record { router = w.router; routes = w.routes; entries = w.entries } };
}

/// The routes and router entries of a router, from what its areas give.
fn ways_from<A: Allocator + Copy>(
    alloc: A,
    database: &Database<A>,
    router: RouterId,
    results: &[AreaResult<A>],
) -> Result<RouterWays<A>, AllocError>
    ensures { IfOk result (λ ways. ways ≡ ways_from (lists_of database.now) router results.now) }
{
    let intra = intra(alloc, results)?;
    let inter = inter(alloc, database, router, results, &intra)?;
    let routes = preferring(alloc, &intra, &inter.routes)?;
    Ok(RouterWays::new(router, routes, inter.routers))
}

impl<A: Allocator + Copy> RouterWays<A> {
    /// These routes and router entries.
    pub(crate) fn new(
        router: RouterId,
        routes: InsideRoutes<A>,
        entries: RouterEntries<A>,
    ) -> RouterWays<A>
        ensures { result ≡ record { router = router; routes = routes; entries = entries } }
    {
        RouterWays {
            router,
            routes,
            entries,
        }
    }

    /// The routes and router entries of a router. The graphs of its areas and its trees are kept.
    pub(crate) fn of(
        alloc: A,
        database: &Database<A>,
        router: RouterId,
        trees: &mut KeptTrees<A>,
    ) -> Result<RouterWays<A>, AllocError>
        requires { AreOfDatabase (lists_of database.now) trees.old }
        ensures ways { IfOk result (λ ways. ways ≡ ways_of (lists_of database.now) router) }
        ensures trees { AreOfDatabase (lists_of database.now) trees.new }
    {
        let mut meter = Meter::new();
        let results = trees.results_of(alloc, database, router, &mut meter)?;
        ways_from(alloc, database, router, &results)
    }

    /// The router.
    pub(crate) fn router(&self) -> RouterId
        ensures { result ≡ self.now.router }
    {
        self.router
    }

    /// The routes, in order of prefix.
    pub(crate) fn routes(&self) -> &InsideRoutes<A>
        ensures { result.now ≡ self.now.routes }
    {
        &self.routes
    }

    /// The router entries.
    pub(crate) fn entries(&self) -> &RouterEntries<A>
        ensures { result.now ≡ self.now.entries }
    {
        &self.entries
    }
}

/// The routes and router entries of some routers.
pub(crate) fn ways_of_all<A: Allocator + Copy>(
    alloc: A,
    database: &Database<A>,
    routers: &[RouterId],
) -> Result<Vec<RouterWays<A>, A>, AllocError>
    ensures { IfOk result
        (λ ways. ways.items ≡ map (ways_of (lists_of database.now)) routers.now) }
{
    let mut trees = KeptTrees::new(alloc);
    let mut ways = Vec::new(alloc);
    for router in routers {
        ways.push(RouterWays::of(alloc, database, *router, &mut trees)?)?;
    }
    Ok(ways)
}
