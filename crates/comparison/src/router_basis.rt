//! What is calculated of a database for one router.

ghost use Rattle.std.specs.Prelude.{◌≡◌, ◌==◌, IfOk};
ghost use Rattle.std.specs.List.{list_any};
ghost use Rattle.std.specs.Option.{option_copied};
ghost use Rattle.lsdb.specs.Slots.{lists_of};
ghost use Rattle.forwarding.specs.Graphs.{routers_of, routes_at};
ghost use Rattle.hop_ends.specs.Owners.{AreGraphsOf};
ghost use Rattle.lost_routes.specs.Announced.{announced_in};

use forwarding::RouterRoutes;
use hop_ends::AreaGraphs;
use lost_routes::Announced;
use lsa_codec::RouterId;
use lsdb::Database;
use routing_table::routers;
use spf::Meter;
use std::alloc::{AllocError, Allocator, Global};
use std::marker::Model;

/// What is calculated of a database for one router: the graphs of all areas, the announced
/// prefixes, and the routes of this router alone, if it is attached to an area. Contracts see it as
/// the database and the router.
#[derive(Drop)]
pub struct RouterBasis<'a, A: Allocator = Global> {
    router: RouterId,
    database: &'a Database<A>,
    graphs: AreaGraphs<'a, A>,
    announced: Announced<A>,
    routes: Option<RouterRoutes<A>>,
}

impl<'a, A: Allocator> Model for RouterBasis<'a, A> {
    ghost use Rattle.std.specs.Prelude.{◌≡◌};
    ghost use Rattle.lsdb.specs.Slots.{lists_of};
    ghost use Rattle.forwarding.specs.Graphs.{routers_of, routes_at};
    ghost use Rattle.comparison.specs.Compared.{IsOutline, RouterIn};

    ghost Value = { RouterIn };

    ghost view = { λ b. record { db = lists_of b.database.now; router = b.router } };

    ghost invariant = { λ b. IsOutline (lists_of b.database.now) b.graphs b.announced
        × (b.routes ≡ routes_at (routers_of (lists_of b.database.now)) b.router) };
}

/// Whether a router is one of some.
fn is_among(routers: &[RouterId], router: RouterId) -> bool
    ensures { result ≡ list_any (λ other. router.0 == other.0) routers.now }
{
    routers.iter().any(|other| router.0 == other.0)
}

/// The routes of a router, if it is attached to an area. The meter counts the trees.
fn routes_of<A: Allocator + Copy>(
    alloc: A,
    database: &Database<A>,
    router: RouterId,
    meter: &mut Meter,
) -> Result<Option<RouterRoutes<A>>, AllocError>
    ensures { IfOk result
        (λ routes. routes ≡ routes_at (routers_of (lists_of database.now)) router) }
{
    let attached = routers(alloc, database)?;
    if !is_among(&attached, router) {
        return Ok(None);
    }
    let routes = RouterRoutes::of(alloc, database, router, meter)?;
    Ok(Some(routes))
}

impl<'a, A: Allocator + Copy> RouterBasis<'a, A> {
    /// What is calculated of a database for a router. The meter counts the trees of the router's
    /// table.
    ///
    /// # Errors
    ///
    /// Memory ran out.
    pub(crate) fn of(
        alloc: A,
        database: &'a Database<A>,
        router: RouterId,
        meter: &mut Meter,
    ) -> Result<RouterBasis<'a, A>, AllocError>
        ensures db { IfOk result (λ basis. basis.db ≡ lists_of database.now) }
        ensures router { IfOk result (λ basis. basis.router ≡ router) }
    {
        let graphs = AreaGraphs::for_routers(alloc, database, &[router])?;
        let announced = Announced::of(alloc, database)?;
        let routes = routes_of(alloc, database, router, meter)?;
        Ok(RouterBasis {
            router,
            database,
            graphs,
            announced,
            routes,
        })
    }

    /// The router.
    pub fn router(&self) -> RouterId
        ensures { result ≡ self.now.router }
    {
        self.router
    }

    /// The database.
    pub fn database(&self) -> &Database<A>
        ensures { lists_of result.now ≡ self.now.db }
    {
        self.database
    }

    /// The graphs of the areas.
    pub fn graphs(&self) -> &AreaGraphs<'a, A>
        ensures { AreGraphsOf self.now.db result.now }
    {
        &self.graphs
    }

    /// The prefixes that are announced.
    pub(crate) fn announced(&self) -> &Announced<A>
        ensures { result.now ≡ announced_in self.now.db }
    {
        &self.announced
    }

    /// What the entries of the router come from, if it is attached to an area.
    pub fn routes(&self) -> Option<&RouterRoutes<A>>
        ensures { option_copied result ≡ routes_at (routers_of self.now.db) self.now.router }
    {
        self.routes.as_ref()
    }
}
