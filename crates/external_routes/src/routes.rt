//! External routes.

ghost use Rattle.std.specs.Prelude.{◌≡◌, ◌^◌, IfOk};
ghost use Rattle.std.specs.List.{filter_map};
ghost use Rattle.lsdb.specs.declared.section.Section.TheVariants.{AsWide};
ghost use Rattle.lsdb.specs.Lists.{lsas_of};
ghost use Rattle.lsdb.specs.Slots.{lists_of};
ghost use Rattle.best_ways.specs.Best.{Gathers};
ghost use Rattle.best_ways.specs.Values.{RoutesBelow};
ghost use Rattle.external_routes.specs.External.{externals_of};
ghost use Rattle.external_routes.specs.ExternalLsas.{AreExternalLsasOf};
ghost use Rattle.external_routes.specs.steps.Paths.{candidate_of};

use crate::areas::is_attached_outside_stubs;
use crate::candidates::add_external_candidate;
use crate::external_lsas::{ExternalLsa, ExternalLsas};
use crate::inside::Inside;
use area_routes::{BestWays, InsideRoutes, RouterEntries, Routes};
use lsa_codec::{Prefix, RouterId};
use lsdb::{Database, Section};
use std::alloc::{AllocError, Allocator};

/// Takes the paths that AS-external-LSAs offer into account, one after another.
fn ways_of<'a, A: Allocator + Copy>(
    alloc: A,
    lsas: &[ExternalLsa],
    router: RouterId,
    inside: &mut Inside<'a, A>,
) -> Result<BestWays<'a, Prefix, A>, AllocError>
    ensures { IfOk result (λ ways. Gathers
        (filter_map (candidate_of router inside.old.routes inside.old.entries) lsas.now)
        ways) }
{
    let mut ways = BestWays::with_capacity(alloc, lsas.len())?;
    for lsa in lsas {
        add_external_candidate(&mut ways, inside, router, lsa)?;
    }
    Ok(ways)
}

/// The external routes of a router (RFC 2328, 16.4). The routes are all its intra-area and
/// inter-area routes, and the entries are all its router entries.
///
/// A router that is attached to stub areas alone has none. For other routers, an AS-external-LSA is
/// used where it is not at MaxAge, its metric is below LSInfinity, its originator is another router
/// that has an entry as an AS boundary router, and its prefix has no other route. The path leads
/// over the preferred entry ([`preferred`](crate::preferred)) or, where the LSA has a forwarding
/// address, over the route of the longest prefix that covers it; without such a route there is no
/// path. The route to each prefix has the next hops of all best paths (RFC 2328, 16.4.1).
///
/// # Errors
///
/// Memory ran out.
pub fn externals<A: Allocator + Copy>(
    alloc: A,
    database: &Database<A>,
    lsas: &ExternalLsas<A>,
    router: RouterId,
    routes: &InsideRoutes<A>,
    entries: &RouterEntries<A>,
) -> Result<Routes<A>, AllocError>
    requires { AreExternalLsasOf (lsas_of AsWide (lists_of database.now)) lsas.now }
    ensures routes { IfOk result (λ found. found
        ≡ externals_of (lists_of database.now) router routes.now entries.now) }
    ensures small { IfOk result (RoutesBelow (2 ^ 35)) }
{
    let count = database.count(Section::AsWide);
    if count == 0 {
        return Ok(Routes::new(alloc));
    }
    if !is_attached_outside_stubs(database, router) {
        return Ok(Routes::new(alloc));
    }
    let mut inside = Inside::new(alloc, routes, entries)?;
    let ways = ways_of(alloc, lsas.as_slice(), router, &mut inside)?;
    ways.into_routes(alloc)
}
