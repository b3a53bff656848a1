//! External routes that would be others with RFC1583Compatibility.

ghost use Rattle.std.specs.Prelude.{◌≡◌, ◌++◌, IfOk, OnOk};
ghost use Rattle.lsdb.specs.declared.section.Section.TheVariants.{AsWide};
ghost use Rattle.lsdb.specs.Lists.{lsas_of};
ghost use Rattle.lsdb.specs.Slots.{lists_of};
ghost use Rattle.external_routes.specs.ExternalLsas.{AreExternalLsasOf};
ghost use Rattle.audit_routes.specs.Compatibility.{classless, dependent_nets, dependent_places, externals_over, is_dependent, rfc1583_places};

use crate::classless::classless;
use crate::places::push_routes;
use crate::same_route::same_route;
use crate::ways::RouterWays;
use audit_places::Place;
use best_ways::{Route, Routes};
use external_routes::{ExternalLsas, externals};
use lsa_codec::Prefix;
use lsdb::{Database, Section};
use routing_table::{KeptTrees, routers};
use std::alloc::{AllocError, Allocator};

/// The external routes of a router with these ways inside the AS.
fn externals_over<A: Allocator + Copy>(
    alloc: A,
    database: &Database<A>,
    lsas: &ExternalLsas<A>,
    ways: &RouterWays<A>,
) -> Result<Routes<A>, AllocError>
    requires { AreExternalLsasOf (lsas_of AsWide (lists_of database.now)) lsas.now }
    ensures { IfOk result
        (λ found. found ≡ externals_over (lists_of database.now) ways.now) }
{
    externals(
        alloc,
        database,
        lsas,
        ways.router(),
        ways.routes(),
        ways.entries(),
    )
}

/// Whether there is no such route to the same prefix among others.
fn is_dependent<A: Allocator + Copy>(others: &Routes<A>, route: &Route<A>) -> bool
    ensures { result ≡ is_dependent others.now route.now }
{
    match others.route_to(route.net) {
        Some(other) => !same_route(route, other),
        None => true,
    }
}

/// The prefixes of such routes.
fn dependent_among<A: Allocator + Copy>(
    alloc: A,
    others: &Routes<A>,
    routes: &[Route<A>],
) -> Result<Vec<Prefix, A>, AllocError>
    ensures { IfOk result (λ nets. nets.items ≡ dependent_nets others.now routes.now) }
{
    routes
        .iter()
        .filter(|route| is_dependent(others, route))
        .map(|route| route.net)
        .collect(alloc)
}

/// The prefixes of the external routes of a router that would be others.
fn dependent_nets<A: Allocator + Copy>(
    alloc: A,
    database: &Database<A>,
    lsas: &ExternalLsas<A>,
    ways: &RouterWays<A>,
) -> Result<Vec<Prefix, A>, AllocError>
    requires { AreExternalLsasOf (lsas_of AsWide (lists_of database.now)) lsas.now }
    ensures { IfOk result (λ nets. nets.items ≡ dependent_nets
        (externals_over (lists_of database.now) (classless ways.now))
        (externals_over (lists_of database.now) ways.now)) }
{
    let others = externals_over(alloc, database, lsas, &classless(alloc, ways)?)?;
    let routes = externals_over(alloc, database, lsas, ways)?;
    dependent_among(alloc, &others, routes.as_slice())
}

/// Adds the places of a router.
fn push_dependent<A: Allocator + Copy>(
    alloc: A,
    places: &mut Vec<Place<A>, A>,
    database: &Database<A>,
    lsas: &ExternalLsas<A>,
    ways: &RouterWays<A>,
) -> Result<(), AllocError>
    requires { AreExternalLsasOf (lsas_of AsWide (lists_of database.now)) lsas.now }
    ensures { OnOk result (places.new.items
        ≡ places.old.items ++ dependent_places (lists_of database.now) ways.now) }
{
    let nets = dependent_nets(alloc, database, lsas, ways)?;
    push_routes(places, ways.router(), &nets)
}

/// The places of all attached routers.
fn all_places<A: Allocator + Copy>(
    alloc: A,
    database: &Database<A>,
    lsas: &ExternalLsas<A>,
) -> Result<Vec<Place<A>, A>, AllocError>
    requires { AreExternalLsasOf (lsas_of AsWide (lists_of database.now)) lsas.now }
    ensures { IfOk result (λ places. places.items ≡ rfc1583_places (lists_of database.now)) }
{
    let attached = routers(alloc, database)?;
    let mut trees = KeptTrees::new(alloc);
    let mut places = Vec::new(alloc);
    for router in &attached {
        let ways = RouterWays::of(alloc, database, *router, &mut trees)?;
        push_dependent(alloc, &mut places, database, lsas, &ways)?;
    }
    Ok(places)
}

/// The external routes of attached routers that would be others with RFC1583Compatibility, in
/// their type, their costs or their next hops (RFC 2328, 16.4.1): then no class of ways inside the
/// AS is preferred, and of the ways to an AS boundary router that of least cost is taken, or of
/// several that of the greatest Area ID. They are in order of router, then of prefix.
///
/// # Errors
///
/// Memory ran out.
pub fn rfc1583_places<A: Allocator + Copy>(
    alloc: A,
    database: &Database<A>,
) -> Result<Vec<Place<A>, A>, AllocError>
    ensures { IfOk result (λ places. places.items ≡ rfc1583_places (lists_of database.now)) }
{
    if database.count(Section::AsWide) == 0 {
        return Ok(Vec::new(alloc));
    }
    let lsas = ExternalLsas::of(alloc, database)?;
    all_places(alloc, database, &lsas)
}
