//! Prefixes that routers announce themselves, and that their tables have other routes to.

ghost use Rattle.std.specs.Prelude.{◌≡◌, ◌++◌, false, filter, map, IfOk, OnOk};
ghost use Rattle.std.specs.Option.{option_map_or};
ghost use Rattle.lsdb.specs.declared.section.Section.TheVariants.{AsWide};
ghost use Rattle.lsdb.specs.Lists.{lsas_of};
ghost use Rattle.lsdb.specs.Slots.{lists_of};
ghost use Rattle.area_routes.specs.Inter.{originator_of};
ghost use Rattle.forwarding.specs.Matches.{router_in};
ghost use Rattle.router_entries.specs.Entries.{entry_for, is_own_external};
ghost use Rattle.audit_routes.specs.OwnExternals.{hides_route, hiding_nets, originators_of, own_external_places, own_places};

use crate::places::push_routes;
use audit_places::Place;
use audit_routers::RouterList;
use forwarding::RouterRoutes;
use lsa_codec::{Prefix, RouterId};
use lsdb::{Database, Lsas, Section};
use router_entries::Entries;
use routing_table::routers;
use spf::Meter;
use std::alloc::{AllocError, Allocator};
use study_words::RouteKind;

/// Whether the entry of a router for a prefix is for an external prefix of its own.
fn is_own<A: Allocator + Copy>(entries: &Entries<'_, A>, net: Prefix) -> bool
    ensures { result ≡ option_map_or is_own_external (entry_for entries.now net) false }
{
    match entries.entry_for(net) {
        Some(entry) => matches!(entry.kind, RouteKind::Own),
        None => false,
    }
}

/// Whether a router uses an external prefix of its own, though its table has a route to it.
fn hides_route<A: Allocator + Copy>(routes: &RouterRoutes<A>, net: Prefix) -> bool
    ensures { result ≡ hides_route routes.now net }
{
    is_own(&Entries::of(routes), net) && routes.routes().has_route(net)
}

/// Those of some prefixes that a router uses as external ones of its own, though its table has a
/// route to them.
fn hiding_among<A: Allocator + Copy>(
    alloc: A,
    routes: &RouterRoutes<A>,
    nets: &[Prefix],
) -> Result<Vec<Prefix, A>, AllocError>
    ensures { IfOk result (λ found. found.items ≡ filter (hides_route routes.now) nets.now) }
{
    let nets = nets.iter().copied();
    nets.filter(|net| hides_route(routes, *net)).collect(alloc)
}

/// The prefixes of a router's own AS-external-LSAs that its table has a route to.
fn hiding_nets<A: Allocator + Copy>(
    alloc: A,
    routes: &RouterRoutes<A>,
) -> Result<Vec<Prefix, A>, AllocError>
    ensures { IfOk result (λ found. found.items ≡ hiding_nets routes.now) }
{
    let own: Vec<Prefix, A> = routes.own().iter().copied().collect(alloc)?;
    hiding_among(alloc, routes, &own)
}

/// Adds the places of a router.
fn push_own<A: Allocator + Copy>(
    alloc: A,
    places: &mut Vec<Place<A>, A>,
    database: &Database<A>,
    router: RouterId,
) -> Result<(), AllocError>
    ensures { OnOk result (places.new.items
        ≡ places.old.items ++ own_places (router_in (lists_of database.now) router)) }
{
    let mut meter = Meter::new();
    let routes = RouterRoutes::of(alloc, database, router, &mut meter)?;
    let nets = hiding_nets(alloc, &routes)?;
    push_routes(places, routes.router(), &nets)
}

/// Adds the places of a router, if it is among the originators of the LSAs of AS scope: no other
/// router has any.
fn push_if_originator<A: Allocator + Copy>(
    alloc: A,
    places: &mut Vec<Place<A>, A>,
    database: &Database<A>,
    originators: &RouterList<A>,
    router: RouterId,
) -> Result<(), AllocError>
    requires { originators.now ≡ originators_of (lsas_of AsWide (lists_of database.now)) }
    ensures { OnOk result (places.new.items
        ≡ places.old.items ++ own_places (router_in (lists_of database.now) router)) }
{
    if !originators.has(router) {
        return Ok(());
    }
    push_own(alloc, places, database, router)
}

/// The places of the attached routers.
fn places_of<A: Allocator + Copy>(
    alloc: A,
    database: &Database<A>,
    originators: &RouterList<A>,
) -> Result<Vec<Place<A>, A>, AllocError>
    requires { originators.now ≡ originators_of (lsas_of AsWide (lists_of database.now)) }
    ensures { IfOk result
        (λ places. places.items ≡ own_external_places (lists_of database.now)) }
{
    let attached = routers(alloc, database)?;
    let mut places = Vec::new(alloc);
    for router in &attached {
        push_if_originator(alloc, &mut places, database, originators, *router)?;
    }
    Ok(places)
}

/// The originators of some LSAs, one for each.
fn routers_of<A: Allocator + Copy>(
    alloc: A,
    lsas: Lsas<'_, A>,
) -> Result<Vec<RouterId, A>, AllocError>
    ensures { IfOk result (λ routers. routers.items ≡ map originator_of lsas.entry) }
{
    lsas.map(|lsa| lsa.key().adv).collect(alloc)
}

/// The originators of the LSAs of AS scope.
fn originators_of<A: Allocator + Copy>(
    alloc: A,
    database: &Database<A>,
) -> Result<RouterList<A>, AllocError>
    ensures { IfOk result
        (λ routers. routers ≡ originators_of (lsas_of AsWide (lists_of database.now))) }
{
    let routers = routers_of(alloc, database.lsas(Section::AsWide))?;
    RouterList::of(alloc, &routers)
}

/// The prefixes that attached routers announce themselves as external ones and use so, though their
/// tables have routes to them: the calculation of a table skips the router's own AS-external-LSAs
/// (RFC 2328, 16.4 (2)). They are in order of router, then of prefix.
///
/// Only the tables of originators of LSAs of AS scope are calculated.
///
/// # Errors
///
/// Memory ran out.
pub fn own_external_places<A: Allocator + Copy>(
    alloc: A,
    database: &Database<A>,
) -> Result<Vec<Place<A>, A>, AllocError>
    ensures { IfOk result
        (λ places. places.items ≡ own_external_places (lists_of database.now)) }
{
    let originators = originators_of(alloc, database)?;
    places_of(alloc, database, &originators)
}
