//! The networks that a router leaves.

ghost use Rattle.std.specs.Prelude.{◌≡◌, ◌++◌, [], ◌∷◌, IfOk, OnOk, filter};
ghost use Rattle.std.specs.List.{find};
ghost use Rattle.lsa_codec.specs.Links.{links_of};
ghost use Rattle.lsa_codec.specs.Making.{leads_to_net};
ghost use Rattle.lsdb.specs.Slots.{lists_of};
ghost use Rattle.network_departures.specs.Leaving.{is_designated, link_on, is_on, same_net, is_from, is_left, networks_left};

use crate::departure::Departure;
use interfaces::router_lsa_of;
use lsa_codec::{Addr, AreaId, Link, LinkKind, Lsa, Prefix, RouterId, RouterView};
use lsdb::{Database, Section};
use std::alloc::{AllocError, Allocator};

/// Whether a router is the Designated Router of a network: it originated the network-LSA.
pub(crate) fn is_designated<A: Allocator + Copy>(router: RouterId, network: &Lsa<A>) -> bool
    ensures { result ≡ is_designated router network.now }
{
    network.key().adv.0 == router.0
}

/// Whether a link leads to the transit network whose Designated Router has this address.
pub(crate) fn is_link_to(link: Link, address: Addr) -> bool
    ensures { result ≡ leads_to_net address link }
{
    matches!(link.kind, LinkKind::Transit) && link.id.0 == address.0
}

/// The first link of a router-LSA to a network, by the address of its Designated Router.
fn first_link(lsa: &RouterView<'_>, address: Addr) -> Option<Link>
    ensures { result ≡ find (leads_to_net address) (links_of lsa.now) }
{
    lsa.links().find(|link| is_link_to(*link, address))
}

/// The first link of a router to a network, by the address of its Designated Router.
pub(crate) fn link_on<A: Allocator + Copy>(
    database: &Database<A>,
    area: AreaId,
    address: Addr,
    router: RouterId,
) -> Option<Link>
    ensures { result ≡ link_on (lists_of database.now) area address router }
{
    match router_lsa_of(database, area, router) {
        Some(lsa) => first_link(&lsa, address),
        None => None,
    }
}

/// Whether a router is on a network: it is the Designated Router, or has a link to it.
fn is_on<A: Allocator + Copy>(
    database: &Database<A>,
    area: AreaId,
    router: RouterId,
    network: &Lsa<A>,
) -> bool
    ensures { result ≡ is_on (lists_of database.now) area router network.now }
{
    is_designated(router, network) || link_on(database, area, network.key().id, router).is_some()
}

/// Whether two prefixes are the same.
fn same_net(one: Prefix, other: Prefix) -> bool
    ensures { result ≡ same_net one other }
{
    one.addr().0 == other.addr().0 && one.len() == other.len()
}

/// Whether a departure is one from networks of this prefix.
fn is_from(event: &Departure, net: Prefix) -> bool
    ensures { result ≡ is_from event.now net }
{
    match event {
        Departure::LeavesNetwork { net: left, .. } => same_net(*left, net),
        Departure::Fails { .. } => true,
    }
}

/// Whether an LSA is a live network-LSA of a network that the router of a departure is on, and
/// leaves.
pub fn is_left<A: Allocator + Copy>(
    database: &Database<A>,
    event: &Departure,
    area: AreaId,
    lsa: &Lsa<A>,
) -> bool
    ensures { result ≡ is_left (lists_of database.now) event.now area lsa.now }
{
    let Some(network) = lsa.network() else {
        return false;
    };
    if lsa.at_max_age() || !is_from(event, network.net()) {
        return false;
    }
    is_on(database, area, event.router(), lsa)
}

/// Adds a copy of an LSA, if it is one of a network that is left.
fn add_if_left<A: Allocator + Copy>(
    networks: &mut Vec<Lsa<A>, A>,
    database: &Database<A>,
    event: &Departure,
    area: AreaId,
    lsa: &Lsa<A>,
) -> Result<(), AllocError>
    ensures { OnOk result (networks.new.items ≡ networks.old.items
        ++ filter (is_left (lists_of database.now) event.now area) (lsa.now ∷ [])) }
{
    if is_left(database, event, area, lsa) {
        let copy = lsa.clone_of(database.alloc())?;
        networks.push(copy)?;
    }
    Ok(())
}

/// The network-LSAs of the networks of an area that the router of a departure leaves, in the order
/// of the area.
///
/// # Errors
///
/// Memory ran out.
pub fn networks_left<A: Allocator + Copy>(
    database: &Database<A>,
    event: &Departure,
    area: AreaId,
) -> Result<Vec<Lsa<A>, A>, AllocError>
    ensures { IfOk result (λ v. v.items ≡ networks_left (lists_of database.now) event.now area) }
{
    let mut networks = Vec::new(database.alloc());
    for lsa in database.lsas(Section::Area(area)) {
        add_if_left(&mut networks, database, event, area, lsa)?;
    }
    Ok(networks)
}
