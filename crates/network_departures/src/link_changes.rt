//! What becomes of the links of routers where a router leaves networks, or fails.

ghost use Rattle.std.specs.Prelude.{◌≡◌, IfOk};
ghost use Rattle.std.specs.List.{find};
ghost use Rattle.std.specs.Option.{option_copied};
ghost use Rattle.lsa_codec.specs.Fields.{kind_of};
ghost use Rattle.lsa_codec.specs.LsTypes.{network_lsa};
ghost use Rattle.lsa_codec.specs.Making.{leads_to_net};
ghost use Rattle.lsdb.specs.Slots.{lists_of};
ghost use Rattle.network_departures.specs.Leaving.{address_of};
ghost use Rattle.network_departures.specs.LinksAfter.{to_successor, stub_of, link_of_staying, link_to_left, is_to_router, is_to_failed, link_by_network, link_after, links_after};

use crate::departure::Departure;
use crate::leaving::{is_designated, is_link_to};
use crate::staying::{is_among, is_transit_still, staying};
use crate::successor::{Successor, successor_on};
use lsa_codec::{AreaId, Link, LinkKind, Lsa, NetworkView, RouterId, RouterView};
use lsa_remaking::{ChangedLink, LinkChange};
use lsdb::Database;
use std::alloc::{AllocError, Allocator};

/// What becomes of a link to a network of which the Designated Router is gone.
fn to_successor(next: Option<Successor>) -> LinkChange
    ensures { result ≡ to_successor next }
{
    match next {
        Some(next) => LinkChange::LeadsTo(next.address),
        None => LinkChange::Stays,
    }
}

/// What becomes of the link of the one router that is left on a network.
fn stub_of(network: &NetworkView<'_>) -> LinkChange
    ensures { result ≡ stub_of network.now }
{
    LinkChange::StubOf(network.net().addr(), network.mask())
}

/// What becomes of the link of a router that stays on a network, as these routers do.
fn link_of_staying<A: Allocator + Copy>(
    database: &Database<A>,
    area: AreaId,
    gone: RouterId,
    network: &Lsa<A>,
    routers: &[RouterId],
) -> LinkChange
    requires { kind_of network.now ≡ network_lsa }
    ensures { result
        ≡ link_of_staying (lists_of database.now) area gone network.now routers.now }
{
    let Some(view) = network.network() else {
        return LinkChange::Stays;
    };
    if !is_transit_still(routers) {
        return stub_of(&view);
    }
    if !is_designated(gone, network) {
        return LinkChange::Stays;
    }
    to_successor(successor_on(database, area, network, routers))
}

/// What becomes of the link of a router to a network that a router leaves.
#[tactic(auto, using(crate::proofs::NobodyStays::link_stays))]
fn link_to_left<A: Allocator + Copy>(
    database: &Database<A>,
    area: AreaId,
    gone: RouterId,
    network: &Lsa<A>,
    router: RouterId,
) -> Result<LinkChange, AllocError>
    ensures { IfOk result (λ change. change
        ≡ link_to_left (lists_of database.now) area gone network.now router) }
{
    if router.0 == gone.0 {
        return Ok(LinkChange::Removed);
    }
    let Some(_view) = network.network() else {
        return Ok(LinkChange::Stays);
    };
    let routers = staying(database, area, gone, network)?;
    if !is_among(&routers, router) {
        return Ok(LinkChange::Stays);
    }
    Ok(link_of_staying(database, area, gone, network, &routers))
}

/// Whether links of this kind lead to a router.
fn is_to_router(kind: LinkKind) -> bool
    ensures { result ≡ is_to_router kind }
{
    matches!(kind, LinkKind::PointToPoint | LinkKind::Virtual)
}

/// Whether a link leads to the router that fails.
fn is_to_failed(event: &Departure, link: Link) -> bool
    ensures { result ≡ is_to_failed event.now link }
{
    event.fails() && is_to_router(link.kind) && link.id.0 == event.router().0
}

/// The network-LSA, among some, of the network that a link leads to.
fn network_of<A: Allocator + Copy>(networks: &[Lsa<A>], link: Link) -> Option<&Lsa<A>>
    ensures { option_copied result
        ≡ find (λ network. leads_to_net (address_of network) link) networks.now }
{
    networks
        .iter()
        .find(|network| is_link_to(link, network.key().id))
}

/// What becomes of a link of a router, where these are the networks that are left.
fn link_after<A: Allocator + Copy>(
    database: &Database<A>,
    event: &Departure,
    area: AreaId,
    networks: &[Lsa<A>],
    router: RouterId,
    link: Link,
) -> Result<LinkChange, AllocError>
    ensures { IfOk result (λ change. change
        ≡ link_after (lists_of database.now) event.now area networks.now router link) }
{
    if is_to_failed(event, link) {
        return Ok(LinkChange::Removed);
    }
    match network_of(networks, link) {
        Some(network) => link_to_left(database, area, event.router(), network, router),
        None => Ok(LinkChange::Stays),
    }
}

/// Each link of the router-LSA of a router, with what becomes of it where a router goes and these
/// are the network-LSAs of the networks that it leaves.
///
/// # Errors
///
/// Memory ran out.
pub fn links_after<A: Allocator + Copy>(
    database: &Database<A>,
    event: &Departure,
    area: AreaId,
    networks: &[Lsa<A>],
    router: RouterId,
    lsa: &RouterView<'_>,
) -> Result<Vec<ChangedLink, A>, AllocError>
    ensures { IfOk result (λ v. v.items
        ≡ links_after (lists_of database.now) event.now area networks.now router lsa.now) }
{
    let mut links = Vec::new(database.alloc());
    for link in lsa.links() {
        let change = link_after(database, event, area, networks, router, link)?;
        links.push(ChangedLink { link, change })?;
    }
    Ok(links)
}
