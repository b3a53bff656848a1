//! Members of networks without a link to the network.

ghost use Rattle.std.specs.Prelude.{◌≡◌, ◌++◌, IfOk, OnOk, map};
ghost use Rattle.std.specs.List.{flat_map, list_any};
ghost use Rattle.area_graph.specs.Area.{used};
ghost use Rattle.area_graph.specs.Vertex.{is_same};
ghost use Rattle.lsa_codec.specs.Key.{key_of};
ghost use Rattle.lsa_codec.specs.Views.{attached_of};
ghost use Rattle.audit_links.specs.OneWay.{listed_alone, listed_by, listed_in, listed_router, not_led_to, one_way_members, place_of_member};

use area_graph::{Vertex, VertexLsa};
use audit_areas::{AuditedArea, is_end};
use audit_places::{Form, Place};
use link_report::rising;
use lsa_codec::{AreaId, Key, Lsa, NetworkView, Prefix, RouterId};
use lsa_names::LsaName;
use std::alloc::{AllocError, Allocator};

/// A router that a network-LSA lists. They are ordered by the LSA, then by the router.
#[derive(Clone, Copy, Debug, PartialEq, Eq, PartialOrd, Ord)]
pub(crate) struct ListedRouter {
    /// The key of the network-LSA.
    pub(crate) lsa: Key,
    /// The router.
    pub(crate) router: RouterId,
    /// The prefix of the network.
    pub(crate) net: Prefix,
}

/// The routers that a network-LSA lists and that are no ends of edges out of the network.
fn not_led_to<A: Allocator + Copy>(
    alloc: A,
    ends: &[Vertex],
    network: &NetworkView<'_>,
) -> Result<Vec<RouterId, A>, AllocError>
    ensures { IfOk result (λ routers. routers.items
        ≡ not_led_to (λ v. list_any (is_same v) ends.now) (attached_of network.now)) }
{
    network
        .attached()
        .filter(|router| !is_end(ends, Vertex::Router(*router)))
        .collect(alloc)
}

/// A router that a network-LSA with a key and a prefix lists.
fn listed_router(lsa: Key, net: Prefix, router: RouterId) -> ListedRouter
    ensures { result ≡ listed_router lsa net router }
{
    ListedRouter { lsa, router, net }
}

/// Routers that a network-LSA with a key and a prefix lists.
fn listed_routers<A: Allocator + Copy>(
    alloc: A,
    lsa: Key,
    net: Prefix,
    routers: &[RouterId],
) -> Result<Vec<ListedRouter, A>, AllocError>
    ensures { IfOk result (λ listed. listed.items ≡ map (listed_router lsa net) routers.now) }
{
    routers
        .iter()
        .map(|router| listed_router(lsa, net, *router))
        .collect(alloc)
}

/// The routers that a network-LSA with a key lists and that no edge leads to.
fn listed_by<A: Allocator + Copy>(
    alloc: A,
    area: &AuditedArea<'_, A>,
    lsa: Key,
    network: &NetworkView<'_>,
) -> Result<Vec<ListedRouter, A>, AllocError>
    requires { lsa ≡ key_of network.now }
    ensures { IfOk result (λ listed. listed.items ≡ listed_by area.now network.now) }
{
    let ends = area.ends(alloc, Vertex::Network(lsa.id))?;
    let routers = not_led_to(alloc, &ends, network)?;
    listed_routers(alloc, lsa, network.net(), &routers)
}

/// The routers that an LSA lists, if it is a network-LSA, and that no edge leads to.
fn listed_alone<A: Allocator + Copy>(
    alloc: A,
    area: &AuditedArea<'_, A>,
    lsa: &Lsa<A>,
) -> Result<Vec<ListedRouter, A>, AllocError>
    ensures { IfOk result (λ listed. listed.items ≡ listed_alone area.now lsa.now) }
{
    match lsa.network() {
        Some(network) => listed_by(alloc, area, lsa.key(), &network),
        None => Ok(Vec::new(alloc)),
    }
}

/// Those of some LSAs.
fn listed_by_all<A: Allocator + Copy>(
    alloc: A,
    area: &AuditedArea<'_, A>,
    lsas: &[VertexLsa<'_, A>],
) -> Result<Vec<ListedRouter, A>, AllocError>
    ensures { IfOk result (λ listed. listed.items
        ≡ flat_map (listed_alone area.now) lsas.now) }
{
    let mut listed = Vec::new(alloc);
    for vertex in lsas {
        let mut more = listed_alone(alloc, area, vertex.lsa())?;
        listed.append(&mut more)?;
    }
    Ok(listed)
}

/// Those of the network-LSAs in use of an area, by LSA and router.
fn listed_in<A: Allocator + Copy>(
    alloc: A,
    area: &AuditedArea<'_, A>,
) -> Result<Vec<ListedRouter, A>, AllocError>
    ensures { IfOk result (λ listed. listed.items ≡ listed_in area.now) }
{
    let lsas = area.used(alloc)?;
    let listed = listed_by_all(alloc, area, &lsas)?;
    rising(alloc, &listed)
}

/// The place of a router that a network-LSA lists.
fn place_of_member<A: Allocator>(area: AreaId, listed: ListedRouter) -> Place<A>
    ensures { result ≡ place_of_member area listed }
{
    let lsa = LsaName {
        area: Some(area),
        key: listed.lsa,
        net: Some(listed.net),
    };
    Place::of(Form::Member {
        lsa,
        router: listed.router,
    })
}

/// Adds the places of the routers that network-LSAs in use of an area list and that no edge leads
/// to, by LSA and router.
pub(crate) fn push_members<A: Allocator + Copy>(
    places: &mut Vec<Place<A>, A>,
    alloc: A,
    area: &AuditedArea<'_, A>,
) -> Result<(), AllocError>
    ensures { OnOk result (places.new.items
        ≡ places.old.items ++ one_way_members area.now) }
{
    let members = listed_in(alloc, area)?;
    for listed in &members {
        places.push(place_of_member(area.area(), *listed))?;
    }
    Ok(())
}
