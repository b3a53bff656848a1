//! The networks of a prefix in an area.

ghost use Rattle.std.specs.Prelude.{◌≡◌, ◌&&◌, IfOk};
ghost use Rattle.std.specs.List.{list_any};
ghost use Rattle.area_graph.specs.Area.{is_live, is_outranked_by, vertex_of};
ghost use Rattle.area_candidates.specs.Views.{lsas_in};
ghost use Rattle.area_candidates.specs.Within.{is_before, is_outranked, judged_network, judged_network_at, near_network, near_networks, network_draft, network_drafts};

use crate::area_view::AreaView;
use crate::draft::{Draft, Judged, costing};
use crate::found_lsa::FoundLsa;
use crate::ordered_lsas::lsas_in_order;
use crate::rule::Rule;
use area_graph::Vertex;
use area_routes::PathType;
use lsa_codec::{Lsa, NETWORK_LSA, Prefix, ROUTER_LSA, RouterId};
use lsdb::{Lsas, Section};
use std::alloc::{AllocError, Allocator};

/// A network that is reached.
#[derive(Clone, Copy, Debug)]
pub(crate) struct NearNetwork {
    distance: u64,
    /// The Link State ID.
    id: u32,
}

/// The vertex of a router-LSA or network-LSA.
pub fn vertex_of<A: Allocator + Copy>(lsa: &Lsa<A>) -> Vertex
    ensures { result ≡ vertex_of lsa.now }
{
    let key = lsa.key();
    match key.kind {
        ROUTER_LSA => Vertex::Router(RouterId(key.id.0)),
        _ => Vertex::Network(key.id),
    }
}

/// Whether an LSA is a live network-LSA that outranks another one: it has the same Link State ID
/// and a greater Advertising Router.
fn outranks<A: Allocator + Copy>(other: &Lsa<A>, lsa: &Lsa<A>) -> bool
    ensures { result ≡ (is_live other.now && is_outranked_by lsa.now other.now) }
{
    let (theirs, own) = (other.key(), lsa.key());
    !other.at_max_age()
        && own.kind == NETWORK_LSA
        && theirs.kind == NETWORK_LSA
        && theirs.id.0 == own.id.0
        && own.adv.0 < theirs.adv.0
}

/// Whether one of some LSAs outranks a network-LSA, so that it is not in use.
fn is_outranked<A: Allocator + Copy>(lsas: Lsas<'_, A>, lsa: &Lsa<A>) -> bool
    ensures { result ≡ is_outranked lsas.entry lsa.now }
{
    for other in lsas {
        if outranks(other, lsa) {
            return true;
        }
    }
    false
}

/// Whether a network-LSA of an area is outranked.
fn is_outranked_in<A: Allocator + Copy>(view: &AreaView<'_, A>, lsa: &Lsa<A>) -> bool
    ensures { result ≡ is_outranked (lsas_in view.now) lsa.now }
{
    let database = view.database();
    is_outranked(database.lsas(Section::Area(view.area())), lsa)
}

/// The network of a network-LSA, if that is in use and the network is reached.
fn near_network<A: Allocator + Copy>(
    view: &AreaView<'_, A>,
    found: &FoundLsa<'_, A>,
) -> Option<NearNetwork>
    ensures { result ≡ near_network view.now found.now }
{
    let lsa = found.lsa();
    if lsa.at_max_age() || is_outranked_in(view, lsa) {
        return None;
    }
    let distance = view.distance(vertex_of(lsa))?;
    Some(NearNetwork {
        distance,
        id: lsa.key().id.0,
    })
}

/// The networks of network-LSAs that are in use and reached.
fn near_networks<A: Allocator + Copy>(
    alloc: A,
    view: &AreaView<'_, A>,
    found: &[FoundLsa<'_, A>],
) -> Result<Vec<NearNetwork, A>, AllocError>
    ensures { IfOk result (λ near. near.items ≡ near_networks view.now found.now) }
{
    found
        .iter()
        .filter_map(|lsa| near_network(view, lsa))
        .collect(alloc)
}

/// Whether a network is nearer than another, or as near with a greater Link State ID.
fn is_before(one: NearNetwork, other: NearNetwork) -> bool
    ensures { result ≡ is_before one other }
{
    one.distance < other.distance || (one.distance == other.distance && other.id < one.id)
}

/// Whether one of some networks is before another one.
fn is_any_before(near: &[NearNetwork], network: NearNetwork) -> bool
    ensures { result ≡ list_any (λ m. is_before m network) near.now }
{
    near.iter().any(|other| is_before(*other, network))
}

/// A network at a distance, beside those that are near.
fn judged_network_at(near: &[NearNetwork], id: u32, distance: Option<u64>) -> Judged
    ensures { result ≡ judged_network_at near.now id distance }
{
    let Some(distance) = distance else {
        return Judged::out(Rule::VertexNotReached);
    };
    if is_any_before(near, NearNetwork { distance, id }) {
        return Judged::out_at(distance, Rule::AnotherNetwork);
    }
    Judged::left(distance, costing(PathType::Intra, distance))
}

/// What the rules say of a network-LSA, beside the networks of its prefix that are near.
fn judged_network<A: Allocator + Copy>(
    view: &AreaView<'_, A>,
    near: &[NearNetwork],
    lsa: &Lsa<A>,
) -> Judged
    ensures { result ≡ judged_network view.now near.now lsa.now }
{
    if lsa.at_max_age() {
        return Judged::out(Rule::VertexMaxAge);
    }
    if is_outranked_in(view, lsa) {
        return Judged::out(Rule::AnotherLsa);
    }
    judged_network_at(near, lsa.key().id.0, view.distance(vertex_of(lsa)))
}

/// A network-LSA as a candidate.
fn network_draft<A: Allocator + Copy>(
    view: &AreaView<'_, A>,
    near: &[NearNetwork],
    found: &FoundLsa<'_, A>,
) -> Draft
    ensures { result ≡ network_draft view.now near.now found.now }
{
    Draft {
        lsa: found.name(),
        link: None,
        metric: 0,
        judged: judged_network(view, near, found.lsa()),
    }
}

/// The network-LSAs of an area with a prefix as candidates, by Link State ID and Advertising
/// Router.
///
/// # Errors
///
/// Memory ran out.
pub(crate) fn network_drafts<A: Allocator + Copy>(
    alloc: A,
    view: &AreaView<'_, A>,
    net: Prefix,
) -> Result<Vec<Draft, A>, AllocError>
    ensures { IfOk result (λ drafts. drafts.items ≡ network_drafts view.now net) }
{
    let found = lsas_in_order(alloc, view.database(), Some(view.area()), NETWORK_LSA, net)?;
    let near = near_networks(alloc, view, &found)?;
    found
        .iter()
        .map(|lsa| network_draft(view, &near, lsa))
        .collect(alloc)
}
