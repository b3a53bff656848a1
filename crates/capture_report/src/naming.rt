//! Which routers and networks LSAs name, and which they describe.

ghost use Rattle.std.specs.Prelude.{◌≡◌, IfOk, map};
ghost use Rattle.std.specs.List.{filter_map, flat_map};
ghost use Rattle.lsa_codec.specs.Views.{attached_of};
ghost use Rattle.capture_report.specs.Naming.{router_of_link, network_of_link, routers_named, networks_named, asbr_named, ls_type_of, named_by, described_by, external_described};

use lsa_codec::{
    ASBR_SUMMARY_LSA, Attached, EXTERNAL_LSA, Link, LinkKind, Links, Lsa, NETWORK_LSA, ROUTER_LSA,
    SUMMARY_LSA,
};
use lsdb::Lsas;
use std::alloc::{AllocError, Allocator};

/// What LSAs name and describe.
#[derive(Clone, Copy)]
pub(crate) enum Node {
    /// Routers.
    Router,
    /// Transit networks.
    Network,
}

/// The type of the LSAs that describe routers, or transit networks.
fn ls_type_of(node: Node) -> u8
    ensures { result ≡ ls_type_of node }
{
    match node {
        Node::Router => ROUTER_LSA,
        Node::Network => NETWORK_LSA,
    }
}

/// The router that a link leads to.
fn router_of_link(link: Link) -> Option<u32>
    ensures { result ≡ router_of_link link }
{
    match link.kind {
        LinkKind::PointToPoint | LinkKind::Virtual => Some(link.id.0),
        _ => None,
    }
}

/// The transit network that a link leads to.
fn network_of_link(link: Link) -> Option<u32>
    ensures { result ≡ network_of_link link }
{
    match link.kind {
        LinkKind::Transit => Some(link.id.0),
        _ => None,
    }
}

/// The routers that links lead to.
fn linked_routers<A: Allocator + Copy>(
    alloc: A,
    links: Links<'_>,
) -> Result<Vec<u32, A>, AllocError>
    ensures { IfOk result (λ ids. ids.items ≡ filter_map router_of_link links.entry) }
{
    links.filter_map(|link| router_of_link(link)).collect(alloc)
}

/// The transit networks that links lead to.
fn linked_networks<A: Allocator + Copy>(
    alloc: A,
    links: Links<'_>,
) -> Result<Vec<u32, A>, AllocError>
    ensures { IfOk result (λ ids. ids.items ≡ filter_map network_of_link links.entry) }
{
    links
        .filter_map(|link| network_of_link(link))
        .collect(alloc)
}

/// The routers that are attached to a network.
fn attached_routers<A: Allocator + Copy>(
    alloc: A,
    attached: Attached<'_>,
) -> Result<Vec<u32, A>, AllocError>
    ensures { IfOk result (λ ids. ids.items ≡ map (λ router. router.0) attached.entry) }
{
    attached.map(|router| router.0).collect(alloc)
}

/// The routers that an LSA names.
fn routers_of_lsa<A: Allocator + Copy>(alloc: A, lsa: &Lsa<A>) -> Result<Vec<u32, A>, AllocError>
    ensures { IfOk result (λ ids. ids.items ≡ routers_named lsa.now) }
{
    if lsa.at_max_age() {
        return Ok(Vec::new(alloc));
    }
    if let Some(router) = lsa.router() {
        return linked_routers(alloc, router.links());
    }
    if let Some(network) = lsa.network() {
        return attached_routers(alloc, network.attached());
    }
    let key = lsa.key();
    if key.kind == SUMMARY_LSA || key.kind == ASBR_SUMMARY_LSA {
        return Ok(vec![in alloc; key.adv.0]?);
    }
    Ok(Vec::new(alloc))
}

/// The transit networks that an LSA names.
fn networks_of_lsa<A: Allocator + Copy>(alloc: A, lsa: &Lsa<A>) -> Result<Vec<u32, A>, AllocError>
    ensures { IfOk result (λ ids. ids.items ≡ networks_named lsa.now) }
{
    if lsa.at_max_age() {
        return Ok(Vec::new(alloc));
    }
    match lsa.router() {
        Some(router) => linked_networks(alloc, router.links()),
        None => Ok(Vec::new(alloc)),
    }
}

/// What an LSA names: routers, or transit networks.
fn named_by<A: Allocator + Copy>(
    alloc: A,
    node: Node,
    lsa: &Lsa<A>,
) -> Result<Vec<u32, A>, AllocError>
    ensures { IfOk result (λ ids. ids.items ≡ named_by node lsa.now) }
{
    match node {
        Node::Router => routers_of_lsa(alloc, lsa),
        Node::Network => networks_of_lsa(alloc, lsa),
    }
}

/// The routers or transit networks that LSAs name, each as often as it is named.
pub(crate) fn named<A: Allocator + Copy>(
    alloc: A,
    node: Node,
    lsas: Lsas<'_, A>,
) -> Result<Vec<u32, A>, AllocError>
    ensures { IfOk result (λ ids. ids.items ≡ flat_map (named_by node) lsas.entry) }
{
    let mut named = Vec::new(alloc);
    for lsa in lsas {
        named.extend_from_slice(&named_by(alloc, node, lsa)?)?;
    }
    Ok(named)
}

/// The AS boundary router of an AS-external-LSA.
fn asbr_named<A: Allocator + Copy>(lsa: &Lsa<A>) -> Option<u32>
    ensures { result ≡ asbr_named lsa.now }
{
    let key = lsa.key();
    if lsa.at_max_age() || key.kind != EXTERNAL_LSA {
        return None;
    }
    Some(key.adv.0)
}

/// The AS boundary routers of AS-external-LSAs, one for each LSA.
pub(crate) fn asbrs_named<A: Allocator + Copy>(
    alloc: A,
    lsas: Lsas<'_, A>,
) -> Result<Vec<u32, A>, AllocError>
    ensures { IfOk result (λ ids. ids.items ≡ filter_map asbr_named lsas.entry) }
{
    lsas.filter_map(|lsa| asbr_named(lsa)).collect(alloc)
}

/// The Link State ID of an LSA that describes a router, or a transit network.
fn described_by<A: Allocator + Copy>(node: Node, lsa: &Lsa<A>) -> Option<u32>
    ensures { result ≡ described_by (ls_type_of node) lsa.now }
{
    let key = lsa.key();
    if key.kind != ls_type_of(node) {
        return None;
    }
    Some(key.id.0)
}

/// The routers or transit networks that LSAs describe, one for each LSA.
pub(crate) fn described<A: Allocator + Copy>(
    alloc: A,
    node: Node,
    lsas: Lsas<'_, A>,
) -> Result<Vec<u32, A>, AllocError>
    ensures { IfOk result (λ ids. ids.items
        ≡ filter_map (described_by (ls_type_of node)) lsas.entry) }
{
    lsas.filter_map(|lsa| described_by(node, lsa))
        .collect(alloc)
}

/// The AS boundary router that originated an AS-external-LSA, at any age.
fn external_described<A: Allocator + Copy>(lsa: &Lsa<A>) -> Option<u32>
    ensures { result ≡ external_described lsa.now }
{
    let key = lsa.key();
    if key.kind != EXTERNAL_LSA {
        return None;
    }
    Some(key.adv.0)
}

/// The AS boundary routers that originated AS-external-LSAs, one for each LSA.
pub(crate) fn externals_described<A: Allocator + Copy>(
    alloc: A,
    lsas: Lsas<'_, A>,
) -> Result<Vec<u32, A>, AllocError>
    ensures { IfOk result (λ ids. ids.items ≡ filter_map external_described lsas.entry) }
{
    lsas.filter_map(|lsa| external_described(lsa))
        .collect(alloc)
}
