//! What would have been right in place of a transit network that a router is not on.

ghost use Rattle.std.specs.Prelude.{◌≡◌, ◌==◌, IfOk};
ghost use Rattle.std.specs.List.{filter_map, list_any};
ghost use Rattle.lsdb.specs.Slots.{lists_of};
ghost use Rattle.refusal_hints.specs.NetworkHints.{net_if_on, nets_among, nets_in, networks_hint};

use crate::router_links::Sought;
use link_report::{area_ids, rising};
use lsa_codec::{Addr, AreaId, Lsa, Prefix, RouterId};
use lsdb::{Database, Lsas, Section};
use network_names::Names;
use std::alloc::{AllocError, Allocator};
use study_text::{push_address, push_joined_or};

/// Whether a network is among those of some addresses of Designated Routers.
fn is_among(networks: &[u32], network: Addr) -> bool
    ensures { result ≡ list_any (λ other. other == network.0) networks.now }
{
    networks.iter().any(|other| *other == network.0)
}

/// The prefix of an LSA, if it is a live network-LSA of a network that a router is on: it is the
/// originator, or has a link to the network.
fn net_if_on<A: Allocator + Copy>(router: RouterId, linked: &[u32], lsa: &Lsa<A>) -> Option<Prefix>
    ensures { result ≡ net_if_on router linked.now lsa.now }
{
    let network = lsa.network()?;
    let key = lsa.key();
    if lsa.at_max_age() || !(key.adv.0 == router.0 || is_among(linked, key.id)) {
        return None;
    }
    Some(network.net())
}

/// The prefixes of the networks that a router is on, of some LSAs.
fn nets_of<A: Allocator + Copy>(
    alloc: A,
    router: RouterId,
    linked: &[u32],
    lsas: Lsas<'_, A>,
) -> Result<Vec<Prefix, A>, AllocError>
    ensures { IfOk result
        (λ nets. nets.items ≡ filter_map (net_if_on router linked.now) lsas.entry) }
{
    lsas.filter_map(|lsa| net_if_on(router, linked, lsa))
        .collect(alloc)
}

/// The prefixes of the networks of an area that a router is on, in the order of the area.
fn nets_in<A: Allocator + Copy>(
    alloc: A,
    database: &Database<A>,
    router: RouterId,
    area: AreaId,
) -> Result<Vec<Prefix, A>, AllocError>
    ensures { IfOk result
        (λ nets. nets.items ≡ nets_in (lists_of database.now) router area) }
{
    let linked = Sought::Networks.in_area(alloc, database, router, area)?;
    nets_of(alloc, router, &linked, database.lsas(Section::Area(area)))
}

/// The prefixes of the networks of some areas that a router is on, in rising order, each once.
fn nets_among<A: Allocator + Copy>(
    alloc: A,
    database: &Database<A>,
    router: RouterId,
    areas: &[AreaId],
) -> Result<Vec<Prefix, A>, AllocError>
    ensures { IfOk result
        (λ nets. nets.items ≡ nets_among (lists_of database.now) router areas.now) }
{
    let mut nets = Vec::new(alloc);
    for area in areas {
        let mut more = nets_in(alloc, database, router, *area)?;
        nets.append(&mut more)?;
    }
    rising(alloc, &nets)
}

/// In place of a network that a router is not on: those that it is on.
pub(crate) fn networks_hint<A: Allocator + Copy>(
    alloc: A,
    database: &Database<A>,
    router: RouterId,
) -> Result<Vec<u8, A>, AllocError>
    ensures { IfOk result (λ text. text.items ≡ networks_hint (lists_of database.now) router) }
{
    let areas = area_ids(alloc, database)?;
    let nets = nets_among(alloc, database, router, &areas)?;
    let names = Names::new(alloc);
    let mut text = Vec::new(alloc);
    push_address(&mut text, Addr(router.0))?;
    push_joined_or(
        &mut text,
        &names,
        " is on no transit network",
        " is on ",
        ", ",
        &nets,
    )?;
    Ok(text)
}
