//! The LSAs of a type and a prefix, in order.

ghost use Rattle.std.specs.Prelude.{◌≡◌, ◌++◌, [], All, IfOk, IfSome, OnOk};
ghost use Rattle.std.specs.List.{cons_option, filter_map};
ghost use Rattle.area_graph.specs.Rising.{rising};
ghost use Rattle.lsa_codec.specs.Fields.{kind_of};
ghost use Rattle.lsdb.specs.Slots.{lists_of};
ghost use Rattle.area_candidates.specs.InOrder.{concerns, found_at, key_at, lsas_in_order, place_cmp, place_if, place_of, section_of};

use crate::found_lsa::FoundLsa;
use lsa_codec::{Addr, AreaId, Key, Lsa, NETWORK_LSA, Prefix, ROUTER_LSA, RouterId};
use lsa_names::LsaName;
use lsdb::{Database, Lsas, Section};
use std::alloc::{AllocError, Allocator};
use std::collections::BTreeSet;

/// Where an LSA stands among those of its type: network-LSAs by Link State ID and Advertising
/// Router, others by Advertising Router and Link State ID.
#[derive(Clone, Copy, Debug, PartialEq, Eq, PartialOrd, Ord)]
pub(crate) struct Place {
    first: u32,
    second: u32,
}

/// The place of an LSA, by its key.
fn place_of(key: Key) -> Place
    ensures { result ≡ place_of key }
{
    if key.kind == NETWORK_LSA {
        Place {
            first: key.id.0,
            second: key.adv.0,
        }
    } else {
        Place {
            first: key.adv.0,
            second: key.id.0,
        }
    }
}

/// The key of an LSA of a type at a place.
fn key_at(kind: u8, place: Place) -> Key
    ensures { result ≡ key_at kind place }
{
    if kind == NETWORK_LSA {
        Key {
            kind,
            id: Addr(place.first),
            adv: RouterId(place.second),
        }
    } else {
        Key {
            kind,
            id: Addr(place.second),
            adv: RouterId(place.first),
        }
    }
}

/// Whether an LSA is of a type and has a prefix; any router-LSA, whose links have prefixes.
fn concerns<A: Allocator + Copy>(lsa: &Lsa<A>, kind: u8, net: Prefix) -> bool
    ensures { result ≡ concerns kind net lsa.now }
{
    let name = LsaName::of(None, lsa);
    if name.key.kind != kind {
        return false;
    }
    match name.net {
        _ if kind == ROUTER_LSA => true,
        Some(other) => other.addr().0 == net.addr().0 && other.len() == net.len(),
        None => false,
    }
}

/// The place of an LSA, if it is of a type and has a prefix.
fn place_if<A: Allocator + Copy>(lsa: &Lsa<A>, kind: u8, net: Prefix) -> Option<Place>
    ensures { result ≡ place_if kind net lsa.now }
{
    if concerns(lsa, kind, net) {
        Some(place_of(lsa.key()))
    } else {
        None
    }
}

/// Adds the place of an LSA, if it is of a type and has a prefix.
fn push_place<A: Allocator + Copy>(
    places: &mut Vec<Place, A>,
    lsa: &Lsa<A>,
    kind: u8,
    net: Prefix,
) -> Result<(), AllocError>
    ensures { OnOk result
        (places.new.items ≡ places.old.items ++ cons_option (place_if kind net lsa.now) []) }
{
    if let Some(place) = place_if(lsa, kind, net) {
        places.push(place)?;
    }
    Ok(())
}

/// The places of the LSAs of a type with a prefix, as the LSAs stand.
fn places<A: Allocator + Copy>(
    alloc: A,
    lsas: Lsas<'_, A>,
    kind: u8,
    net: Prefix,
) -> Result<Vec<Place, A>, AllocError>
    ensures { IfOk result (λ places. places.items ≡ filter_map (place_if kind net) lsas.entry) }
{
    let mut places = Vec::new(alloc);
    for lsa in lsas {
        push_place(&mut places, lsa, kind, net)?;
    }
    Ok(places)
}

/// Places in order, each once.
fn in_order<A: Allocator + Copy>(
    alloc: A,
    places: Vec<Place, A>,
) -> Result<Vec<Place, A>, AllocError>
    ensures { IfOk result (λ sorted. sorted.items ≡ rising place_cmp places.items) }
{
    let mut places = places;
    let mut found = BTreeSet::new(alloc);
    while let Some(place) = places.pop() {
        found.insert(place)?;
    }
    found.into_iter().collect(alloc)
}

/// The section of an area, or that of AS scope.
fn section_of(area: Option<AreaId>) -> Section
    ensures { result ≡ section_of area }
{
    match area {
        Some(area) => Section::Area(area),
        None => Section::AsWide,
    }
}

/// The LSA with a key, in an area or of AS scope.
pub fn found_at<A: Allocator + Copy>(
    database: &Database<A>,
    area: Option<AreaId>,
    key: Key,
) -> Option<FoundLsa<'_, A>>
    ensures found { result ≡ found_at (lists_of database.now) area key }
    ensures kind { IfSome result (λ found. kind_of found.lsa ≡ key.kind) }
{
    let slot = database.find(section_of(area), key)?;
    let lsa = database.get(slot)?;
    Some(FoundLsa { area, lsa })
}

/// The LSAs of a type with a prefix in an area, or of AS scope, in order; all router-LSAs, where
/// that is the type.
///
/// # Errors
///
/// Memory ran out.
pub fn lsas_in_order<'a, A: Allocator + Copy>(
    alloc: A,
    database: &'a Database<A>,
    area: Option<AreaId>,
    kind: u8,
    net: Prefix,
) -> Result<Vec<FoundLsa<'a, A>, A>, AllocError>
    ensures found { IfOk result (λ found. found.items
        ≡ lsas_in_order (lists_of database.now) area kind net) }
    ensures kinds { IfOk result (λ found. All (λ f. kind_of f.lsa ≡ kind) found.items) }
{
    let lsas = database.lsas(section_of(area));
    let places = in_order(alloc, places(alloc, lsas, kind, net)?)?;
    places
        .iter()
        .filter_map(|place| found_at(database, area, key_at(kind, *place)))
        .collect(alloc)
}
