//! The places of `several-networks`.

ghost use Rattle.std.specs.Prelude.{◌≡◌, ◌++◌, IfOk, OnOk, map};
ghost use Rattle.std.specs.List.{filter_map, flat_map};
ghost use Rattle.lsdb.specs.Slots.{lists_of};
ghost use Rattle.audit_places.specs.Places.{several_networks};
ghost use Rattle.audit_topology.specs.Networks.{network_if_in_use, network_in_use, networks, networks_in, several_networks_places};

use crate::in_use::is_in_use;
use area_graph::{Vertex, VertexLsa};
use audit_areas::{AuditedArea, audited_areas, push_some, several};
use audit_places::{Form, Place};
use link_report::rising;
use lsa_codec::{Addr, AreaId, Lsa, Prefix};
use lsdb::Database;
use std::alloc::{AllocError, Allocator};

/// A prefix, an area, and the Link State ID of a network with the prefix there.
type OfPrefix = (Prefix, (AreaId, Addr));

/// The places of `several-networks`: the prefixes of several transit networks in use, in rising
/// order, each with the Link State IDs of these by area (RFC 2328, 12.4.2 and 16.1).
///
/// # Errors
///
/// Memory ran out.
pub fn several_networks_places<A: Allocator + Copy>(
    alloc: A,
    database: &Database<A>,
) -> Result<Vec<Place<A>, A>, AllocError>
    ensures { IfOk result
        (λ places. places.items ≡ several_networks_places (lists_of database.now)) }
{
    let areas = audited_areas(alloc, database)?;
    let found = networks(alloc, &areas)?;
    let groups = several(alloc, &found)?;
    places_of_prefixes(alloc, &groups)
}

/// A network of an area with the prefix and the Link State ID of its LSA, if it is in use.
fn network_if_in_use<A: Allocator + Copy>(
    alloc: A,
    areas: &[AuditedArea<'_, A>],
    area: &AuditedArea<'_, A>,
    prefix: Prefix,
    address: Addr,
) -> Result<Option<OfPrefix>, AllocError>
    ensures { IfOk result
        (λ found. found ≡ network_if_in_use areas.now area.now prefix address) }
{
    if !is_in_use(alloc, areas, area, Vertex::Network(address))? {
        return Ok(None);
    }
    Ok(Some((prefix, (area.area(), address))))
}

/// The network of an LSA of an area, if it is a network-LSA and the network is in use.
fn network_in_use<A: Allocator + Copy>(
    alloc: A,
    areas: &[AuditedArea<'_, A>],
    area: &AuditedArea<'_, A>,
    lsa: &Lsa<A>,
) -> Result<Option<OfPrefix>, AllocError>
    ensures { IfOk result (λ found. found ≡ network_in_use areas.now area.now lsa.now) }
{
    match lsa.network() {
        Some(network) => network_if_in_use(alloc, areas, area, network.net(), lsa.key().id),
        None => Ok(None),
    }
}

/// The networks of those LSAs of an area that are network-LSAs of networks in use.
fn networks_of<A: Allocator + Copy>(
    alloc: A,
    areas: &[AuditedArea<'_, A>],
    area: &AuditedArea<'_, A>,
    lsas: &[VertexLsa<'_, A>],
) -> Result<Vec<OfPrefix, A>, AllocError>
    ensures { IfOk result (λ found. found.items
        ≡ filter_map (network_in_use areas.now area.now) lsas.now) }
{
    let mut found = Vec::new(alloc);
    for vertex in lsas {
        push_some(
            &mut found,
            network_in_use(alloc, areas, area, vertex.lsa())?,
        )?;
    }
    Ok(found)
}

/// The networks in use of an area.
fn networks_in<A: Allocator + Copy>(
    alloc: A,
    areas: &[AuditedArea<'_, A>],
    area: &AuditedArea<'_, A>,
) -> Result<Vec<OfPrefix, A>, AllocError>
    ensures { IfOk result (λ found. found.items ≡ networks_in areas.now area.now) }
{
    let lsas = area.used(alloc)?;
    networks_of(alloc, areas, area, &lsas)
}

/// The networks in use of all areas, in the order of areas and LSAs.
fn networks_in_all<A: Allocator + Copy>(
    alloc: A,
    areas: &[AuditedArea<'_, A>],
) -> Result<Vec<OfPrefix, A>, AllocError>
    ensures { IfOk result (λ found. found.items ≡ flat_map (networks_in areas.now) areas.now) }
{
    let mut found = Vec::new(alloc);
    for area in areas {
        let mut more = networks_in(alloc, areas, area)?;
        found.append(&mut more)?;
    }
    Ok(found)
}

/// The networks in use of all areas, by prefix, area and Link State ID.
fn networks<A: Allocator + Copy>(
    alloc: A,
    areas: &[AuditedArea<'_, A>],
) -> Result<Vec<OfPrefix, A>, AllocError>
    ensures { IfOk result (λ found. found.items ≡ networks areas.now) }
{
    let found = networks_in_all(alloc, areas)?;
    rising(alloc, &found)
}

/// The Link State IDs of networks.
fn addresses_of<A: Allocator + Copy>(
    alloc: A,
    networks: &[(AreaId, Addr)],
) -> Result<Vec<Addr, A>, AllocError>
    ensures { IfOk result (λ addresses. addresses.items ≡ map (λ n. n.1) networks.now) }
{
    networks.iter().map(|network| network.1).collect(alloc)
}

/// The place of a prefix and its networks.
fn place_of_prefix<A: Allocator + Copy>(
    alloc: A,
    prefix: Prefix,
    networks: &[(AreaId, Addr)],
) -> Result<Place<A>, AllocError>
    ensures { IfOk result (λ place. place
        ≡ several_networks prefix (map (λ n. n.1) networks.now)) }
{
    let addresses = addresses_of(alloc, networks)?;
    Ok(Place::of(Form::Networks { prefix, addresses }))
}

/// The places of prefixes and their networks.
fn places_of_prefixes<A: Allocator + Copy>(
    alloc: A,
    groups: &[(Prefix, Vec<(AreaId, Addr), A>)],
) -> Result<Vec<Place<A>, A>, AllocError>
    ensures { IfOk result (λ places. places.items
        ≡ map (λ g. several_networks g.0 (map (λ n. n.1) g.1.items)) groups.now) }
{
    let mut places = Vec::new(alloc);
    for group in groups {
        places.push(place_of_prefix(alloc, group.0, &group.1)?)?;
    }
    Ok(places)
}
