//! The places of `duplicate-address`.

ghost use Rattle.std.specs.Prelude.{◌≡◌, ◌++◌, IfOk, OnOk, map};
ghost use Rattle.std.specs.List.{flat_map};
ghost use Rattle.lsdb.specs.Slots.{lists_of};
ghost use Rattle.audit_places.specs.Places.{shared_address};
ghost use Rattle.audit_links.specs.Addresses.{address_over, addresses, addresses_in, addresses_of, addresses_over, duplicate_address_places, is_addressed};

use crate::links::links_in;
use crate::neighbors::AtAddress;
use audit_areas::{AuditedArea, audited_areas, several};
use audit_places::{Form, Place};
use link_report::rising;
use lsa_codec::{Addr, Link, RouterId};
use lsdb::Database;
use std::alloc::{AllocError, Allocator};

/// The least address of an interface, 1.0.0.0: lesser numbers are the indices of unnumbered
/// interfaces (RFC 2328, A.4.2).
const LEAST_ADDRESS: u32 = 0x0100_0000;

/// Whether the Link Data of a link is the address of an interface.
fn is_addressed(link: Link) -> bool
    ensures { result ≡ is_addressed link }
{
    link.kind.has_cost() && link.link_data.0 >= LEAST_ADDRESS
}

/// The Link Data of a link of a router.
fn address_over(router: RouterId, link: Link) -> AtAddress
    ensures { result ≡ address_over router link }
{
    (link.link_data, router)
}

/// The addresses of a router among the Link Data of its links.
fn addresses_over<A: Allocator + Copy>(
    alloc: A,
    router: RouterId,
    links: &[Link],
) -> Result<Vec<AtAddress, A>, AllocError>
    ensures { IfOk result (λ found. found.items ≡ addresses_over router links.now) }
{
    links
        .iter()
        .copied()
        .filter(|link| is_addressed(*link))
        .map(|link| address_over(router, link))
        .collect(alloc)
}

/// The addresses of a router in an area, in the order of its links.
fn addresses_of<A: Allocator + Copy>(
    alloc: A,
    area: &AuditedArea<'_, A>,
    router: RouterId,
) -> Result<Vec<AtAddress, A>, AllocError>
    ensures { IfOk result (λ found. found.items ≡ addresses_of area.now router) }
{
    let links = links_in(alloc, area, router)?;
    addresses_over(alloc, router, &links)
}

/// Adds the addresses of the routers of an area.
fn push_addresses<A: Allocator + Copy>(
    found: &mut Vec<AtAddress, A>,
    alloc: A,
    area: &AuditedArea<'_, A>,
) -> Result<(), AllocError>
    ensures { OnOk result (found.new.items ≡ found.old.items ++ addresses_in area.now) }
{
    for router in area.routers() {
        let mut more = addresses_of(alloc, area, *router)?;
        found.append(&mut more)?;
    }
    Ok(())
}

/// The addresses of the routers of all areas.
fn addresses_in<A: Allocator + Copy>(
    alloc: A,
    areas: &[AuditedArea<'_, A>],
) -> Result<Vec<AtAddress, A>, AllocError>
    ensures { IfOk result (λ found. found.items ≡ flat_map addresses_in areas.now) }
{
    let mut found = Vec::new(alloc);
    for area in areas {
        push_addresses(&mut found, alloc, area)?;
    }
    Ok(found)
}

/// The addresses of the routers of all areas, by address and router, each once.
fn addresses<A: Allocator + Copy>(
    alloc: A,
    database: &Database<A>,
) -> Result<Vec<AtAddress, A>, AllocError>
    ensures { IfOk result (λ found. found.items ≡ addresses (lists_of database.now)) }
{
    let areas = audited_areas(alloc, database)?;
    let found = addresses_in(alloc, &areas)?;
    rising(alloc, &found)
}

/// The places of `duplicate-address`: the addresses, from 1.0.0.0 on, of links of types 1 and 2
/// that several routers have, in rising order (RFC 2328, A.4.2).
///
/// # Errors
///
/// Memory ran out.
pub fn duplicate_address_places<A: Allocator + Copy>(
    alloc: A,
    database: &Database<A>,
) -> Result<Vec<Place<A>, A>, AllocError>
    ensures { IfOk result
        (λ places. places.items ≡ duplicate_address_places (lists_of database.now)) }
{
    let sorted = addresses(alloc, database)?;
    places_of_addresses(alloc, several(alloc, &sorted)?)
}

/// The place of an address that several routers have.
fn place_of_address<A: Allocator>(group: (Addr, Vec<RouterId, A>)) -> Place<A>
    ensures { result ≡ shared_address group.0 group.1.items }
{
    Place::of(Form::SharedAddress {
        address: group.0,
        routers: group.1,
    })
}

/// The places of addresses that several routers have.
fn places_of_addresses<A: Allocator + Copy>(
    alloc: A,
    groups: Vec<(Addr, Vec<RouterId, A>), A>,
) -> Result<Vec<Place<A>, A>, AllocError>
    ensures { IfOk result (λ places. places.items
        ≡ map (λ g. shared_address g.0 g.1.items) groups.items) }
{
    groups
        .into_iter()
        .map(|group| place_of_address(group))
        .collect(alloc)
}
