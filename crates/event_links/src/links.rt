//! The links of the interfaces of a router in an area.

ghost use Rattle.std.specs.Prelude.{◌≡◌, ◌++◌, IfOk, OnOk, filter, option_to_list};
ghost use Rattle.lsa_codec.specs.Links.{has_cost};
ghost use Rattle.lsdb.specs.Slots.{lists_of};
ghost use Rattle.interfaces.specs.FarEnds.{stub_between};
ghost use Rattle.interfaces.specs.Interfaces.{has_addr};
ghost use Rattle.event_links.specs.Interfaces.{links_of_interface, links_of_interfaces, links_to, links_at, links_to_others, is_among, is_stub_at, stubs_at, transit_links};

use crate::interfaces_at::{interfaces_to, with_own_addr};
use interfaces::{Interface, far_ends_in, interfaces_in, stub_between};
use lsa_codec::{Addr, AreaId, Link, RouterId};
use lsdb::Database;
use std::alloc::{AllocError, Allocator};

/// Adds the stub link of an interface with these far ends, where it has the address of one of them
/// or of the interface.
fn add_stub_of<A: Allocator + Copy>(
    stubs: &mut Vec<Link, A>,
    own: Interface,
    ends: &[Interface],
) -> Result<(), AllocError>
    ensures { OnOk result
        (stubs.new.items ≡ stubs.old.items ++ option_to_list (stub_between own ends.now)) }
{
    if let Some(stub) = stub_between(own, ends) {
        stubs.push(stub)?;
    }
    Ok(())
}

/// Adds the links of an interface that has these far ends: its own, and the stub link of its
/// network, where that has the address of the interface or of a far end.
fn add_links_of<A: Allocator + Copy>(
    links: &mut Vec<Link, A>,
    own: Interface,
    ends: &[Interface],
) -> Result<(), AllocError>
    ensures { OnOk result
        (links.new.items ≡ links.old.items ++ links_of_interface ends.now own) }
{
    links.push(own.link)?;
    add_stub_of(links, own, ends)?;
    Ok(())
}

/// The links of some interfaces of a router in an area: of each its own link, and the stub link of
/// its network.
pub(crate) fn links_of_interfaces<A: Allocator + Copy>(
    database: &Database<A>,
    area: AreaId,
    router: RouterId,
    chosen: &[Interface],
) -> Result<Vec<Link, A>, AllocError>
    ensures { IfOk result (λ v. v.items
        ≡ links_of_interfaces (lists_of database.now) area router chosen.now) }
{
    let mut links = Vec::new(database.alloc());
    for own in chosen {
        let ends = far_ends_in(database.alloc(), database, area, router, *own)?;
        add_links_of(&mut links, *own, &ends)?;
    }
    Ok(links)
}

/// The links of all interfaces of a router to a neighbor.
pub(crate) fn links_to<A: Allocator + Copy>(
    database: &Database<A>,
    area: AreaId,
    router: RouterId,
    neighbor: RouterId,
) -> Result<Vec<Link, A>, AllocError>
    ensures { IfOk result (λ v. v.items ≡ links_to (lists_of database.now) area router neighbor) }
{
    let owns = interfaces_to(database, area, router, neighbor)?;
    links_of_interfaces(database, area, router, &owns)
}

/// The links of the interfaces of a router with an address, to a router or to a transit network.
pub(crate) fn links_at<A: Allocator + Copy>(
    database: &Database<A>,
    area: AreaId,
    router: RouterId,
    address: Addr,
) -> Result<Vec<Link, A>, AllocError>
    ensures { IfOk result (λ v. v.items ≡ links_at (lists_of database.now) area router address) }
{
    let all = interfaces_in(database.alloc(), database, area, router)?;
    let owns = with_own_addr(database.alloc(), &all, address)?;
    links_of_interfaces(database, area, router, &owns)
}

/// Those of some interfaces that lead to routers and transit networks.
fn to_others<A: Allocator + Copy>(
    alloc: A,
    owns: &[Interface],
) -> Result<Vec<Interface, A>, AllocError>
    ensures { IfOk result (λ v. v.items ≡ filter (λ own. has_cost own.link.kind) owns.now) }
{
    owns.iter()
        .copied()
        .filter(|own| own.link.kind.has_cost())
        .collect(alloc)
}

/// Whether a link is among others of its LSA, by where it begins.
pub fn is_among(links: &[Link], link: Link) -> bool
    ensures { result ≡ is_among links.now link }
{
    links.iter().any(|other| other.offset == link.offset)
}

/// Whether the network of a stub link has an address.
fn has_addr(stub: Link, address: Addr) -> bool
    ensures { result ≡ has_addr stub address }
{
    let mask = stub.link_data.0;
    stub.kind.is_stub() && address.0 & mask == stub.id.0 & mask
}

/// Whether a link leads to a stub network that has an address, and is not one of `paired`.
fn is_stub_at(paired: &[Link], address: Addr, link: Link) -> bool
    ensures { result ≡ is_stub_at paired.now address link }
{
    has_addr(link, address) && !is_among(paired, link)
}

/// The links to stub networks of a router that have an address, but for those of point-to-point
/// interfaces.
pub(crate) fn stubs_at<A: Allocator + Copy>(
    database: &Database<A>,
    area: AreaId,
    router: RouterId,
    address: Addr,
) -> Result<Vec<Link, A>, AllocError>
    ensures { IfOk result (λ v. v.items ≡ stubs_at (lists_of database.now) area router address) }
{
    let alloc = database.alloc();
    let owns = interfaces_in(alloc, database, area, router)?;
    let others = to_others(alloc, &owns)?;
    let paired = links_of_interfaces(database, area, router, &others)?;
    owns.iter()
        .map(|own| own.link)
        .filter(|link| is_stub_at(&paired, address, *link))
        .collect(alloc)
}

/// The links of a router to routers and transit networks.
pub(crate) fn transit_links<A: Allocator + Copy>(
    database: &Database<A>,
    area: AreaId,
    router: RouterId,
) -> Result<Vec<Link, A>, AllocError>
    ensures { IfOk result (λ v. v.items ≡ transit_links (lists_of database.now) area router) }
{
    let owns = interfaces_in(database.alloc(), database, area, router)?;
    owns.iter()
        .map(|own| own.link)
        .filter(|link| link.kind.has_cost())
        .collect(database.alloc())
}
