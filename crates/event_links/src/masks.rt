//! Links to stub networks by their masks, which are the longer the smaller the network.

ghost use Rattle.std.specs.Prelude.{◌≡◌, IfOk};
ghost use Rattle.std.specs.List.{find};
ghost use Rattle.lsdb.specs.Slots.{lists_of};
ghost use Rattle.event_links.specs.Interfaces.{stubs_at};
ghost use Rattle.event_links.specs.Selections.{area_ids, with_mask, stubs_everywhere, is_longest, longest_mask};

use crate::links::stubs_at;
use lsa_codec::{Addr, AreaId, Link, RouterId};
use lsdb::Database;
use std::alloc::{AllocError, Allocator};

/// Those of some links that have a mask.
fn with_mask<A: Allocator + Copy>(
    alloc: A,
    links: &[Link],
    mask: u32,
) -> Result<Vec<Link, A>, AllocError>
    ensures { IfOk result (λ v. v.items ≡ with_mask mask links.now) }
{
    links
        .iter()
        .copied()
        .filter(|link| link.link_data.0 == mask)
        .collect(alloc)
}

/// The links to stub networks of a router that have an address and a mask.
pub(crate) fn stubs_with_mask<A: Allocator + Copy>(
    database: &Database<A>,
    area: AreaId,
    router: RouterId,
    address: Addr,
    mask: u32,
) -> Result<Vec<Link, A>, AllocError>
    ensures { IfOk result (λ v. v.items
        ≡ with_mask mask (stubs_at (lists_of database.now) area router address)) }
{
    let stubs = stubs_at(database, area, router, address)?;
    with_mask(database.alloc(), &stubs, mask)
}

/// The links to stub networks of a router that have an address, in all areas.
fn stubs_everywhere<A: Allocator + Copy>(
    database: &Database<A>,
    areas: &[AreaId],
    router: RouterId,
    address: Addr,
) -> Result<Vec<Link, A>, AllocError>
    requires { areas.now ≡ area_ids (lists_of database.now) }
    ensures { IfOk result (λ v. v.items
        ≡ stubs_everywhere (lists_of database.now) router address) }
{
    let mut found = Vec::new(database.alloc());
    for area in areas {
        let stubs = stubs_at(database, *area, router, address)?;
        found.extend_from_slice(&stubs)?;
    }
    Ok(found)
}

/// Whether no link has a longer mask than this one.
fn is_longest(links: &[Link], link: Link) -> bool
    ensures { result ≡ is_longest links.now link }
{
    links
        .iter()
        .all(|other| other.link_data.0 <= link.link_data.0)
}

/// The first stub link whose mask is as long as any.
fn longest(links: &[Link]) -> Option<Link>
    ensures { result ≡ find (is_longest links.now) links.now }
{
    links.iter().copied().find(|link| is_longest(links, *link))
}

/// The longest mask of some stub links.
fn longest_mask(links: &[Link]) -> Option<u32>
    ensures { result ≡ longest_mask links.now }
{
    match longest(links) {
        Some(link) => Some(link.link_data.0),
        None => None,
    }
}

/// The longest mask of the links to stub networks of a router that have an address, in all areas.
pub(crate) fn longest_mask_at<A: Allocator + Copy>(
    database: &Database<A>,
    areas: &[AreaId],
    router: RouterId,
    address: Addr,
) -> Result<Option<u32>, AllocError>
    requires { areas.now ≡ area_ids (lists_of database.now) }
    ensures { IfOk result (λ mask. mask
        ≡ longest_mask (stubs_everywhere (lists_of database.now) router address)) }
{
    let stubs = stubs_everywhere(database, areas, router, address)?;
    Ok(longest_mask(&stubs))
}
