//! The links of a selection, in an area and in all areas.

ghost use Rattle.std.specs.Prelude.{◌≡◌, IfOk};
ghost use Rattle.lsdb.specs.Slots.{lists_of};
ghost use Rattle.event_links.specs.declared.selection.Selection.TheVariants.{Between, OneLink, Towards};
ghost use Rattle.event_links.specs.Selections.{area_ids, of_one, chosen_in, chosen_everywhere, is_chosen, is_somewhere};

use crate::chosen::ChosenLinks;
use crate::clear_ends::ends_of;
use crate::interfaces_at::interfaces_at;
use crate::link_end::LinkEnd;
use crate::links::{links_at, links_of_interfaces, links_to, transit_links};
use crate::masks::stubs_with_mask;
use crate::selection::Selection;
use lsa_codec::{AreaId, Link, RouterId};
use lsdb::Database;
use std::alloc::{AllocError, Allocator};

/// The areas of a database.
pub(crate) fn area_ids<A: Allocator + Copy>(
    database: &Database<A>,
) -> Result<Vec<AreaId, A>, AllocError>
    ensures { IfOk result (λ v. v.items ≡ area_ids (lists_of database.now)) }
{
    let mut ids = Vec::new(database.alloc());
    for number in 0..database.area_count() {
        let (area, _is_stub) = database.area(number);
        ids.push(area)?;
    }
    Ok(ids)
}

/// Links of one router alone.
fn of_one<A: Allocator + Copy>(alloc: A, router: RouterId, own: Vec<Link, A>) -> ChosenLinks<A>
    ensures { result ≡ of_one router own.items }
{
    ChosenLinks {
        router,
        own,
        neighbor: router,
        others: Vec::new(alloc),
    }
}

/// The links between two routers.
fn between<A: Allocator + Copy>(
    database: &Database<A>,
    area: AreaId,
    router: RouterId,
    neighbor: RouterId,
) -> Result<ChosenLinks<A>, AllocError>
    ensures { IfOk result (λ chosen. chosen
        ≡ chosen_in (lists_of database.now) area (Between router neighbor)) }
{
    let own = links_to(database, area, router, neighbor)?;
    let others = links_to(database, area, neighbor, router)?;
    Ok(ChosenLinks {
        router,
        own,
        neighbor,
        others,
    })
}

/// The link of interfaces, at both ends.
fn one_link<A: Allocator + Copy>(
    database: &Database<A>,
    area: AreaId,
    end: LinkEnd,
) -> Result<ChosenLinks<A>, AllocError>
    ensures { IfOk result (λ chosen. chosen
        ≡ chosen_in (lists_of database.now) area (OneLink end)) }
{
    let owns = interfaces_at(database, area, end)?;
    let own = links_of_interfaces(database, area, end.router, &owns)?;
    let ends = ends_of(database, area, end.router, &owns)?;
    let others = links_of_interfaces(database, area, end.neighbor, &ends)?;
    Ok(ChosenLinks {
        router: end.router,
        own,
        neighbor: end.neighbor,
        others,
    })
}

/// The links of a selection in an area.
///
/// # Errors
///
/// Want of memory.
pub fn chosen_in<A: Allocator + Copy>(
    database: &Database<A>,
    area: AreaId,
    selection: Selection,
) -> Result<ChosenLinks<A>, AllocError>
    ensures { IfOk result (λ chosen. chosen
        ≡ chosen_in (lists_of database.now) area selection) }
{
    match selection {
        Selection::Between(router, neighbor) => between(database, area, router, neighbor),
        Selection::OneLink(end) => one_link(database, area, end),
        Selection::Towards(router, neighbor) => {
            let own = links_to(database, area, router, neighbor)?;
            Ok(of_one(database.alloc(), router, own))
        }
        Selection::AtAddress(router, address) => {
            let own = links_at(database, area, router, address)?;
            Ok(of_one(database.alloc(), router, own))
        }
        Selection::StubsAt(router, address, mask) => {
            let own = stubs_with_mask(database, area, router, address, mask)?;
            Ok(of_one(database.alloc(), router, own))
        }
        Selection::ToOthers(router) => {
            let own = transit_links(database, area, router)?;
            Ok(of_one(database.alloc(), router, own))
        }
    }
}

/// The links of a selection in each area.
fn chosen_everywhere<A: Allocator + Copy>(
    database: &Database<A>,
    areas: &[AreaId],
    selection: Selection,
) -> Result<Vec<ChosenLinks<A>, A>, AllocError>
    requires { areas.now ≡ area_ids (lists_of database.now) }
    ensures { IfOk result (λ v. v.items ≡ chosen_everywhere (lists_of database.now) selection) }
{
    let mut found = Vec::new(database.alloc());
    for area in areas {
        let chosen = chosen_in(database, *area, selection)?;
        found.push(chosen)?;
    }
    Ok(found)
}

/// Whether links are chosen in an area.
fn is_chosen<A: Allocator + Copy>(chosen: &ChosenLinks<A>) -> bool
    ensures { result ≡ is_chosen chosen.now }
{
    !chosen.own.is_empty() || !chosen.others.is_empty()
}

/// Whether a selection has links in some area.
pub(crate) fn is_somewhere<A: Allocator + Copy>(
    database: &Database<A>,
    areas: &[AreaId],
    selection: Selection,
) -> Result<bool, AllocError>
    requires { areas.now ≡ area_ids (lists_of database.now) }
    ensures { IfOk result (λ somewhere. somewhere
        ≡ is_somewhere (lists_of database.now) selection) }
{
    let found = chosen_everywhere(database, areas, selection)?;
    Ok(found.iter().any(|chosen| is_chosen(chosen)))
}

/// Whether a router has point-to-point links to a neighbor in some area.
///
/// # Errors
///
/// Want of memory.
pub fn has_links_to<A: Allocator + Copy>(
    database: &Database<A>,
    router: RouterId,
    neighbor: RouterId,
) -> Result<bool, AllocError>
    ensures { IfOk result (λ has. has
        ≡ is_somewhere (lists_of database.now) (Towards router neighbor)) }
{
    let areas = area_ids(database)?;
    is_somewhere(database, &areas, Selection::Towards(router, neighbor))
}
