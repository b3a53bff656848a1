//! Links between two routers, each of which fails alone.

ghost use Rattle.std.specs.Prelude.{◌≡◌, IfOk};
ghost use Rattle.lsdb.specs.Slots.{lists_of};
ghost use Rattle.sweep_report.specs.Failures.{cut_of, cuts, is_lower_end, is_only, joins_same, link_failures, used_link, used_links};

use crate::within::is_within;
use edit_script::{Edit, Event};
use link_report::{LinkLine, link_lines};
use lsa_codec::{Addr, AreaId, LinkKind, RouterId};
use lsdb::Database;
use routing_table::routers;
use std::alloc::{AllocError, Allocator};

/// A point-to-point link that routers use, as the router of its lower Router ID describes it.
#[derive(Clone, Copy)]
pub(crate) struct UsedLink {
    /// The area.
    pub(crate) area: AreaId,
    /// The router.
    pub(crate) router: RouterId,
    /// The neighbor, whose Router ID is greater.
    pub(crate) neighbor: RouterId,
    /// The address of the router's interface, or its index where it is unnumbered.
    pub(crate) address: Addr,
}

/// Whether a link is one to a router with a greater Router ID that has a link back.
fn is_lower_end<A: Allocator>(line: &LinkLine<A>) -> bool
    ensures { result ≡ is_lower_end line.now }
{
    matches!(line.link.kind, LinkKind::PointToPoint)
        && line.router.0 < line.link.id.0
        && !line.back.is_empty()
}

/// The link, if it is one that routers use, at the end of the lower Router ID.
fn used_link<A: Allocator>(line: &LinkLine<A>) -> Option<UsedLink>
    ensures { result ≡ used_link line.now }
{
    if !is_lower_end(line) {
        return None;
    }
    Some(UsedLink {
        area: line.area,
        router: line.router,
        neighbor: RouterId(line.link.id.0),
        address: line.link.link_data,
    })
}

/// The point-to-point links that routers use, by router, area and number of the link.
fn used_links<A: Allocator + Copy>(
    alloc: A,
    database: &Database<A>,
) -> Result<Vec<UsedLink, A>, AllocError>
    ensures { IfOk result (λ found. found.items ≡ used_links (lists_of database.now)) }
{
    let attached = routers(alloc, database)?;
    let lines = link_lines(alloc, database, &attached)?;
    lines
        .iter()
        .filter_map(|line| used_link(line))
        .collect(alloc)
}

/// Whether two links are between the same routers.
fn joins_same(one: UsedLink, other: UsedLink) -> bool
    ensures { result ≡ joins_same one other }
{
    one.router.0 == other.router.0 && one.neighbor.0 == other.neighbor.0
}

/// Whether a link is the only one between its two routers.
fn is_only(all: &[UsedLink], one: UsedLink) -> bool
    ensures { result ≡ is_only all.now one }
{
    all.iter().filter(|other| joins_same(one, **other)).count() <= 1
}

/// The failure of a link: it is cut, by its address where there are others between its routers.
fn cut_of(all: &[UsedLink], one: UsedLink) -> Edit
    ensures { result ≡ cut_of all.now one }
{
    let address = if is_only(all, one) {
        None
    } else {
        Some(one.address)
    };
    Edit::Event(Event::Cut {
        router: one.router,
        neighbor: one.neighbor,
        address,
    })
}

/// The failures of those of the links of all areas that are within an area.
fn cuts<A: Allocator + Copy>(
    alloc: A,
    all: &[UsedLink],
    within: Option<AreaId>,
) -> Result<Vec<Edit, A>, AllocError>
    ensures { IfOk result (λ edits. edits.items ≡ cuts within all.now) }
{
    all.iter()
        .copied()
        .filter(|one| is_within(within, one.area))
        .map(|one| cut_of(all, one))
        .collect(alloc)
}

/// The failures of links.
///
/// # Errors
///
/// Memory ran out.
pub(crate) fn link_failures<A: Allocator + Copy>(
    alloc: A,
    database: &Database<A>,
    within: Option<AreaId>,
) -> Result<Vec<Edit, A>, AllocError>
    ensures { IfOk result
        (λ edits. edits.items ≡ link_failures within (lists_of database.now)) }
{
    let all = used_links(alloc, database)?;
    cuts(alloc, &all, within)
}
