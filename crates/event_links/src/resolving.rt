//! The links of each event, and how they change; or why an event is refused.

ghost use Rattle.std.specs.Prelude.{◌≡◌, Ok};
ghost use Rattle.lsdb.specs.Slots.{lists_of};
ghost use Rattle.event_links.specs.Selections.{area_ids};
ghost use Rattle.event_links.specs.Events.{towards, set_cost, set_stub_cost, set_cost_at, drained, fault_of, edit_of, resolved, Answers};

use crate::cuts::{cut_link, cut_links};
use crate::event::LinkEvent;
use crate::fault::EventFault;
use crate::masks::longest_mask_at;
use crate::routers::{fault_of_one, fault_of_two};
use crate::selecting::{area_ids, is_somewhere};
use crate::selection::{LinkEdit, Selection};
use lsa_codec::{Addr, AreaId, RouterId};
use lsa_remaking::LinkChange;
use lsdb::Database;
use std::alloc::Allocator;

/// MaxLinkMetric (RFC 6987, 2).
const MAX_LINK_METRIC: u16 = 0xffff;

/// The links of a router to a neighbor, and with `both` those of the neighbor too.
fn towards(router: RouterId, neighbor: RouterId, both: bool) -> Selection
    ensures { result ≡ towards router neighbor both }
{
    if both {
        Selection::Between(router, neighbor)
    } else {
        Selection::Towards(router, neighbor)
    }
}

/// What the links of a router to a neighbor change to where they get a cost.
fn set_cost<A: Allocator + Copy>(
    database: &Database<A>,
    areas: &[AreaId],
    router: RouterId,
    neighbor: RouterId,
    metric: u16,
    both: bool,
) -> Result<LinkEdit, EventFault>
    requires { areas.now ≡ area_ids (lists_of database.now) }
    ensures { Answers result (set_cost (lists_of database.now) router neighbor metric both) }
{
    let own = Selection::Towards(router, neighbor);
    if !is_somewhere(database, areas, own)? {
        return Err(EventFault::NotNeighbors(router, neighbor));
    }
    if metric == 0 {
        return Err(EventFault::ZeroCost);
    }
    Ok(LinkEdit {
        selection: towards(router, neighbor, both),
        change: LinkChange::Costs(metric),
    })
}

/// What the links to the smallest stub network change to where they get a cost.
fn set_stub_cost(
    router: RouterId,
    address: Addr,
    metric: u16,
    mask: Option<u32>,
) -> Result<LinkEdit, EventFault>
    ensures { result ≡ set_stub_cost router address metric mask }
{
    match mask {
        Some(mask) => Ok(LinkEdit {
            selection: Selection::StubsAt(router, address, mask),
            change: LinkChange::Costs(metric),
        }),
        None => Err(EventFault::NoInterface(router, address)),
    }
}

/// What the links of a router's interface with an address change to where it gets a cost.
fn set_cost_at<A: Allocator + Copy>(
    database: &Database<A>,
    areas: &[AreaId],
    router: RouterId,
    address: Addr,
    metric: u16,
) -> Result<LinkEdit, EventFault>
    requires { areas.now ≡ area_ids (lists_of database.now) }
    ensures { Answers result (set_cost_at (lists_of database.now) router address metric) }
{
    let selection = Selection::AtAddress(router, address);
    let has_link = is_somewhere(database, areas, selection)?;
    if !has_link {
        let mask = longest_mask_at(database, areas, router, address)?;
        return set_stub_cost(router, address, metric, mask);
    }
    if metric == 0 {
        return Err(EventFault::ZeroCost);
    }
    Ok(LinkEdit {
        selection,
        change: LinkChange::Costs(metric),
    })
}

/// What the links of a router to others change to where it is drained.
fn drained(router: RouterId) -> LinkEdit
    ensures { result ≡ drained router }
{
    LinkEdit {
        selection: Selection::ToOthers(router),
        change: LinkChange::Costs(MAX_LINK_METRIC),
    }
}

/// The refusal of an event whose routers are not there.
fn fault_of<A: Allocator + Copy>(
    database: &Database<A>,
    areas: &[AreaId],
    event: LinkEvent,
) -> Option<EventFault>
    requires { areas.now ≡ area_ids (lists_of database.now) }
    ensures { result ≡ fault_of (lists_of database.now) event }
{
    match event {
        LinkEvent::CutLinks { router, neighbor }
        | LinkEvent::SetCost {
            router,
            neighbor,
            ..
        } => { fault_of_two(database, areas, router, neighbor) }
        LinkEvent::CutLink(end) => fault_of_two(database, areas, end.router, end.neighbor),
        LinkEvent::SetCostAt { router, .. } | LinkEvent::Drain { router } => {
            fault_of_one(database, areas, router)
        }
    }
}

/// The links of an event whose routers are there, and how they change; or the first refusal.
fn edit_of<A: Allocator + Copy>(
    database: &Database<A>,
    areas: &[AreaId],
    event: LinkEvent,
) -> Result<LinkEdit, EventFault>
    requires { areas.now ≡ area_ids (lists_of database.now) }
    ensures { Answers result (edit_of (lists_of database.now) event) }
{
    match event {
        LinkEvent::CutLinks { router, neighbor } => cut_links(database, areas, router, neighbor),
        LinkEvent::CutLink(end) => cut_link(database, areas, end),
        LinkEvent::SetCost {
            router,
            neighbor,
            metric,
            both,
        } => set_cost(database, areas, router, neighbor, metric, both),
        LinkEvent::SetCostAt {
            router,
            address,
            metric,
        } => set_cost_at(database, areas, router, address, metric),
        LinkEvent::Drain { router } => Ok(drained(router)),
    }
}

/// The links that an event changes, and how.
///
/// # Errors
///
/// The first refusal. These are tested, in this order:
///
/// - all links between two routers that are cut: `SameRouter`, `NoRouter` for either,
///   `NotNeighbors`; one of them: `SameRouter`, `NoRouter` for either, `NoInterface`, `UnclearEnd`;
/// - the cost of the interfaces to a neighbor: `SameRouter`, `NoRouter` for either,
///   `NotNeighbors`, `ZeroCost`; of the interface with an address: `NoRouter`, `NoInterface`,
///   `ZeroCost`; a router that is drained: `NoRouter`.
///
/// `OutOfMemory` before or after.
pub fn resolve<A: Allocator + Copy>(
    database: &Database<A>,
    event: LinkEvent,
) -> Result<LinkEdit, EventFault>
    ensures { Answers result (resolved (lists_of database.now) event) }
{
    let areas = area_ids(database)?;
    if let Some(fault) = fault_of(database, &areas, event) {
        return Err(fault);
    }
    edit_of(database, &areas, event)
}
