//! Links that are cut.

ghost use Rattle.std.specs.Prelude.{◌≡◌};
ghost use Rattle.lsdb.specs.Slots.{lists_of};
ghost use Rattle.event_links.specs.Selections.{area_ids};
ghost use Rattle.event_links.specs.Events.{cut_links, cut_at, cut_link, Answers};

use crate::clear_ends::are_clear;
use crate::fault::EventFault;
use crate::link_end::{LinkEnd, other_way};
use crate::selecting::is_somewhere;
use crate::selection::{LinkEdit, Selection};
use lsa_codec::{AreaId, RouterId};
use lsa_remaking::LinkChange;
use lsdb::Database;
use std::alloc::Allocator;

/// What the links between two routers change to where they are cut.
pub(crate) fn cut_links<A: Allocator + Copy>(
    database: &Database<A>,
    areas: &[AreaId],
    router: RouterId,
    neighbor: RouterId,
) -> Result<LinkEdit, EventFault>
    requires { areas.now ≡ area_ids (lists_of database.now) }
    ensures { Answers result (cut_links (lists_of database.now) router neighbor) }
{
    let selection = Selection::Between(router, neighbor);
    if !is_somewhere(database, areas, selection)? {
        return Err(EventFault::NotNeighbors(router, neighbor));
    }
    Ok(LinkEdit {
        selection,
        change: LinkChange::Removed,
    })
}

/// What the link of interfaces changes to where it is cut.
fn cut_at<A: Allocator + Copy>(
    database: &Database<A>,
    areas: &[AreaId],
    end: LinkEnd,
) -> Result<LinkEdit, EventFault>
    requires { areas.now ≡ area_ids (lists_of database.now) }
    ensures { Answers result (cut_at (lists_of database.now) end) }
{
    if !are_clear(database, areas, end)? {
        return Err(EventFault::UnclearEnd(end.router, end.address));
    }
    Ok(LinkEdit {
        selection: Selection::OneLink(end),
        change: LinkChange::Removed,
    })
}

/// What the link between two routers of which one has an address changes to where it is cut.
pub(crate) fn cut_link<A: Allocator + Copy>(
    database: &Database<A>,
    areas: &[AreaId],
    end: LinkEnd,
) -> Result<LinkEdit, EventFault>
    requires { areas.now ≡ area_ids (lists_of database.now) }
    ensures { Answers result (cut_link (lists_of database.now) end) }
{
    let is_own = is_somewhere(database, areas, Selection::OneLink(end))?;
    if is_own {
        return cut_at(database, areas, end);
    }
    let other = other_way(end);
    let is_other = is_somewhere(database, areas, Selection::OneLink(other))?;
    if is_other {
        return cut_at(database, areas, other);
    }
    Err(EventFault::NoInterface(end.router, end.address))
}
