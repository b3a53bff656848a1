//! Whether the routers of an event are there.

ghost use Rattle.std.specs.Prelude.{◌≡◌};
ghost use Rattle.lsdb.specs.Slots.{lists_of};
ghost use Rattle.event_links.specs.Selections.{area_ids};
ghost use Rattle.event_links.specs.Events.{has_router, fault_of_one, fault_of_two};

use crate::fault::EventFault;
use interfaces::router_lsa_of;
use lsa_codec::{AreaId, RouterId};
use lsdb::Database;
use std::alloc::Allocator;

/// Whether a router has a router-LSA below MaxAge in some area.
fn has_router<A: Allocator + Copy>(
    database: &Database<A>,
    areas: &[AreaId],
    router: RouterId,
) -> bool
    requires { areas.now ≡ area_ids (lists_of database.now) }
    ensures { result ≡ has_router (lists_of database.now) router }
{
    areas
        .iter()
        .any(|area| router_lsa_of(database, *area, router).is_some())
}

/// The refusal of a router that is not there.
pub(crate) fn fault_of_one<A: Allocator + Copy>(
    database: &Database<A>,
    areas: &[AreaId],
    router: RouterId,
) -> Option<EventFault>
    requires { areas.now ≡ area_ids (lists_of database.now) }
    ensures { result ≡ fault_of_one (lists_of database.now) router }
{
    if has_router(database, areas, router) {
        None
    } else {
        Some(EventFault::NoRouter(router))
    }
}

/// The first refusal of two routers, which are to differ and to be there.
pub(crate) fn fault_of_two<A: Allocator + Copy>(
    database: &Database<A>,
    areas: &[AreaId],
    router: RouterId,
    neighbor: RouterId,
) -> Option<EventFault>
    requires { areas.now ≡ area_ids (lists_of database.now) }
    ensures { result ≡ fault_of_two (lists_of database.now) router neighbor }
{
    if router.0 == neighbor.0 {
        return Some(EventFault::SameRouter);
    }
    if !has_router(database, areas, router) {
        return Some(EventFault::NoRouter(router));
    }
    fault_of_one(database, areas, neighbor)
}
