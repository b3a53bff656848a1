//! What events are: links change, or a router goes.

ghost use Rattle.std.specs.Prelude.{◌≡◌, IfOk};
ghost use Rattle.lsdb.specs.Slots.{lists_of};
ghost use Rattle.network_departures.specs.declared.departure.Departure.TheVariants.{LeavesNetwork};
ghost use Rattle.edit_history.specs.declared.happening.Happening.TheVariants.{Departs};
ghost use Rattle.edit_history.specs.Events.{cost_event, happening_of, is_neighbor};

use edit_script::Event;
use event_links::{LinkEnd, LinkEvent, has_links_to};
use lsa_codec::{Addr, Prefix, RouterId};
use lsdb::Database;
use network_departures::Departure;
use std::alloc::{AllocError, Allocator};

/// What an event is.
#[derive(Clone, Copy)]
pub(crate) enum Happening {
    /// Links go, or get another cost.
    OfLinks(LinkEvent),
    /// A router fails, or leaves a transit network.
    Departs(Departure),
}

/// Whether the far end of a router's interfaces is a neighbor, and not an address of the router.
fn is_neighbor<A: Allocator + Copy>(
    database: &Database<A>,
    router: RouterId,
    far: Addr,
    both: bool,
) -> Result<bool, AllocError>
    ensures { IfOk result (λ is. is ≡ is_neighbor (lists_of database.now) router far both) }
{
    if both {
        return Ok(true);
    }
    has_links_to(database, router, RouterId(far.0))
}

/// The event of links where interfaces of a router get a cost.
fn cost_event<A: Allocator + Copy>(
    database: &Database<A>,
    router: RouterId,
    far: Addr,
    metric: u16,
    both: bool,
) -> Result<LinkEvent, AllocError>
    ensures { IfOk result
        (λ event. event ≡ cost_event (lists_of database.now) router far metric both) }
{
    let leads = is_neighbor(database, router, far, both)?;
    if !leads {
        return Ok(LinkEvent::SetCostAt {
            router,
            address: far,
            metric,
        });
    }
    Ok(LinkEvent::SetCost {
        router,
        neighbor: RouterId(far.0),
        metric,
        both,
    })
}

/// A router leaves the transit networks with a prefix.
fn leaving(router: RouterId, net: Prefix) -> Happening
    ensures { result ≡ Departs (LeavesNetwork router net) }
{
    Happening::Departs(Departure::LeavesNetwork { router, net })
}

/// What an event is.
pub(crate) fn what_happens<A: Allocator + Copy>(
    database: &Database<A>,
    event: &Event,
) -> Result<Happening, AllocError>
    ensures { IfOk result (λ happens. happens ≡ happening_of (lists_of database.now) event.now) }
{
    match *event {
        Event::Cut {
            router,
            neighbor,
            address: None,
        } => Ok(Happening::OfLinks(LinkEvent::CutLinks { router, neighbor })),
        Event::Cut {
            router,
            neighbor,
            address: Some(address),
        } => Ok(Happening::OfLinks(LinkEvent::CutLink(LinkEnd {
            router,
            neighbor,
            address,
        }))),
        Event::Leave { router, prefix } => Ok(leaving(router, prefix)),
        Event::SetCost {
            router,
            far,
            metric,
            both,
        } => {
            let event = cost_event(database, router, far, metric, both)?;
            Ok(Happening::OfLinks(event))
        }
        Event::Drain { router } => Ok(Happening::OfLinks(LinkEvent::Drain { router })),
        Event::Fail { router } => Ok(Happening::Departs(Departure::Fails { router })),
    }
}
