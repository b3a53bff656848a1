//! The ways of routes as studies show them.

ghost use Rattle.std.specs.Prelude.{◌≡◌, ◌++◌, ◌∷◌, [], List, map, IfOk, OnOk};
ghost use Rattle.lsdb.specs.Slots.{lists_of};
ghost use Rattle.route_report.specs.Ways.{addresses_over, gateway_of, interface_of, way_over};

use crate::found::far_addresses;
use crate::sought::Leg;
use hop_ends::Way;
use lsa_codec::{Addr, RouterId};
use lsdb::Database;
use next_hops::Hop;
use route_lines::{RouteWay, WayTarget};
use std::alloc::{AllocError, Allocator};

/// The interface that a hop leads over, if there is one.
pub(crate) fn interface_of(hop: Hop) -> Option<Addr>
    ensures { result ≡ interface_of hop }
{
    match hop {
        Hop::Connected => None,
        Hop::Link(interface) | Hop::Attached(interface) | Hop::Gateway(interface, _) => {
            Some(interface)
        }
    }
}

/// The address that a hop leads to, if there is one.
pub(crate) fn gateway_of(hop: Hop) -> Option<Addr>
    ensures { result ≡ gateway_of hop }
{
    match hop {
        Hop::Gateway(_, address) => Some(address),
        Hop::Connected | Hop::Link(_) | Hop::Attached(_) => None,
    }
}

/// The addresses of the interface of a neighbor to which a hop leads.
fn addresses_over<A: Allocator + Copy>(
    alloc: A,
    database: &Database<A>,
    router: RouterId,
    neighbor: RouterId,
    hop: Hop,
) -> Result<Vec<Addr, A>, AllocError>
    ensures { IfOk result (λ addresses. addresses.items
        ≡ addresses_over (lists_of database.now) router neighbor hop) }
{
    match hop {
        Hop::Link(interface) => {
            let leg = Leg {
                router,
                interface,
                neighbor,
            };
            far_addresses(alloc, database, leg)
        }
        Hop::Gateway(_, address) => Ok(Vec::from_array(alloc, [address])?),
        Hop::Connected | Hop::Attached(_) => Ok(Vec::new(alloc)),
    }
}

/// A way of a router.
fn way_over<A: Allocator + Copy>(
    alloc: A,
    database: &Database<A>,
    router: RouterId,
    way: Way,
) -> Result<RouteWay<A>, AllocError>
    ensures { IfOk result (λ shown. shown ≡ way_over (lists_of database.now) router way) }
{
    match way {
        Way::Via(hop, neighbor) => Ok(RouteWay {
            target: WayTarget::Via(neighbor),
            out: interface_of(hop),
            addresses: addresses_over(alloc, database, router, neighbor, hop)?,
        }),
        Way::Direct(hop) => Ok(RouteWay {
            target: WayTarget::Direct,
            out: interface_of(hop),
            addresses: Vec::new(alloc),
        }),
        Way::Exit(hop) => Ok(RouteWay {
            target: WayTarget::Exit(gateway_of(hop)),
            out: interface_of(hop),
            addresses: Vec::new(alloc),
        }),
    }
}

/// Ways of a router.
pub(crate) fn ways_over<A: Allocator + Copy>(
    alloc: A,
    database: &Database<A>,
    router: RouterId,
    ways: &[Way],
) -> Result<Vec<RouteWay<A>, A>, AllocError>
    ensures { IfOk result (λ shown. shown.items
        ≡ map (way_over (lists_of database.now) router) ways.now) }
{
    let mut shown = Vec::new(alloc);
    for way in ways {
        shown.push(way_over(alloc, database, router, *way)?)?;
    }
    Ok(shown)
}
