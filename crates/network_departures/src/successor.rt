//! The router that becomes Designated Router of a network where another one goes.

ghost use Rattle.std.specs.Prelude.{◌≡◌};
ghost use Rattle.lsdb.specs.Slots.{lists_of};
ghost use Rattle.network_departures.specs.Successors.{is_greatest, greatest, successor_on};

use crate::leaving::link_on;
use lsa_codec::{Addr, AreaId, Lsa, RouterId};
use lsdb::Database;
use std::alloc::Allocator;

/// A router that becomes Designated Router of a network.
#[derive(Clone, Copy, Debug, PartialEq, Eq)]
pub(crate) struct Successor {
    /// The router.
    pub(crate) router: RouterId,
    /// Its address on the network.
    pub(crate) address: Addr,
}

/// Whether no router has a greater Router ID than this one.
fn is_greatest(routers: &[RouterId], router: RouterId) -> bool
    ensures { result ≡ is_greatest routers.now router }
{
    routers.iter().all(|other| other.0 <= router.0)
}

/// The router with the greatest Router ID.
fn greatest(routers: &[RouterId]) -> Option<RouterId>
    ensures { result ≡ greatest routers.now }
{
    routers
        .iter()
        .copied()
        .find(|router| is_greatest(routers, *router))
}

/// The one of the routers on a network that becomes its Designated Router: the one with the
/// greatest Router ID, as where all have one priority and none is Backup (RFC 2328, 9.4).
pub(crate) fn successor_on<A: Allocator + Copy>(
    database: &Database<A>,
    area: AreaId,
    network: &Lsa<A>,
    routers: &[RouterId],
) -> Option<Successor>
    ensures { result ≡ successor_on (lists_of database.now) area network.now routers.now }
{
    let router = greatest(routers)?;
    let link = link_on(database, area, network.key().id, router)?;
    Some(Successor {
        router,
        address: link.link_data,
    })
}
