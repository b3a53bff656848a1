//! The routers that stay on a transit network where another one leaves it.

ghost use Rattle.std.specs.Prelude.{◌≡◌, ◌==◌, IfOk};
ghost use Rattle.std.specs.List.{list_any};
ghost use Rattle.lsdb.specs.Slots.{lists_of};
ghost use Rattle.network_departures.specs.Leaving.{staying, stays, is_transit_still};

use interfaces::{Member, members_of};
use lsa_codec::{AreaId, Lsa, RouterId};
use lsdb::Database;
use std::alloc::{AllocError, Allocator};

/// Whether a router that a network-LSA lists stays: it has a link to the network, and is not the
/// one that leaves.
fn stays(member: Member, gone: RouterId) -> bool
    ensures { result ≡ stays gone member }
{
    member.is_joined && member.router.0 != gone.0
}

/// The routers that stay on a network, in the order of its network-LSA.
pub(crate) fn staying<A: Allocator + Copy>(
    database: &Database<A>,
    area: AreaId,
    gone: RouterId,
    network: &Lsa<A>,
) -> Result<Vec<RouterId, A>, AllocError>
    ensures { IfOk result (λ v. v.items
        ≡ staying (lists_of database.now) area gone network.now) }
{
    let members = members_of(database.alloc(), database, area, network)?;
    members
        .iter()
        .copied()
        .filter(|member| stays(*member, gone))
        .map(|member| member.router)
        .collect(database.alloc())
}

/// Whether two routers or more stay, so that a network is a transit network still.
pub(crate) fn is_transit_still(routers: &[RouterId]) -> bool
    ensures { result ≡ is_transit_still routers.now }
{
    routers.len() >= 2
}

/// Whether a router is among others.
pub(crate) fn is_among(routers: &[RouterId], router: RouterId) -> bool
    ensures { result ≡ list_any (λ other. other.0 == router.0) routers.now }
{
    routers.iter().any(|other| other.0 == router.0)
}
