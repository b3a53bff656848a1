//! Network-LSAs once a router has left.

ghost use Rattle.std.specs.Prelude.{◌≡◌, ◌≤◌, length, IfOk};
ghost use Rattle.lsdb.specs.Slots.{lists_of};
ghost use Rattle.network_departures.specs.Successors.{succeeded, redesignated, network_after};

use crate::leaving::is_designated;
use crate::staying::{is_transit_still, staying};
use crate::successor::{Successor, successor_on};
use lsa_codec::{AreaId, Lsa, RouterId};
use lsa_remaking::{RemakeFault, succeed, with_routers};
use lsdb::Database;
use std::alloc::Allocator;

/// The network-LSA of a successor, where there is one.
fn succeeded<A: Allocator + Copy>(
    alloc: A,
    network: &Lsa<A>,
    routers: &[RouterId],
    next: Option<Successor>,
) -> Result<Option<Lsa<A>>, RemakeFault>
    requires { 24 ≤ length network.now }
    ensures { IfOk result (λ new. new ≡ succeeded routers.now network.now next) }
{
    let Some(next) = next else {
        return Ok(None);
    };
    let new = succeed(alloc, network, next.router, next.address, routers)?;
    Ok(Some(new))
}

/// The network-LSA of a transit network with these routers, once a router is gone.
fn redesignated<A: Allocator + Copy>(
    database: &Database<A>,
    area: AreaId,
    gone: RouterId,
    network: &Lsa<A>,
    routers: &[RouterId],
) -> Result<Option<Lsa<A>>, RemakeFault>
    requires { 24 ≤ length network.now }
    ensures { IfOk result (λ new. new
        ≡ redesignated (lists_of database.now) area gone network.now routers.now) }
{
    if is_designated(gone, network) {
        let next = successor_on(database, area, network, routers);
        return succeeded(database.alloc(), network, routers, next);
    }
    let new = with_routers(database.alloc(), network, routers)?;
    Ok(Some(new))
}

/// The network-LSA of a network once a router has left: none where fewer than two routers stay,
/// that of the successor where the Designated Router leaves, and else the same with the routers
/// that stay (RFC 2328, 12.4.2).
///
/// # Errors
///
/// The network-LSA could not be rebuilt, or memory ran out.
#[tactic(auto, using(crate::proofs::NobodyStays::none_after))]
pub fn network_after<A: Allocator + Copy>(
    database: &Database<A>,
    area: AreaId,
    gone: RouterId,
    network: &Lsa<A>,
) -> Result<Option<Lsa<A>>, RemakeFault>
    ensures { IfOk result (λ new. new
        ≡ network_after (lists_of database.now) area gone network.now) }
{
    let Some(_view) = network.network() else {
        return Ok(None);
    };
    let routers = staying(database, area, gone, network)?;
    if !is_transit_still(&routers) {
        return Ok(None);
    }
    redesignated(database, area, gone, network, &routers)
}
