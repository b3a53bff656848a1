//! The ways of a route.

ghost use Rattle.std.specs.Prelude.{◌≡◌, ◌++◌, ◌∷◌, [], IfOk, OnOk};
ghost use Rattle.lsdb.specs.Lists.{Lists};
ghost use Rattle.hop_ends.specs.Owners.{AreGraphsOf};
ghost use Rattle.hop_ends.specs.Ways.{connected_way, ways_of, ways_over, ways_to_owners, ways_via};

use crate::area_graphs::AreaGraphs;
use crate::way::Way;
use area_routes::{PathType, Route};
use lsa_codec::{Prefix, RouterId};
use next_hops::Hop;
use std::alloc::{AllocError, Allocator};

/// The way to a stub network of the router itself, or to a forwarding address on one.
fn connected_way(kind: PathType) -> Way
    ensures { result ≡ connected_way kind }
{
    match kind {
        PathType::Intra | PathType::Inter => Way::Direct(Hop::Connected),
        PathType::Ext1 | PathType::Ext2 => Way::Exit(Hop::Connected),
    }
}

/// Adds one way.
fn push_way<A: Allocator + Copy>(ways: &mut Vec<Way, A>, way: Way) -> Result<(), AllocError>
    ensures { OnOk result (ways.new.items ≡ ways.old.items ++ way ∷ []) }
{
    ways.push(way)?;
    Ok(())
}

/// Adds the ways over a hop to each of these routers.
fn push_via<A: Allocator + Copy>(
    ways: &mut Vec<Way, A>,
    hop: Hop,
    routers: &[RouterId],
) -> Result<(), AllocError>
    ensures { OnOk result (ways.new.items ≡ ways.old.items ++ ways_via hop routers.now) }
{
    for router in routers {
        ways.push(Way::Via(hop, *router))?;
    }
    Ok(())
}

/// Adds the ways over a hop to the routers with its address, or the one out of the network where
/// there are none.
fn push_to_owners<A: Allocator + Copy>(
    ways: &mut Vec<Way, A>,
    hop: Hop,
    owners: &[RouterId],
) -> Result<(), AllocError>
    ensures { OnOk result (ways.new.items ≡ ways.old.items ++ ways_to_owners hop owners.now) }
{
    if owners.is_empty() {
        return push_way(ways, Way::Exit(hop));
    }
    push_via(ways, hop, owners)
}

/// Adds the ways over a hop of a router's route to a prefix.
fn push_over<A: Allocator + Copy>(
    alloc: A,
    graphs: &AreaGraphs<'_, A>,
    router: RouterId,
    net: Prefix,
    kind: PathType,
    hop: Hop,
    ways: &mut Vec<Way, A>,
) -> Result<(), AllocError>
    ensures { OnOk result ((db : Lists) → AreGraphsOf db graphs.now
        → ways.new.items ≡ ways.old.items ++ ways_over db router net kind hop) }
{
    match hop {
        Hop::Connected => push_way(ways, connected_way(kind)),
        Hop::Link(interface) => {
            let routers = graphs.ends_over(alloc, router, net, interface)?;
            push_via(ways, hop, &routers)
        }
        Hop::Attached(_) => push_way(ways, Way::Direct(hop)),
        Hop::Gateway(interface, address) => {
            let owners = graphs.owners(alloc, router, interface, address)?;
            push_to_owners(ways, hop, &owners)
        }
    }
}

/// The ways of a router's route: where its next hops lead, in their order.
///
/// # Errors
///
/// Memory ran out.
pub fn ways_of<A: Allocator + Copy>(
    alloc: A,
    graphs: &AreaGraphs<'_, A>,
    router: RouterId,
    route: &Route<A>,
) -> Result<Vec<Way, A>, AllocError>
    ensures { IfOk result (λ ways. (db : Lists) → AreGraphsOf db graphs.now
        → ways.items ≡ ways_of db router route.now) }
{
    let mut ways = Vec::new(alloc);
    for hop in route.hops.as_slice() {
        push_over(
            alloc, graphs, router, route.net, route.kind, *hop, &mut ways,
        )?;
    }
    Ok(ways)
}
