//! The networks that an area offers (RFC 2328, 16.1).

ghost use Rattle.std.specs.Prelude.{◌≡◌, List, [], ◌∷◌, ◌++◌, Some, OnOk, IfOk};
ghost use Rattle.std.specs.BTreeMap.{get, Updates};
ghost use Rattle.lsa_codec.specs.Order.{prefix_cmp};
ghost use Rattle.area_routes.specs.Reached.{ReachedValue};
ghost use Rattle.area_routes.specs.Networks.{networks, network_offers};
ghost use Rattle.area_routes.specs.steps.Standings.{AreStandingsOf, is_after, stands_before, standing_of, unbeaten};
ghost use Rattle.area_routes.specs.steps.Growing.{with_offers};

use crate::area_ways::AreaWays;
use crate::reached::Reached;
use lsa_codec::{Addr, Prefix};
use std::alloc::{AllocError, Allocator};
use std::collections::BTreeMap;

/// What networks of one prefix are compared by: the distance and the Link State ID.
#[derive(Clone, Copy, Debug)]
pub(crate) struct Standing {
    distance: u64,
    id: Addr,
}

/// The best standing of the networks of each prefix.
type Standings<A> = BTreeMap<Prefix, Standing, A>;

fn standing_of<A: Allocator + Copy>(reached: &Reached<'_, A>) -> Standing
    ensures { result ≡ standing_of reached.now }
{
    Standing {
        distance: reached.distance(),
        id: reached.lsa().key().id,
    }
}

/// Whether the first is nearer, or as near and its Link State ID is greater.
fn stands_before(one: Standing, other: Standing) -> bool
    ensures { result ≡ stands_before one other }
{
    one.distance < other.distance || (one.distance == other.distance && other.id.0 < one.id.0)
}

/// Whether a network of the prefix is better than this one.
fn is_after<A: Allocator + Copy>(standings: &Standings<A>, net: Prefix, standing: Standing) -> bool
    ensures { result ≡ is_after (get prefix_cmp standings.now net) standing }
{
    match standings.get(&net) {
        Some(best) => stands_before(*best, standing),
        None => false,
    }
}

fn set_standing<A: Allocator + Copy>(
    standings: &mut Standings<A>,
    net: Prefix,
    standing: Standing,
) -> Result<(), AllocError>
    ensures { OnOk result (Updates prefix_cmp standings.old standings.new net (Some standing)) }
{
    standings.insert(net, standing)?;
    Ok(())
}

/// Takes a vertex into account, if it is a network.
fn compare<A: Allocator + Copy>(
    standings: &mut Standings<A>,
    reached: &Reached<'_, A>,
) -> Result<(), AllocError>
    ensures { OnOk result ((ns : List ReachedValue) → AreStandingsOf ns standings.old
        → AreStandingsOf (ns ++ networks (reached.now ∷ [])) standings.new) }
{
    let Some(net) = reached.net() else {
        return Ok(());
    };
    let standing = standing_of(reached);
    if is_after(standings, net, standing) {
        return Ok(());
    }
    set_standing(standings, net, standing)
}

/// The best standing of the networks of each prefix.
fn best_standings<A: Allocator + Copy>(
    alloc: A,
    reached: &[Reached<'_, A>],
) -> Result<Standings<A>, AllocError>
    ensures { IfOk result (λ standings. AreStandingsOf (networks reached.now) standings) }
{
    let mut standings = BTreeMap::new(alloc);
    for vertex in reached {
        compare(&mut standings, vertex)?;
    }
    Ok(standings)
}

/// Adds what a vertex offers, if it is the network that is chosen among those of its prefix.
fn add_network<'a, A: Allocator + Copy>(
    ways: &mut AreaWays<'a, A>,
    standings: &Standings<A>,
    reached: &Reached<'a, A>,
) -> Result<(), AllocError>
    ensures { OnOk result ((ns : List ReachedValue) → AreStandingsOf ns standings.now
        → ways.new ≡ with_offers ways.old (unbeaten ns reached.now)) }
{
    let Some(net) = reached.net() else {
        return Ok(());
    };
    if is_after(standings, net, standing_of(reached)) {
        return Ok(());
    }
    ways.add(net, reached.distance(), reached.hops())
}

/// Adds what the networks offer: of those of one prefix only the nearest, and of several as near
/// the one with the greatest Link State ID.
pub(crate) fn add_networks<'a, A: Allocator + Copy>(
    alloc: A,
    ways: &mut AreaWays<'a, A>,
    reached: &[Reached<'a, A>],
) -> Result<(), AllocError>
    ensures { OnOk result (ways.new ≡ with_offers ways.old (network_offers reached.now)) }
{
    let standings = best_standings(alloc, reached)?;
    for vertex in reached {
        add_network(ways, &standings, vertex)?;
    }
    Ok(())
}
