//! The routers that walks reach.

ghost use Rattle.std.specs.Prelude.{◌≡◌, ◌++◌, [], IfOk, OnOk};
ghost use Rattle.std.specs.List.{filter_map};
ghost use Rattle.lsa_codec.specs.Order.{router_cmp};
ghost use Rattle.area_graph.specs.Rising.{rising};
ghost use Rattle.forwarding.specs.Graphs.{next_in};
ghost use Rattle.forwarding.specs.Walks.{AreReached};
ghost use Rattle.forwarding.specs.steps.Levels.{next_level, unseen, unseen_from, unseen_over};

use crate::graph::ForwardingGraph;
use hop_ends::{Way, in_order, push_some};
use lsa_codec::RouterId;
use std::alloc::{AllocError, Allocator};
use std::collections::BTreeSet;

/// A router that was not seen.
fn unseen<A: Allocator + Copy>(
    seen: &BTreeSet<RouterId, A>,
    router: Option<RouterId>,
) -> Option<RouterId>
    ensures { result ≡ unseen seen.now.keys router }
{
    let router = router?;
    if seen.contains(&router) {
        return None;
    }
    Some(router)
}

/// Adds the routers that ways lead to, but for those that were seen.
fn push_unseen<A: Allocator + Copy>(
    routers: &mut Vec<RouterId, A>,
    seen: &BTreeSet<RouterId, A>,
    ways: &[Way],
) -> Result<(), AllocError>
    ensures { OnOk result
        (routers.new.items ≡ routers.old.items ++ filter_map (unseen_over seen.now.keys) ways.now) }
{
    for way in ways {
        push_some(routers, unseen(seen, way.router()))?;
    }
    Ok(())
}

/// Adds routers, which are at the next level, to those that were seen.
fn visit<A: Allocator + Copy>(
    reached: &mut Vec<RouterId, A>,
    seen: &mut BTreeSet<RouterId, A>,
    level: &[RouterId],
) -> Result<(), AllocError>
    ensures reached { OnOk result (reached.new.items ≡ reached.old.items ++ level.now) }
    ensures seen { OnOk result (seen.old.keys ≡ rising router_cmp reached.old.items
        → seen.new.keys ≡ rising router_cmp reached.new.items) }
{
    for router in level {
        seen.insert(*router)?;
        reached.push(*router)?;
    }
    Ok(())
}

impl<A: Allocator + Copy> ForwardingGraph<A> {
    /// Adds the routers to which a router sends, but for those that were seen.
    fn push_unseen_from(
        &self,
        routers: &mut Vec<RouterId, A>,
        seen: &BTreeSet<RouterId, A>,
        router: RouterId,
    ) -> Result<(), AllocError>
        ensures { OnOk result
            (routers.new.items ≡ routers.old.items ++ unseen_from self.now seen.now.keys router) }
    {
        push_unseen(routers, seen, self.ways_at(router))
    }

    /// The routers to which those of a level send, but for those that were seen, in rising order.
    fn next_level(
        &self,
        alloc: A,
        level: &[RouterId],
        seen: &BTreeSet<RouterId, A>,
    ) -> Result<Vec<RouterId, A>, AllocError>
        ensures { IfOk result (λ next. next.items ≡ next_level self.now seen.now.keys level.now) }
    {
        let mut routers = Vec::new(alloc);
        for router in level {
            self.push_unseen_from(&mut routers, seen, *router)?;
        }
        in_order(alloc, &routers)
    }

    /// The routers that walks from a router reach, itself included, each once: by the least number
    /// of steps, then by Router ID.
    ///
    /// # Errors
    ///
    /// Memory ran out.
    pub fn reached(&self, alloc: A, start: RouterId) -> Result<Vec<RouterId, A>, AllocError>
        ensures { IfOk result (λ found. AreReached (next_in self.now) start found.items) }
    {
        let mut reached = Vec::new(alloc);
        let mut seen = BTreeSet::new(alloc);
        let mut level = Vec::from_array(alloc, [start])?;
        'levels: while !level.is_empty() {
            visit(&mut reached, &mut seen, &level)?;
            level = self.next_level(alloc, &level, &seen)?;
        }
        Ok(reached)
    }
}
