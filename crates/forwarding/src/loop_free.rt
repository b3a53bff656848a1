//! Routers that no loop passes.

ghost use Rattle.std.specs.Prelude.{◌≡◌, IfOk, OnOk};
ghost use Rattle.forwarding.specs.Graphs.{next_in};
ghost use Rattle.forwarding.specs.steps.LoopFree.{AreLoopFree, leads_into, leads_only_into};

use crate::graph::ForwardingGraph;
use hop_ends::Way;
use lsa_codec::RouterId;
use std::alloc::{AllocError, Allocator};
use std::collections::BTreeSet;

/// Whether a way ends, or leads to a router of a set.
fn leads_into<A: Allocator + Copy>(loop_free: &BTreeSet<RouterId, A>, way: Way) -> bool
    ensures { result ≡ leads_into loop_free.now.keys way }
{
    match way.router() {
        Some(router) => loop_free.contains(&router),
        None => true,
    }
}

impl<A: Allocator + Copy> ForwardingGraph<A> {
    /// Whether a router sends only to routers of a set.
    fn leads_only_into(&self, loop_free: &BTreeSet<RouterId, A>, router: RouterId) -> bool
        ensures { result ≡ leads_only_into self.now loop_free.now.keys router }
    {
        self.ways_at(router)
            .iter()
            .all(|way| leads_into(loop_free, *way))
    }

    /// Adds a router to the set of those that no loop passes, if it sends only to such, and returns
    /// whether it was added.
    fn add_loop_free(
        &self,
        loop_free: &mut BTreeSet<RouterId, A>,
        router: RouterId,
    ) -> Result<bool, AllocError>
        ensures { OnOk result (AreLoopFree (next_in self.now) loop_free.old.keys
            → AreLoopFree (next_in self.now) loop_free.new.keys) }
    {
        if loop_free.contains(&router) || !self.leads_only_into(loop_free, router) {
            return Ok(false);
        }
        loop_free.insert(router)?;
        Ok(true)
    }

    /// Adds those of some routers to the set of those that no loop passes that send only to such,
    /// one after another, and returns whether there were any.
    fn add_each_loop_free(
        &self,
        loop_free: &mut BTreeSet<RouterId, A>,
        routers: &[RouterId],
    ) -> Result<bool, AllocError>
        ensures { OnOk result (AreLoopFree (next_in self.now) loop_free.old.keys
            → AreLoopFree (next_in self.now) loop_free.new.keys) }
    {
        let mut is_any = false;
        for router in routers {
            is_any |= self.add_loop_free(loop_free, *router)?;
        }
        Ok(is_any)
    }

    /// Routers that no loop passes, among some. Without loops these are all of them, but no clause
    /// states it: one that is missed costs time alone.
    pub(crate) fn loop_free(
        &self,
        alloc: A,
        routers: &[RouterId],
    ) -> Result<BTreeSet<RouterId, A>, AllocError>
        ensures { IfOk result (λ loop_free. AreLoopFree (next_in self.now) loop_free.keys) }
    {
        let mut loop_free = BTreeSet::new(alloc);
        for _pass in 0..routers.len() {
            if !self.add_each_loop_free(&mut loop_free, routers)? {
                break;
            }
        }
        Ok(loop_free)
    }
}
