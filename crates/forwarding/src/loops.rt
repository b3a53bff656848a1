//! Loops of a forwarding graph.

ghost use Rattle.std.specs.Prelude.{◌≡◌, ◌↔◌, List, true, IfOk, MatchOption};
ghost use Rattle.std.specs.List.{list_any};
ghost use Rattle.forwarding.specs.Graphs.{next_in};
ghost use Rattle.forwarding.specs.Walks.{AreLoops, IsLoopOf, IsOnCycle, Reaches};
ghost use Rattle.forwarding.specs.steps.Looping.{AreBack, IsFoundFrom, is_first, leads_to, sends_to};
ghost use Rattle.forwarding.specs.steps.LoopFree.{AreLoopFree};

use crate::graph::ForwardingGraph;
use hop_ends::{Way, in_order, push_some};
use lsa_codec::RouterId;
use std::alloc::{AllocError, Allocator, Global};
use std::collections::BTreeSet;
use std::marker::Model;

/// The routers of a loop, in rising order. Contracts see it as this list.
#[derive(Drop)]
pub struct Loop<A: Allocator = Global> {
    routers: Vec<RouterId, A>,
}

impl<A: Allocator> Model for Loop<A> {
    ghost use Rattle.std.specs.Prelude.{List};
    ghost use Rattle.lsa_codec.specs.declared.address.RouterId.{RouterId as AnyRouter};

    ghost Value = { List AnyRouter };

    ghost view = { λ l. l.routers.items };
}

impl<A: Allocator + Copy> Loop<A> {
    /// The routers in rising order.
    pub fn as_slice(&self) -> &[RouterId]
        ensures { result.now ≡ self.now }
    {
        self.routers.as_slice()
    }

    /// Whether a router is the first.
    fn is_first(&self, router: RouterId) -> bool
        ensures { result ≡ is_first router self.now }
    {
        match self.routers.first() {
            Some(first) => *first == router,
            None => false,
        }
    }
}

/// Whether a way leads to a router.
fn leads_to(way: Way, router: RouterId) -> bool
    ensures { result ≡ leads_to router way }
{
    match way {
        Way::Via(_, other) => other == router,
        Way::Direct(_) | Way::Exit(_) => false,
    }
}

impl<A: Allocator + Copy> ForwardingGraph<A> {
    /// Whether a router sends to another one.
    fn sends_to(&self, to: RouterId, from: RouterId) -> bool
        ensures { result ≡ sends_to self.now to from }
    {
        self.ways_at(from).iter().any(|way| leads_to(*way, to))
    }

    /// Whether one of some routers sends to another one.
    fn any_sends_to(&self, to: RouterId, routers: &[RouterId]) -> bool
        ensures { result ≡ list_any (sends_to self.now to) routers.now }
    {
        routers.iter().any(|from| self.sends_to(to, *from))
    }

    /// Whether a walk leads from one router to another.
    fn reaches(&self, alloc: A, from: RouterId, to: RouterId) -> Result<bool, AllocError>
        ensures { IfOk result (λ yes. (yes ≡ true) ↔ Reaches (next_in self.now) from to) }
    {
        let reached = self.reached(alloc, from)?;
        Ok(reached.contains(&to))
    }

    /// Those of some routers from which walks lead to another one.
    fn back_to(
        &self,
        alloc: A,
        router: RouterId,
        routers: &[RouterId],
    ) -> Result<Vec<RouterId, A>, AllocError>
        ensures { IfOk result (λ found. AreBack self.now router routers.now found.items) }
    {
        let mut found = Vec::new(alloc);
        for other in routers {
            if self.reaches(alloc, *other, router)? {
                found.push(*other)?;
            }
        }
        Ok(found)
    }

    /// The loop of a router: the routers from which and to which walks of one step or more lead.
    /// `None` where no walk comes back to the router.
    ///
    /// # Errors
    ///
    /// Memory ran out.
    pub fn loop_of(&self, alloc: A, router: RouterId) -> Result<Option<Loop<A>>, AllocError>
        ensures { IfOk result (λ found. MatchOption found (¬ IsOnCycle (next_in self.now) router)
            (IsLoopOf (next_in self.now) router)) }
    {
        let reached = self.reached(alloc, router)?;
        if !self.any_sends_to(router, &reached) {
            return Ok(None);
        }
        let back = self.back_to(alloc, router, &reached)?;
        let routers = in_order(alloc, &back)?;
        Ok(Some(Loop { routers }))
    }

    /// The loop whose least router this is, if there is one.
    fn loop_from(&self, alloc: A, router: RouterId) -> Result<Option<Loop<A>>, AllocError>
        ensures { IfOk result (IsFoundFrom self.now router) }
    {
        let Some(found) = self.loop_of(alloc, router)? else {
            return Ok(None);
        };
        if !found.is_first(router) {
            return Ok(None);
        }
        Ok(Some(found))
    }

    /// The loop whose least router this is, if there is one, where no loop passes the routers of a
    /// set.
    fn loop_unless_free(
        &self,
        alloc: A,
        loop_free: &BTreeSet<RouterId, A>,
        router: RouterId,
    ) -> Result<Option<Loop<A>>, AllocError>
        requires { AreLoopFree (next_in self.now) loop_free.now.keys }
        ensures { IfOk result (IsFoundFrom self.now router) }
    {
        if loop_free.contains(&router) {
            return Ok(None);
        }
        self.loop_from(alloc, router)
    }

    /// The loops whose least routers are among some routers, in order of these: all loops, where
    /// the routers are all of the graph, or all that walks from one reach.
    ///
    /// # Errors
    ///
    /// Memory ran out.
    pub fn loops(&self, alloc: A, routers: &[RouterId]) -> Result<Vec<Loop<A>, A>, AllocError>
        ensures { IfOk result (λ loops. AreLoops (next_in self.now) routers.now loops.items) }
    {
        let loop_free = self.loop_free(alloc, routers)?;
        let sorted = in_order(alloc, routers)?;
        let mut loops = Vec::new(alloc);
        for router in &sorted {
            push_some(
                &mut loops,
                self.loop_unless_free(alloc, &loop_free, *router)?,
            )?;
        }
        Ok(loops)
    }
}
