//! The search for loops, along a path of groups of routers.
//!
//! A step from the last group of the path leads to a router that was not seen, which is a group of
//! its own at the end of the path, to a group of the path, with which all groups after it are one
//! loop, or to where all was followed. A group without steps that are left has all routers of its
//! loop. No step is followed twice.

ghost use Rattle.std.specs.Prelude.{◌≡◌, ◌+◌, ◌<◌, ◌≤◌, ◌∷◌, [], ◌&&◌, not, List, Contains, IfNone, IfOk, MatchOption, OnOk, length};
ghost use Rattle.std.specs.BTreeMap.{values};
ghost use Rattle.std.specs.BTreeSet.{contains};
ghost use Rattle.std.specs.List.{list_any};
ghost use Rattle.std.specs.Ordering.{eq_by_cmp};
ghost use Rattle.lsa_codec.specs.Order.{router_cmp};
ghost use Rattle.lsa_codec.specs.declared.address.RouterId.{RouterId as AnyRouter};
ghost use Rattle.microloops.specs.Changeover.{AreAllLoops};
ghost use Rattle.microloops.specs.steps.Groups.{Has, Lacks, work};
ghost use Rattle.microloops.specs.steps.Searching.{IsDone, IsFound, IsNext, IsSearch, Sends, with_last};

use crate::group::Group;
use crate::microloop::Microloop;
use lsa_codec::RouterId;
use std::alloc::{AllocError, Allocator};
use std::collections::{BTreeMap, BTreeSet};
use std::marker::Model;

/// The routers that were not seen, those on the path, the path of groups, and the loops that were
/// found, by their least routers.
#[derive(Drop)]
pub(crate) struct Search<A: Allocator> {
    alloc: A,
    unseen: BTreeSet<RouterId, A>,
    on_path: BTreeSet<RouterId, A>,
    path: Vec<Group<A>, A>,
    loops: BTreeMap<RouterId, Microloop<A>, A>,
}

impl<A: Allocator> Model for Search<A> {
    ghost use Rattle.std.specs.Prelude.{reverse};
    ghost use Rattle.microloops.specs.steps.Searching.{SearchValue};

    ghost Value = { SearchValue };

    ghost view = { λ s. record {
      unseen = s.unseen;
      on_path = s.on_path;
      path = reverse s.path.items;
      loops = s.loops.entries;
    } };
}

/// Takes routers out of a set.
fn remove_all<A: Allocator + Copy>(set: &mut BTreeSet<RouterId, A>, routers: &[RouterId])
    ensures { (router : AnyRouter) → contains router_cmp set.new router
        ≡ (contains router_cmp set.old router
        && not (list_any (eq_by_cmp router_cmp router) routers.now)) }
{
    for router in routers {
        set.remove(router);
    }
}

/// The loops of a map, in order of the routers that have them.
fn loops_of<A: Allocator + Copy>(
    alloc: A,
    loops: BTreeMap<RouterId, Microloop<A>, A>,
) -> Result<Vec<Microloop<A>, A>, AllocError>
    ensures { IfOk result (λ found. found.items ≡ values loops) }
{
    loops.into_values().collect(alloc)
}

impl<A: Allocator + Copy> Search<A> {
    /// The search of a graph of these routers: steps lead from these alone.
    pub(crate) fn new(alloc: A, routers: BTreeSet<RouterId, A>) -> Search<A>
        ensures { (next : AnyRouter → List AnyRouter)
            → ((v w : AnyRouter) → Contains (next v) w → Has routers v)
            → IsSearch next None result }
    {
        Search {
            alloc,
            unseen: routers,
            on_path: BTreeSet::new(alloc),
            path: Vec::new(alloc),
            loops: BTreeMap::new(alloc),
        }
    }

    /// Sees a router, which sends to others: it is a group of its own at the end of the path.
    ///
    /// # Errors
    ///
    /// Memory ran out.
    pub(crate) fn begin(
        &mut self,
        router: RouterId,
        targets: Vec<RouterId, A>,
    ) -> Result<(), AllocError>
        ensures fewer { OnOk result (Has self.old.unseen router
            → length self.new.unseen.keys + 1 ≡ length self.old.unseen.keys) }
        ensures search { OnOk result ((next : AnyRouter → List AnyRouter)
            → targets.items ≡ next router → IsNext next router self.old
            → IsSearch next None self.new) }
    {
        self.unseen.remove(&router);
        self.on_path.insert(router)?;
        self.path.push(Group {
            routers: BTreeSet::from_array(self.alloc, [router])?,
            pending: targets,
            is_loop: false,
        })?;
        Ok(())
    }

    /// The group, which sends to a router that was seen, with all groups of the path from that of
    /// the router on: they are one loop. It is the group alone where the router is not on the path.
    fn close(&mut self, last: Group<A>, target: RouterId) -> Result<Group<A>, AllocError>
        ensures search { IfOk result (λ joined. (next : AnyRouter → List AnyRouter)
            → IsSearch next (Some target) (with_last last self.old) → Sends next last target
            → Lacks self.old.unseen target → IsSearch next None (with_last joined self.new)) }
        ensures less { IfOk result (λ joined.
            work (joined ∷ self.new.path) ≤ work (last ∷ self.old.path)) }
        ensures unseen { OnOk result (self.new.unseen ≡ self.old.unseen) }
    {
        let mut last = last;
        if !self.on_path.contains(&target) {
            return Ok(last);
        }
        'groups: while !last.routers.contains(&target) {
            let Some(below) = self.path.pop() else {
                return Ok(last);
            };
            last = last.join(below)?;
        }
        last.is_loop = true;
        Ok(last)
    }

    /// Takes a group off the path from which all steps were followed. If it is a loop, all routers
    /// of the loop are in it.
    fn settle(&mut self, last: Group<A>) -> Result<(), AllocError>
        requires { last.pending ≡ [] }
        ensures search { OnOk result ((next : AnyRouter → List AnyRouter)
            → IsSearch next None (with_last last self.old) → IsSearch next None self.new) }
        ensures path { OnOk result (self.new.path ≡ self.old.path) }
        ensures unseen { OnOk result (self.new.unseen ≡ self.old.unseen) }
    {
        let Group {
            routers,
            pending: _,
            is_loop,
        } = last;
        let found = Microloop::of(self.alloc, routers)?;
        remove_all(&mut self.on_path, found.as_slice());
        if !is_loop {
            return Ok(());
        }
        let Some(least) = found.as_slice().first().copied() else {
            return Ok(());
        };
        self.loops.insert(least, found)?;
        Ok(())
    }

    /// Follows one step from the last group, which was taken off the path, or settles it. Returns
    /// the router that the step leads to, if that was not seen.
    fn follow(&mut self, last: Group<A>) -> Result<Option<RouterId>, AllocError>
        ensures found { IfOk result (λ found. (next : AnyRouter → List AnyRouter)
            → IsSearch next None (with_last last self.old)
            → MatchOption found (IsSearch next None self.new)
            (λ router. IsNext next router self.new)) }
        ensures less { IfOk result (λ found.
            IfNone found (work self.new.path < work (last ∷ self.old.path))) }
        ensures unseen { OnOk result (self.new.unseen ≡ self.old.unseen) }
    {
        let mut last = last;
        let Some(target) = last.pending.pop() else {
            self.settle(last)?;
            return Ok(None);
        };
        if self.unseen.contains(&target) {
            self.path.push(last)?;
            return Ok(Some(target));
        }
        let joined = self.close(last, target)?;
        self.path.push(joined)?;
        Ok(None)
    }

    /// Follows steps until one leads to a router that was not seen, or all were followed; then it
    /// is any that was not seen, if there is one.
    ///
    /// # Errors
    ///
    /// Memory ran out.
    pub(crate) fn next_router(&mut self) -> Result<Option<RouterId>, AllocError>
        ensures found { IfOk result (λ found. (next : AnyRouter → List AnyRouter)
            → IsSearch next None self.old → IsFound next found self.new) }
        ensures unseen { OnOk result (self.new.unseen ≡ self.old.unseen) }
    {
        'path: while let Some(last) = self.path.pop() {
            if let Some(router) = self.follow(last)? {
                return Ok(Some(router));
            }
        }
        Ok(self.unseen.first().copied())
    }

    /// The loops, in order of their least routers.
    ///
    /// # Errors
    ///
    /// Memory ran out.
    pub(crate) fn into_loops(self) -> Result<Vec<Microloop<A>, A>, AllocError>
        ensures { IfOk result (λ loops. (next : AnyRouter → List AnyRouter)
            (routers : List AnyRouter)
            → ((v w : AnyRouter) → Contains (next v) w → Contains routers v)
            → IsDone next self → AreAllLoops next routers loops.items) }
    {
        loops_of(self.alloc, self.loops)
    }
}
