//! The candidate list (RFC 2328, 16.1): vertices that may be the next to be settled.

ghost use Rattle.std.specs.Prelude.{◌≡◌, [], ◌∷◌, IfSome, IfNone, OnOk, IsPermutation, All, false};
ghost use Rattle.std.specs.Cmp.{back_total, partial_order_from_own_ties, partial_order_from_total};
ghost use Rattle.std.specs.Cmp.Rules.{comparing};
ghost use Rattle.std.specs.Ordering.{is_lt, flip_args, as_partial_cmp};
ghost use Rattle.std.proofs.Common.{rules};
ghost use Rattle.spf.specs.Candidates.{candidate_cmp, candidate_cmp_total};

use std::alloc::{AllocError, Allocator};
use std::cmp::Ordering;
use std::collections::BinaryHeap;
use std::marker::Model;

/// A vertex, at the cost of some path to it, in eight bytes. Vertices are settled in this order of
/// candidates: less distance first, at equal distance a network before a router, then the lower
/// number.
#[derive(Clone, Copy, Debug, PartialEq, Eq)]
pub(crate) struct Candidate {
    pub(crate) distance: u32,
    pub(crate) is_router: bool,
    pub(crate) index: u16,
}

/// The candidate that is settled first is the greatest, since a heap gives its greatest item.
impl Ord for Candidate {
    ghost cmp = { flip_args candidate_cmp };

    ghost total = { back_total candidate_cmp_total };

    ghost matches_partial_cmp = { Prim.search (comparing, rules) };

    ghost matches_eq = { Prim.search (comparing, rules) };

    fn cmp(&self, other: &Candidate) -> Ordering {
        let kinds = other.is_router.cmp(&self.is_router);
        let places = kinds.then(other.index.cmp(&self.index));
        other.distance.cmp(&self.distance).then(places)
    }
}

impl PartialOrd for Candidate {
    ghost partial_cmp = { as_partial_cmp (flip_args candidate_cmp) };

    ghost laws = { partial_order_from_own_ties
        (partial_order_from_total (back_total candidate_cmp_total))
        (Prim.search (comparing, rules)) };

    fn partial_cmp(&self, other: &Candidate) -> Option<Ordering> {
        Some(self.cmp(other))
    }
}

/// The candidates, of which the first in their order is taken next. A vertex may be there several
/// times, each time nearer than before.
#[derive(Drop)]
pub(crate) struct Queue<A: Allocator> {
    candidates: BinaryHeap<Candidate, A>,
}

impl<A: Allocator> Model for Queue<A> {
    ghost use Rattle.std.specs.Prelude.{List};
    ghost use Rattle.std.specs.BinaryHeap.{IsHeap, heap_items};
    ghost use Rattle.std.specs.Ordering.{flip_args};
    ghost use Rattle.spf.specs.declared.queue.Candidate.{Candidate};
    ghost use Rattle.spf.specs.Candidates.{candidate_cmp};

    ghost Value = { List Candidate };

    ghost view = { λ q. heap_items q.candidates };

    ghost invariant = { λ q. IsHeap (flip_args candidate_cmp) (heap_items q.candidates) };
}

impl<A: Allocator + Copy> Queue<A> {
    /// No candidates.
    pub(crate) fn new(alloc: A) -> Queue<A>
        ensures { result ≡ [] }
    {
        Queue {
            candidates: BinaryHeap::new(alloc),
        }
    }

    /// Adds a candidate.
    pub(crate) fn push(&mut self, candidate: Candidate) -> Result<(), AllocError>
        ensures { OnOk result (IsPermutation (candidate ∷ self.old) self.new) }
    {
        self.candidates.push(candidate)?;
        Ok(())
    }

    /// Takes out a candidate before which no other stands.
    pub(crate) fn pop(&mut self) -> Option<Candidate>
        ensures taken { IfSome result (λ c. IsPermutation self.old (c ∷ self.new)) }
        ensures first { IfSome result
            (λ c. All (λ other. is_lt (candidate_cmp other c) ≡ false) self.new) }
        ensures none { IfNone result (self.old ≡ []) }
    {
        self.candidates.pop()
    }
}
