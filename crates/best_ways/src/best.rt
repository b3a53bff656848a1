//! The best ways to each destination, of any number of candidates.

ghost use Rattle.std.specs.Prelude.{◌≡◌, ◌++◌, ◌∷◌, [], true, List, OnErr, OnOk, IfOk, IsPermutation, map};
ghost use Rattle.std.specs.List.Sorted.{IsSorted, IsStrictlySortedBy};
ghost use Rattle.std.specs.Map.{keys_of};
ghost use Rattle.std.proofs.lemmas.Map.Lookups.{CmpEqualImpliesEq};
ghost use Rattle.next_hops.specs.Hop.{extended};
ghost use Rattle.best_ways.specs.Best.{ways_of, Gathers};
ghost use Rattle.best_ways.specs.Candidate.{Candidate};
ghost use Rattle.best_ways.specs.steps.Merge.{contender_cmp, key_cmp};

use crate::contender::Contender;
use crate::merge::next_alike;
use crate::rank::Rank;
use crate::way::Way;
use lsa_codec::{Addr, AreaId};
use next_hops::Hop;
use std::alloc::{AllocError, Allocator, Global};
use std::marker::Model;

/// Up to this number of candidates for one destination are not sorted by cost; three times this
/// number always are.
const FEW: usize = 64;

/// Candidates, from which the best ways to each destination are made. Contracts see it as the list
/// of the candidates that were added.
///
/// The hops of the candidates are borrowed: lists of hops are made only for the best ways.
#[derive(Drop)]
pub struct BestWays<'a, K, A: Allocator = Global> {
    candidates: Vec<Contender<'a, K>, A>,
}

impl<'a, K, A: Allocator> Model for BestWays<'a, K, A> {
    ghost use Rattle.std.specs.Prelude.{List};
    ghost use Rattle.best_ways.specs.Candidate.{Candidate};

    ghost Value = { List (Candidate K) };

    ghost view = { λ w. w.candidates.items };
}

impl<'a, K: Ord + Copy + Drop, A: Allocator + Copy> BestWays<'a, K, A> {
    /// No candidates. It takes no memory.
    pub fn new(alloc: A) -> BestWays<'a, K, A>
        ensures { Gathers [] result }
    {
        BestWays {
            candidates: Vec::new(alloc),
        }
    }

    /// No candidates, with room for `count` of them.
    ///
    /// # Errors
    ///
    /// Memory ran out.
    pub fn with_capacity(alloc: A, count: usize) -> Result<BestWays<'a, K, A>, AllocError>
        ensures { IfOk result (Gathers []) }
    {
        Ok(BestWays {
            candidates: Vec::with_capacity(alloc, count)?,
        })
    }

    /// Takes another candidate into account: a way to a destination, with what it is compared by,
    /// the one area that it leads through, if it does, and its next hops.
    ///
    /// # Errors
    ///
    /// Memory ran out; the candidates are as before.
    pub fn add_candidate(
        &mut self,
        key: K,
        rank: Rank,
        area: Option<AreaId>,
        hops: &'a [Hop],
    ) -> Result<(), AllocError>
        ensures added { OnOk result ((cs : List (Candidate K)) → Gathers cs self.old → Gathers
            (cs ++ record { key = key; rank = rank; area = area; hops = hops.now } ∷ []) self.new) }
        ensures same { OnErr result (self.new ≡ self.old) }
    {
        self.candidates.push(Contender {
            key,
            rank,
            area,
            hops,
            onward: None,
        })?;
        Ok(())
    }

    /// Takes another candidate into account: a way to a destination, with what it is compared by,
    /// that goes on to an address after its next hops ([`Hop::extended`]).
    ///
    /// # Errors
    ///
    /// Memory ran out; the candidates are as before.
    pub fn add_candidate_onward(
        &mut self,
        key: K,
        rank: Rank,
        hops: &'a [Hop],
        address: Addr,
    ) -> Result<(), AllocError>
        ensures added { OnOk result ((cs : List (Candidate K)) → Gathers cs self.old → Gathers
            (cs ++ record {
              key = key;
              rank = rank;
              area = None;
              hops = map (λ hop. extended hop address) hops.now;
            } ∷ []) self.new) }
        ensures same { OnErr result (self.new ≡ self.old) }
    {
        self.candidates.push(Contender {
            key,
            rank,
            area: None,
            hops,
            onward: Some(address),
        })?;
        Ok(())
    }

    /// Each destination that a candidate has, in order, with the best way to it.
    ///
    /// # Errors
    ///
    /// Memory ran out.
    pub fn into_list(self, alloc: A) -> Result<Vec<(K, Way<A>), A>, AllocError>
        requires { CmpEqualImpliesEq K.cmp }
        ensures ways { IfOk result (λ ways. (cs : List (Candidate K))
            → Gathers cs self.entry → ways.items ≡ ways_of K.cmp cs) }
        ensures sorted { IfOk result (λ ways. IsStrictlySortedBy K.cmp (keys_of ways.items)) }
    {
        ways_in_order(alloc, &self.into_ordered()?)
    }

    /// The candidates in order of their destinations.
    pub(crate) fn into_ordered(self) -> Result<Vec<Contender<'a, K>, A>, AllocError>
        ensures same { IfOk result (λ ordered. IsPermutation self.entry ordered.items) }
        ensures order { IfOk result (λ ordered. IsSorted (key_cmp K.cmp) ordered.items) }
    {
        in_order(self.candidates)
    }
}

/// The best ways of candidates that are in order of their destinations.
fn ways_in_order<K: Ord + Copy + Drop, A: Allocator + Copy>(
    alloc: A,
    candidates: &[Contender<'_, K>],
) -> Result<Vec<(K, Way<A>), A>, AllocError>
    requires exact { CmpEqualImpliesEq K.cmp }
    requires order { IsSorted (key_cmp K.cmp) candidates.now }
    ensures { IfOk result (λ ways. ways.items ≡ ways_of K.cmp candidates.now) }
{
    let mut ways = Vec::with_capacity(alloc, candidates.len())?;
    let mut place = 0;
    while place < candidates.len() {
        let (first, others, end) = next_alike(candidates, place);
        let way = Way::of(alloc, first, others)?;
        ways.push((first.key, way))?;
        place = end;
    }
    Ok(ways)
}

/// Whether candidates are in order of their destinations.
fn is_in_order<K: Ord + Copy + Drop>(candidates: &[Contender<'_, K>]) -> bool
    ensures { result ≡ true → IsSorted (key_cmp K.cmp) candidates.now }
{
    candidates.is_sorted_by(|a, b| !b.key.cmp(&a.key).is_lt())
}

/// Whether there are few candidates for each destination. They are in order of their destinations.
/// The next hops of few are quickly joined in any order. Only each [`FEW`]th candidate is looked
/// at.
fn has_few_of_each<K: Ord + Copy + Drop>(candidates: &[Contender<'_, K>]) -> bool {
    for place in 1..candidates.len() / FEW {
        let before = &candidates[(place - 1) * FEW];
        let candidate = &candidates[place * FEW];
        if before.key == candidate.key {
            return false;
        }
    }
    true
}

/// The candidates in order of their destinations. Candidates already in order are not sorted.
fn by_destination<'a, K: Ord + Copy + Drop, A: Allocator + Copy>(
    candidates: Vec<Contender<'a, K>, A>,
) -> Result<Vec<Contender<'a, K>, A>, AllocError>
    ensures same { IfOk result (λ ordered. IsPermutation candidates.entry.items ordered.items) }
    ensures order { IfOk result (λ ordered. IsSorted (key_cmp K.cmp) ordered.items) }
{
    if is_in_order(&candidates) {
        return Ok(candidates);
    }
    let mut candidates = candidates;
    candidates.sort_by(|a, b| a.key.cmp(&b.key))?;
    Ok(candidates)
}

/// The candidates in order of their destinations. Where many have the same one, they are sorted by
/// cost as well.
fn in_order<'a, K: Ord + Copy + Drop, A: Allocator + Copy>(
    candidates: Vec<Contender<'a, K>, A>,
) -> Result<Vec<Contender<'a, K>, A>, AllocError>
    ensures same { IfOk result (λ ordered. IsPermutation candidates.entry.items ordered.items) }
    ensures order { IfOk result (λ ordered. IsSorted (key_cmp K.cmp) ordered.items) }
{
    let ordered = by_destination(candidates)?;
    if has_few_of_each(&ordered) {
        return Ok(ordered);
    }
    sorted(ordered)
}

/// The candidates in order of their destinations, the best first for each destination, and equal
/// ones by their first hops.
fn sorted<'a, K: Ord + Copy + Drop, A: Allocator + Copy>(
    candidates: Vec<Contender<'a, K>, A>,
) -> Result<Vec<Contender<'a, K>, A>, AllocError>
    ensures same { IfOk result (λ sorted. IsPermutation candidates.entry.items sorted.items) }
    ensures order { IfOk result (λ sorted. IsSorted (contender_cmp K.cmp) sorted.items) }
{
    let mut candidates = candidates;
    candidates.sort_by(|a, b| a.compare(b))?;
    Ok(candidates)
}
