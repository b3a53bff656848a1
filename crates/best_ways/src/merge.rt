//! Candidates that are in order of their destinations, one destination after another.

ghost use Rattle.std.specs.Prelude.{◌≡◌, ◌<◌, ◌≤◌, ◌∷◌, All, true, false, not, drop, IfSome, Some, length, position, slice_get, take};
ghost use Rattle.std.specs.List.Sorted.{IsSorted};
ghost use Rattle.std.specs.Ordering.{eq_by_cmp};
ghost use Rattle.std.proofs.lemmas.Map.Lookups.{CmpEqualImpliesEq};
ghost use Rattle.best_ways.specs.Best.{way_of, ways_of};
ghost use Rattle.best_ways.specs.Values.{WayValue};
ghost use Rattle.best_ways.specs.steps.Merge.{key_cmp};

use crate::contender::Contender;

/// The place of the first candidate that is not for a destination.
fn first_other<K: Ord + Copy>(key: K, candidates: &[Contender<'_, K>]) -> Option<usize>
    ensures { result ≡ position (λ c. not (eq_by_cmp K.cmp key c.key)) candidates.now }
{
    candidates
        .iter()
        .position(|candidate| !key.cmp(&candidate.key).is_eq())
}

/// How many candidates at the front are for a destination.
fn count_alike<K: Ord + Copy>(key: K, candidates: &[Contender<'_, K>]) -> usize
    ensures within { result ≤ length candidates.now }
    ensures alike { All (λ c. eq_by_cmp K.cmp key c.key ≡ true) (take result candidates.now) }
    ensures other { IfSome (slice_get (drop result candidates.now) 0)
        (λ c. eq_by_cmp K.cmp key c.key ≡ false) }
{
    match first_other(key, candidates) {
        Some(place) => place,
        None => candidates.len(),
    }
}

/// The candidate at a place, the others for its destination, and the place after them, where
/// candidates are in order of their destinations. The best way of these is the first of the best
/// ways of all candidates from the place on.
#[inline(always)]
pub(crate) fn next_alike<'c, 'a, K: Ord + Copy + Drop>(
    candidates: &'c [Contender<'a, K>],
    place: usize,
) -> (&'c Contender<'a, K>, &'c [Contender<'a, K>], usize)
    requires exact { CmpEqualImpliesEq K.cmp }
    requires order { IsSorted (key_cmp K.cmp) candidates.now }
    requires within { place < length candidates.now }
    ensures ways { (way : WayValue) → Some way ≡ way_of (result.0.now ∷ result.1.now)
        → ways_of K.cmp (drop place candidates.now)
        ≡ (result.0.now.key, way) ∷ ways_of K.cmp (drop result.2 candidates.now) }
    ensures end { (place < result.2) × (result.2 ≤ length candidates.now) }
{
    let first = &candidates[place];
    let (_, others) = candidates.split_at(place + 1);
    let count = count_alike(first.key, others);
    let (alike, _) = others.split_at(count);
    (first, alike, place + 1 + count)
}
