//! Laws: what holds of the definitions that the contracts of this crate cite. Each is a function
//! that does nothing, and its contract is the law.

ghost use Rattle.std.specs.Prelude.{◌≡◌, List};
ghost use Rattle.std.specs.Cmp.{IsTotalOrder};
ghost use Rattle.std.specs.declared.cmp.Ordering.TheVariants.{Equal};
ghost use Rattle.std.proofs.lemmas.Map.Lookups.{CmpEqualImpliesEq};
ghost use Rattle.best_ways.specs.declared.rank.Rank.{Rank as AnyRank};
ghost use Rattle.best_ways.specs.Best.{ways_of};
ghost use Rattle.best_ways.specs.Candidate.{Candidate};
ghost use Rattle.best_ways.specs.InWords.{AreBestWays};
ghost use Rattle.best_ways.specs.Order.{rank_cmp};
ghost use Rattle.best_ways.specs.Values.{WayValue};

use crate::rank::Rank;

/// The order of ranks is the `Ord` of [`Rank`]. It is total, and two ranks compare as equal only
/// where they are the same.
pub fn rank_order()
    ensures ranks { (a b : AnyRank) → ⟦<Rank as Ord>⟧.cmp a b ≡ rank_cmp a b }
    ensures total { IsTotalOrder rank_cmp }
    ensures exact { (a b : AnyRank) → rank_cmp a b ≡ Equal → a ≡ b }
{}

/// The ways that are computed are exactly the best ways: destinations in order, each with the least
/// rank of its candidates, and with exactly the areas and next hops of those candidates that have
/// this rank.
pub fn ways_are_best<K: Ord + Copy + Drop>()
    requires { CmpEqualImpliesEq K.cmp }
    ensures best { (cs : List (Candidate K)) → AreBestWays K.cmp cs (ways_of K.cmp cs) }
    ensures only { (cs : List (Candidate K)) (ways : List (K × WayValue))
        → AreBestWays K.cmp cs ways → ways ≡ ways_of K.cmp cs }
{}
