//! Equality of kinds, changes and hops, as the definitions have it.

ghost use Rattle.std.specs.Prelude.{◌≡◌, true};
ghost use Rattle.std.specs.Cmp.Lexicographic.{pointwise};
ghost use Rattle.std.specs.Ordering.{eq_by_cmp};
ghost use Rattle.next_hops.specs.Hop.{hop_cmp};
ghost use Rattle.next_hops.specs.declared.hop.Hop.{Hop as AnyHop};
ghost use Rattle.study_words.specs.declared.route_kind.RouteKind.{RouteKind as AnyKind};
ghost use Rattle.table_changes.specs.declared.change.Change.{Change as AnyChange};
ghost use Rattle.table_changes.specs.Changes.{has_hop, same_change, same_kind};

use crate::change::Change;
use next_hops::{Hop, hop_equality, hop_order};
use std::cmp::Ordering;
use study_words::RouteKind;

/// What `==` says of kinds, changes and hops. It does nothing, and its contract is a law.
fn equalities()
    ensures kinds { (a b : AnyKind) → ⟦<RouteKind as PartialEq>⟧.eq a b ≡ same_kind a b }
    ensures changes { (a b : AnyChange) → ⟦<Change as PartialEq>⟧.eq a b ≡ same_change a b }
    ensures hops { (h : AnyHop) → ⟦<Hop as PartialEq>⟧.eq h h ≡ true }
{}

/// Whether two kinds of routes are one.
pub(crate) fn is_same_kind(kind: RouteKind, other: RouteKind) -> bool
    ensures { result ≡ same_kind kind other }
{
    // The law says what `==` says.
    equalities();
    kind == other
}

/// Whether two kinds of changes are one.
pub(crate) fn is_same_change(change: Change, other: Change) -> bool
    ensures { result ≡ same_change change other }
{
    // The law says what `==` says.
    equalities();
    change == other
}

/// Whether two lists of hops are one.
pub(crate) fn are_equal_hops(before: &[Hop], now: &[Hop]) -> bool
    ensures { result ≡ pointwise (eq_by_cmp hop_cmp) before.now now.now }
{
    // The laws say that hops that `==` finds equal are the same, and that it finds each equal to
    // itself.
    hop_equality();
    equalities();
    before == now
}

/// Whether two hops are one.
fn is_same_hop(hop: Hop, other: Hop) -> bool
    ensures { result ≡ eq_by_cmp hop_cmp hop other }
{
    // The law says that the order of hops is that of the definitions.
    hop_order();
    hop.cmp(&other) == Ordering::Equal
}

/// Whether a hop is among some.
pub(crate) fn has_hop(hops: &[Hop], hop: Hop) -> bool
    ensures { result ≡ has_hop hops.now hop }
{
    hops.iter().any(|other| is_same_hop(hop, *other))
}
