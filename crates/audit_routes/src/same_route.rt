//! Whether two routes are the same.

ghost use Rattle.std.specs.Prelude.{◌≡◌, true};
ghost use Rattle.std.specs.Cmp.Lexicographic.{pointwise};
ghost use Rattle.std.specs.Ordering.{eq_by_cmp};
ghost use Rattle.best_ways.specs.Order.{path_number};
ghost use Rattle.next_hops.specs.Hop.{hop_cmp};
ghost use Rattle.next_hops.specs.declared.hop.Hop.{Hop as AnyHop};
ghost use Rattle.audit_routes.specs.Compatibility.{same_route};

use best_ways::{PathType, Route};
use next_hops::{Hop, hop_equality};
use std::alloc::Allocator;

/// The number of a type of paths, in order of preference (RFC 2328, 11).
fn path_number(kind: PathType) -> u8
    ensures { result ≡ path_number kind }
{
    match kind {
        PathType::Intra => 0,
        PathType::Inter => 1,
        PathType::Ext1 => 2,
        PathType::Ext2 => 3,
    }
}

/// `==` finds each hop equal to itself. It does nothing, and its contract is a law.
fn hops_equal_themselves()
    ensures { (h : AnyHop) → ⟦<Hop as PartialEq>⟧.eq h h ≡ true }
{}

/// Whether two lists of hops are the same.
fn same_hops(hops: &[Hop], others: &[Hop]) -> bool
    ensures { result ≡ pointwise (eq_by_cmp hop_cmp) hops.now others.now }
{
    // By these laws `==` finds hops equal exactly where they are.
    hop_equality();
    hops_equal_themselves();
    hops == others
}

/// Whether two routes to one prefix have the same type, costs and next hops. It takes no memory.
pub(crate) fn same_route<A: Allocator + Copy>(one: &Route<A>, other: &Route<A>) -> bool
    ensures { result ≡ same_route one.now other.now }
{
    path_number(one.kind) == path_number(other.kind)
        && one.cost == other.cost
        && one.cost2 == other.cost2
        && same_hops(one.hops.as_slice(), other.hops.as_slice())
}
