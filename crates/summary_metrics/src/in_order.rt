//! The entries of maps, in the order of their keys.

ghost use Rattle.std.specs.Prelude.{◌≡◌, IfOk, map};
ghost use Rattle.std.specs.List.Sorted.{IsStrictlySortedBy};

use std::alloc::{AllocError, Allocator};
use std::collections::BTreeMap;

/// The entries of a map, in the order of their keys.
pub(crate) fn in_order<K: Ord + Copy + Drop, V: Drop, A: Allocator + Copy>(
    alloc: A,
    entries: BTreeMap<K, V, A>,
) -> Result<Vec<(K, V), A>, AllocError>
    ensures entries { IfOk result (λ all. all.items ≡ entries.entries) }
    ensures sorted { IfOk result (λ all. IsStrictlySortedBy K.cmp (map (λ e. e.0) all.items)) }
{
    entries.into_iter().collect(alloc)
}
