//! Differences, each once.

ghost use Rattle.std.specs.Prelude.{IfOk};
ghost use Rattle.lsdb_listing.specs.Once.{AreOnce};

use crate::difference::Difference;
use std::alloc::{AllocError, Allocator};
use std::collections::BTreeSet;

/// The set of these differences.
fn set_of<A: Allocator + Copy>(
    alloc: A,
    found: Vec<Difference, A>,
) -> Result<BTreeSet<Difference, A>, AllocError>
    ensures { IfOk result (λ set. AreOnce found.items set.keys) }
{
    found.into_iter().collect(alloc)
}

/// The same differences, each once, in order.
pub(crate) fn each_once<A: Allocator + Copy>(
    alloc: A,
    found: Vec<Difference, A>,
) -> Result<Vec<Difference, A>, AllocError>
    ensures { IfOk result (λ once. AreOnce found.items once.items) }
{
    let set = set_of(alloc, found)?;
    set.iter().copied().collect(alloc)
}
