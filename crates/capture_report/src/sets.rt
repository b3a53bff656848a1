//! Sets of items: each once, and those that are not among others.

ghost use Rattle.std.specs.Prelude.{◌≡◌, IfOk, filter, not};
ghost use Rattle.std.specs.BTreeSet.{IsFromIterResult, contains};
ghost use Rattle.capture_report.specs.Sets.{AreMissing, AreOnce, AreShared};

use std::alloc::{AllocError, Allocator};
use std::collections::BTreeSet;

/// The set of these items.
pub(crate) fn set_of<T: Ord + Copy, A: Allocator + Copy>(
    alloc: A,
    items: &[T],
) -> Result<BTreeSet<T, A>, AllocError>
    ensures { IfOk result (λ set. IsFromIterResult T.cmp items.now set) }
{
    items.iter().copied().collect(alloc)
}

/// The items of a set, in rising order.
fn in_order<T: Ord + Copy, A: Allocator + Copy>(
    alloc: A,
    items: &BTreeSet<T, A>,
) -> Result<Vec<T, A>, AllocError>
    ensures { IfOk result (λ all. all.items ≡ items.now.keys) }
{
    items.iter().copied().collect(alloc)
}

/// The items that are not among others.
fn without<T: Ord + Copy, A: Allocator + Copy>(
    alloc: A,
    items: &BTreeSet<T, A>,
    others: &BTreeSet<T, A>,
) -> Result<Vec<T, A>, AllocError>
    ensures { IfOk result (λ left. left.items
        ≡ filter (λ item. not (contains T.cmp others.now item)) items.now.keys) }
{
    items
        .iter()
        .copied()
        .filter(|item| !others.contains(item))
        .collect(alloc)
}

/// The items that are among others too.
fn among<T: Ord + Copy, A: Allocator + Copy>(
    alloc: A,
    items: &BTreeSet<T, A>,
    others: &BTreeSet<T, A>,
) -> Result<Vec<T, A>, AllocError>
    ensures { IfOk result (λ left. left.items
        ≡ filter (λ item. contains T.cmp others.now item) items.now.keys) }
{
    items
        .iter()
        .copied()
        .filter(|item| others.contains(item))
        .collect(alloc)
}

/// The items, each once, in rising order.
pub(crate) fn once<T: Ord + Copy, A: Allocator + Copy>(
    alloc: A,
    items: &[T],
) -> Result<Vec<T, A>, AllocError>
    ensures { IfOk result (λ once. AreOnce T.cmp items.now once.items) }
{
    let set = set_of(alloc, items)?;
    in_order(alloc, &set)
}

/// The items that are named and not described, each once, in rising order.
pub(crate) fn missing<T: Ord + Copy, A: Allocator + Copy>(
    alloc: A,
    named: &[T],
    described: &[T],
) -> Result<Vec<T, A>, AllocError>
    ensures { IfOk result (λ missing. AreMissing T.cmp named.now described.now missing.items) }
{
    let named = set_of(alloc, named)?;
    let described = set_of(alloc, described)?;
    without(alloc, &named, &described)
}

/// The items that are among others too, each once, in rising order.
pub(crate) fn shared<T: Ord + Copy, A: Allocator + Copy>(
    alloc: A,
    items: &[T],
    others: &[T],
) -> Result<Vec<T, A>, AllocError>
    ensures { IfOk result (λ shared. AreShared T.cmp items.now others.now shared.items) }
{
    let items = set_of(alloc, items)?;
    among(alloc, &items, &set_of(alloc, others)?)
}
