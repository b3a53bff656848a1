//! Lists of hops that many vertices share: equal lists are kept once.

ghost use Rattle.std.specs.Prelude.{◌≡◌, ◌<◌, length, IfSome, IfOk, OnOk};
ghost use Rattle.next_hops.specs.Hop.{IsSortedHops};
ghost use Rattle.next_hops.specs.steps.Shared.{Keeps, list_in};

use crate::hop::Hop;
use crate::laws::hop_equality;
use indexmap::IndexSet;
use std::alloc::{AllocError, Allocator};
use std::hash::{BuildHasherDefault, FoldHasher};

/// Lists of hops, no two of them equal. The number of a list is its place.
pub(crate) type DistinctLists<A> = IndexSet<Vec<Hop, A>, BuildHasherDefault<FoldHasher>, A>;

/// The list with a number. It is empty where there is none.
pub(crate) fn list_at<A: Allocator + Copy>(lists: &DistinctLists<A>, number: usize) -> &[Hop]
    ensures { result.now ≡ list_in lists.now.keys number }
{
    match lists.get_index(number) {
        Some(list) => list,
        None => &[],
    }
}

/// The number of the list of these hops, if it is there.
fn find<A: Allocator + Copy>(hops: &[Hop], lists: &DistinctLists<A>) -> Option<usize>
    ensures within { IfSome result (λ n. n < length lists.now.keys) }
    ensures list { IfSome result (λ n. list_in lists.now.keys n ≡ hops.now) }
{
    hop_equality();
    lists.get_index_of(hops)
}

/// Adds a list of these hops, and returns its number.
fn put<A: Allocator + Copy>(
    alloc: A,
    hops: &[Hop],
    lists: &mut DistinctLists<A>,
) -> Result<usize, AllocError>
    requires { IsSortedHops hops.now }
    ensures within { IfOk result (λ n. n < length lists.new.keys) }
    ensures list { IfOk result (λ n. list_in lists.new.keys n ≡ hops.now) }
    ensures keeps { OnOk result (Keeps lists.old.keys lists.new.keys) }
{
    hop_equality();
    let (number, _) = lists.insert_full(Vec::from_slice(alloc, hops)?)?;
    Ok(number)
}

/// The number of the list of these hops, which is added unless it is there.
pub(crate) fn number_of<A: Allocator + Copy>(
    alloc: A,
    hops: &[Hop],
    lists: &mut DistinctLists<A>,
) -> Result<usize, AllocError>
    requires { IsSortedHops hops.now }
    ensures within { IfOk result (λ n. n < length lists.new.keys) }
    ensures list { IfOk result (λ n. list_in lists.new.keys n ≡ hops.now) }
    ensures keeps { OnOk result (Keeps lists.old.keys lists.new.keys) }
{
    match find(hops, lists) {
        Some(number) => Ok(number),
        None => put(alloc, hops, lists),
    }
}
