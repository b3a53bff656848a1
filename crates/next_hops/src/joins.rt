//! Lists of hops that are joined, each combination once.

ghost use Rattle.std.specs.Prelude.{◌≡◌, ◌<◌, length, IfSome, IfOk, OnOk};
ghost use Rattle.area_graph.specs.Rising.{rising};
ghost use Rattle.next_hops.specs.Hop.{hop_cmp};
ghost use Rattle.next_hops.specs.steps.Shared.{AreJoins, AreSorted, AreWithin, HasJoin, IsJoin, Keeps, hops_in};

use crate::list::HopList;
use crate::shared::{DistinctLists, list_at, number_of};
use indexmap::IndexMap;
use std::alloc::{AllocError, Allocator};
use std::hash::{BuildHasherDefault, FoldHasher};

/// The number of the joined list, by the numbers of the lists that were joined.
pub(crate) type Joins<A> = IndexMap<Vec<usize, A>, usize, BuildHasherDefault<FoldHasher>, A>;

/// The hops of all lists with these numbers.
fn all_hops<A: Allocator + Copy>(
    alloc: A,
    numbers: &[usize],
    lists: &DistinctLists<A>,
) -> Result<HopList<A>, AllocError>
    ensures { IfOk result
        (λ hops. hops ≡ rising hop_cmp (hops_in lists.now.keys numbers.now)) }
{
    let mut hops = HopList::new(alloc)?;
    for number in numbers {
        hops.join(list_at(lists, *number))?;
    }
    Ok(hops)
}

/// The number of the list of all hops of some lists, if they were joined before.
fn find<A: Allocator + Copy>(numbers: &[usize], joins: &Joins<A>) -> Option<usize>
    ensures { IfSome result (λ n. HasJoin joins.now.entries numbers.now n) }
{
    joins.get(numbers).copied()
}

/// Joins some lists, and returns the number of the list of all their hops.
fn make<A: Allocator + Copy>(
    alloc: A,
    numbers: &[usize],
    lists: &mut DistinctLists<A>,
    joins: &mut Joins<A>,
) -> Result<usize, AllocError>
    requires within { AreWithin lists.old.keys numbers.now }
    requires joined { AreJoins lists.old.keys joins.old.entries }
    ensures join { IfOk result (λ n. IsJoin lists.new.keys numbers.now n) }
    ensures joined { OnOk result (AreJoins lists.new.keys joins.new.entries) }
    ensures keeps { OnOk result (Keeps lists.old.keys lists.new.keys) }
{
    let hops = all_hops(alloc, numbers, lists)?;
    let number = number_of(alloc, hops.as_slice(), lists)?;
    joins.insert(Vec::from_slice(alloc, numbers)?, number)?;
    Ok(number)
}

/// The number of the list of all hops of some lists. They are joined unless they were joined
/// before.
pub(crate) fn join<A: Allocator + Copy>(
    alloc: A,
    numbers: &[usize],
    lists: &mut DistinctLists<A>,
    joins: &mut Joins<A>,
) -> Result<usize, AllocError>
    requires within { AreWithin lists.old.keys numbers.now }
    requires joined { AreJoins lists.old.keys joins.old.entries }
    ensures join { IfOk result (λ n. IsJoin lists.new.keys numbers.now n) }
    ensures joined { OnOk result (AreJoins lists.new.keys joins.new.entries) }
    ensures keeps { OnOk result (Keeps lists.old.keys lists.new.keys) }
{
    match find(numbers, joins) {
        Some(number) => Ok(number),
        None => make(alloc, numbers, lists, joins),
    }
}
