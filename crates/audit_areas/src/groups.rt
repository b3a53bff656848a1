//! Pairs in groups of one key.

ghost use Rattle.std.specs.Prelude.{◌≡◌, ◌++◌, IfOk, OnOk, filter, length, map, nat_lt};
ghost use Rattle.audit_areas.specs.Groups.{added, alone, grouped, last_and, several};

use std::alloc::{AllocError, Allocator};

/// A key, and the values that have it.
type Group<K, V, A> = (K, Vec<V, A>);

/// Adds a group of one pair.
fn push_new<K: Copy, V: Copy, A: Allocator + Copy>(
    groups: &mut Vec<Group<K, V, A>, A>,
    alloc: A,
    pair: (K, V),
) -> Result<(), AllocError>
    ensures { OnOk result (map (λ g. (g.0, g.1.items)) groups.new.items
        ≡ map (λ g. (g.0, g.1.items)) groups.old.items ++ alone pair) }
{
    let mut values = Vec::new(alloc);
    values.push(pair.1)?;
    groups.push((pair.0, values))?;
    Ok(())
}

/// Adds a group and a pair after it: together where they have one key.
fn push_last_and<K: PartialEq + Copy, V: Copy, A: Allocator + Copy>(
    groups: &mut Vec<Group<K, V, A>, A>,
    alloc: A,
    last: Group<K, V, A>,
    pair: (K, V),
) -> Result<(), AllocError>
    ensures { OnOk result (map (λ g. (g.0, g.1.items)) groups.new.items
        ≡ map (λ g. (g.0, g.1.items)) groups.old.items
        ++ last_and K.eq (last.0, last.1.items) pair) }
{
    let (key, mut values) = last;
    if key == pair.0 {
        values.push(pair.1)?;
        groups.push((key, values))?;
        return Ok(());
    }
    groups.push((key, values))?;
    push_new(groups, alloc, pair)
}

/// Adds a pair: to the last group where that has its key, or else as a group of its own.
fn add<K: PartialEq + Copy, V: Copy, A: Allocator + Copy>(
    groups: &mut Vec<Group<K, V, A>, A>,
    alloc: A,
    pair: (K, V),
) -> Result<(), AllocError>
    ensures { OnOk result (map (λ g. (g.0, g.1.items)) groups.new.items
        ≡ added K.eq (map (λ g. (g.0, g.1.items)) groups.old.items) pair) }
{
    match groups.pop() {
        Some(last) => push_last_and(groups, alloc, last, pair),
        None => push_new(groups, alloc, pair),
    }
}

/// The groups of pairs of which those with one key stand in a row.
fn grouped<K: PartialEq + Copy, V: Copy, A: Allocator + Copy>(
    alloc: A,
    pairs: &[(K, V)],
) -> Result<Vec<Group<K, V, A>, A>, AllocError>
    ensures { IfOk result (λ groups. map (λ g. (g.0, g.1.items)) groups.items
        ≡ grouped K.eq pairs.now) }
{
    let mut groups = Vec::new(alloc);
    for pair in pairs {
        add(&mut groups, alloc, *pair)?;
    }
    Ok(groups)
}

/// Whether a group has several values.
fn has_several<K, V, A: Allocator>(group: &Group<K, V, A>) -> bool
    ensures { result ≡ nat_lt 1 (length group.now.1.items) }
{
    group.1.len() > 1
}

/// The groups of several values.
fn with_several<K: Copy, V: Copy, A: Allocator + Copy>(
    alloc: A,
    groups: Vec<Group<K, V, A>, A>,
) -> Result<Vec<Group<K, V, A>, A>, AllocError>
    ensures { IfOk result (λ found. found.items
        ≡ filter (λ g. nat_lt 1 (length g.1.items)) groups.items) }
{
    groups
        .into_iter()
        .filter(|group| has_several(group))
        .collect(alloc)
}

/// The keys that several pairs in a row have, each with their values, in the order of the pairs.
///
/// # Errors
///
/// Memory ran out.
pub fn several<K: PartialEq + Copy, V: Copy, A: Allocator + Copy>(
    alloc: A,
    pairs: &[(K, V)],
) -> Result<Vec<(K, Vec<V, A>), A>, AllocError>
    ensures { IfOk result (λ groups. map (λ g. (g.0, g.1.items)) groups.items
        ≡ several K.eq pairs.now) }
{
    let groups = grouped(alloc, pairs)?;
    with_several(alloc, groups)
}
