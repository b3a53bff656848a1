//! What differs for a router.

ghost use Rattle.std.specs.Prelude.{◌≡◌, ◌++◌, ◌∷◌, [], map, IfOk, OnOk};
ghost use Rattle.std.specs.Option.{option_copied};
ghost use Rattle.comparison.specs.Named.{changes_between, group_of, is_announced_now, name_of, names_by, router_name, unchanged_by};

use crate::databases::Databases;
use crate::rerouted::rerouted;
use change_lines::{ChangeGroup, ChangeName};
use forwarding::RouterRoutes;
use lsa_codec::{Prefix, RouterId};
use router_entries::Entries;
use std::alloc::{AllocError, Allocator};
use table_changes::{Change, PrefixChange, TableChanges};

/// Whether somebody announces a prefix.
fn is_announced<A: Allocator + Copy>(both: &Databases<'_, '_, A>, net: Prefix) -> bool
    ensures { result ≡ is_announced_now both.now net }
{
    let baseline = both.was_announced();
    both.is_announced().is_announced(baseline, net)
}

/// The group of a change.
fn group_of(is_announced: bool, change: Change) -> ChangeGroup
    ensures { result ≡ group_of is_announced change }
{
    match change {
        Change::Missing if is_announced => ChangeGroup::Lost,
        Change::Missing => ChangeGroup::Gone,
        Change::Gained => ChangeGroup::Gained,
        Change::OtherKind => ChangeGroup::OtherKind,
        Change::Costlier => ChangeGroup::Dearer,
        Change::Cheaper => ChangeGroup::Cheaper,
        Change::Moved => ChangeGroup::Moved,
    }
}

/// The name of a change for a prefix of a router.
fn name_of<A: Allocator + Copy>(
    both: &Databases<'_, '_, A>,
    router: RouterId,
    found: PrefixChange,
) -> ChangeName
    ensures { result ≡ name_of both.now router found }
{
    ChangeName {
        group: group_of(is_announced(both, found.net), found.change),
        router,
        net: Some(found.net),
    }
}

/// Adds the names of changes for prefixes of a router.
fn push_names<A: Allocator + Copy>(
    names: &mut Vec<ChangeName, A>,
    both: &Databases<'_, '_, A>,
    router: RouterId,
    changes: &[PrefixChange],
) -> Result<(), AllocError>
    ensures { OnOk result (names.new.items
        ≡ names.old.items ++ map (name_of both.now router) changes.now) }
{
    for found in changes {
        names.push(name_of(both, router, *found))?;
    }
    Ok(())
}

/// What differs for a router that is attached in both databases.
fn changes_between<A: Allocator + Copy>(
    alloc: A,
    both: &Databases<'_, '_, A>,
    was: &RouterRoutes<A>,
    is: &RouterRoutes<A>,
) -> Result<TableChanges<A>, AllocError>
    ensures { IfOk result (λ found. found ≡ changes_between both.now was.now is.now) }
{
    let rerouted = rerouted(alloc, both, is)?;
    TableChanges::between(alloc, &rerouted, &Entries::of(was), &Entries::of(is))
}

/// Adds what differs for a router that is attached in both databases, and returns the number of
/// prefixes for which nothing does.
fn push_between<A: Allocator + Copy>(
    names: &mut Vec<ChangeName, A>,
    alloc: A,
    both: &Databases<'_, '_, A>,
    router: RouterId,
    was: &RouterRoutes<A>,
    is: &RouterRoutes<A>,
) -> Result<u64, AllocError>
    ensures names { OnOk result (names.new.items ≡ names.old.items
        ++ map (name_of both.now router)
        (changes_between both.now was.now is.now).changes) }
    ensures unchanged { IfOk result
        (λ count. count ≡ (changes_between both.now was.now is.now).unchanged) }
{
    let found = changes_between(alloc, both, was, is)?;
    push_names(names, both, router, found.as_slice())?;
    Ok(found.unchanged() as u64)
}

/// Adds that a router came or went, and returns 0.
fn push_router<A: Allocator + Copy>(
    names: &mut Vec<ChangeName, A>,
    group: ChangeGroup,
    router: RouterId,
) -> Result<u64, AllocError>
    ensures names { OnOk result (names.new.items
        ≡ names.old.items ++ router_name group router ∷ []) }
    ensures none { IfOk result (λ count. count ≡ 0) }
{
    names.push(ChangeName {
        group,
        router,
        net: None,
    })?;
    Ok(0)
}

/// Adds what differs for a router, and returns the number of prefixes for which nothing does.
///
/// # Errors
///
/// Memory ran out.
pub(crate) fn push_changes<A: Allocator + Copy>(
    names: &mut Vec<ChangeName, A>,
    alloc: A,
    both: &Databases<'_, '_, A>,
    router: RouterId,
    was: Option<&RouterRoutes<A>>,
    is: Option<&RouterRoutes<A>>,
) -> Result<u64, AllocError>
    ensures names { OnOk result (names.new.items ≡ names.old.items
        ++ names_by both.now router (option_copied was.entry) (option_copied is.entry)) }
    ensures unchanged { IfOk result (λ count. count
        ≡ unchanged_by both.now (option_copied was.entry) (option_copied is.entry)) }
{
    match (was, is) {
        (Some(was), Some(is)) => push_between(names, alloc, both, router, was, is),
        (Some(_), None) => push_router(names, ChangeGroup::RouterGone, router),
        (None, Some(_)) => push_router(names, ChangeGroup::RouterNew, router),
        (None, None) => Ok(0),
    }
}
