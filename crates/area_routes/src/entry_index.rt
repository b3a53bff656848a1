//! Router entries by their routers.

ghost use Rattle.std.specs.Prelude.{◌≡◌, ◌++◌, ◌∷◌, [], true, List, IfOk, OnOk};
ghost use Rattle.std.specs.Map.{lookup};
ghost use Rattle.std.specs.Option.{option_copied};
ghost use Rattle.std.specs.Ordering.{eq_by_cmp};
ghost use Rattle.area_routes.specs.steps.EntryIndex.{IsIndexOf};
ghost use Rattle.area_routes.specs.Inter.{same_kind};
ghost use Rattle.lsa_codec.specs.Order.{router_cmp};
ghost use Rattle.area_routes.specs.Values.{EntryValue};

use crate::entry::{EntryKind, RouterEntry};
use lsa_codec::RouterId;
use std::alloc::{AllocError, Allocator};
use std::collections::BTreeMap;
use std::marker::Model;

/// An entry by reference. Contracts see it as the entry's value.
#[derive(Drop)]
struct EntryRef<'a, A: Allocator> {
    entry: &'a RouterEntry<A>,
}

impl<'a, A: Allocator> Model for EntryRef<'a, A> {
    ghost use Rattle.area_routes.specs.Values.{EntryValue};

    ghost Value = { EntryValue };

    ghost view = { λ m. m.entry.now };
}

/// The entries of one kind, by router. Contracts see it as the list of the pairs, in order of the
/// routers.
#[derive(Drop)]
pub(crate) struct EntryIndex<'a, A: Allocator> {
    by_router: BTreeMap<RouterId, EntryRef<'a, A>, A>,
}

impl<'a, A: Allocator> Model for EntryIndex<'a, A> {
    ghost use Rattle.std.specs.Prelude.{List};
    ghost use Rattle.lsa_codec.specs.declared.address.RouterId.{RouterId};
    ghost use Rattle.area_routes.specs.Values.{EntryValue};

    ghost Value = { List (RouterId × EntryValue) };

    ghost view = { λ i. i.by_router.entries };
}

impl<'a, A: Allocator + Copy> EntryIndex<'a, A> {
    /// The entries of a kind among these.
    pub(crate) fn of(
        alloc: A,
        entries: &'a [RouterEntry<A>],
        kind: EntryKind,
    ) -> Result<EntryIndex<'a, A>, AllocError>
        ensures { IfOk result (IsIndexOf kind entries.now) }
    {
        let mut by_router = BTreeMap::new(alloc);
        for entry in entries {
            insert_entry(&mut by_router, entry, kind)?;
        }
        Ok(EntryIndex { by_router })
    }

    /// Whether there is no entry of the kind.
    pub(crate) fn is_empty(&self) -> bool
        ensures { result ≡ true → self.now ≡ [] }
    {
        self.by_router.is_empty()
    }

    /// The entry of a router.
    pub(crate) fn get(&self, router: RouterId) -> Option<&'a RouterEntry<A>>
        ensures { option_copied result ≡ lookup (eq_by_cmp router_cmp router) self.now }
    {
        match self.by_router.get(&router) {
            Some(found) => Some(found.entry),
            None => None,
        }
    }
}

/// Adds an entry of the kind, unless its router has one.
fn insert_entry<'a, A: Allocator + Copy>(
    by_router: &mut BTreeMap<RouterId, EntryRef<'a, A>, A>,
    entry: &'a RouterEntry<A>,
    kind: EntryKind,
) -> Result<(), AllocError>
    ensures { OnOk result ((entries : List EntryValue)
        → IsIndexOf kind entries by_router.old.entries
        → IsIndexOf kind (entries ++ entry.now ∷ []) by_router.new.entries) }
{
    if !is_of(entry, kind) || by_router.contains_key(&entry.router) {
        return Ok(());
    }
    by_router.insert(entry.router, EntryRef { entry })?;
    Ok(())
}

/// Whether an entry is of a kind.
fn is_of<A: Allocator + Copy>(entry: &RouterEntry<A>, kind: EntryKind) -> bool
    ensures { result ≡ same_kind entry.now.kind kind }
{
    entry.kind == kind
}
