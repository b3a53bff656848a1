//! How the entries of a router differ.

ghost use Rattle.std.specs.Prelude.{◌≡◌, ◌++◌, [], IfOk, OnOk};
ghost use Rattle.std.specs.List.{cons_option, filter_map};
ghost use Rattle.std.specs.Option.{option_map};
ghost use Rattle.table_changes.specs.Changes.{change_at, changes_of, count_of, nets_of_both, with_net};

use crate::change::{Change, PrefixChange};
use crate::comparing::change_of;
use crate::equality::is_same_change;
use lsa_codec::Prefix;
use next_hops::Hop;
use router_entries::{Entries, EntryWalk};
use std::alloc::{AllocError, Allocator, Global};
use std::marker::Model;

/// How the entries of a router differ from those that it had: what differs for each prefix, in
/// order of prefix, and the number of prefixes for which nothing does.
#[derive(Drop)]
pub struct TableChanges<A: Allocator = Global> {
    changes: Vec<PrefixChange, A>,
    unchanged: usize,
}

impl<A: Allocator> Model for TableChanges<A> {
    ghost use Rattle.table_changes.specs.Changes.{ChangesValue};

    ghost Value = { ChangesValue };

    ghost view = { λ c. record { changes = c.changes.items; unchanged = c.unchanged } };
}

/// The prefixes that have an entry before or now, in order, each once.
fn nets_of_both<A: Allocator + Copy>(
    alloc: A,
    before: &Entries<'_, A>,
    now: &Entries<'_, A>,
) -> Result<Vec<Prefix, A>, AllocError>
    ensures { IfOk result (λ nets. nets.items ≡ nets_of_both before.now now.now) }
{
    let mut nets = before.nets(alloc)?;
    let mut more = now.nets(alloc)?;
    nets.append(&mut more)?;
    // Lists in order: a stable sort merges them.
    nets.sort()?;
    nets.dedup();
    Ok(nets)
}

/// Adds a prefix with what differs for it, if anything does.
fn push_change<A: Allocator + Copy>(
    changes: &mut Vec<PrefixChange, A>,
    net: Prefix,
    change: Option<Change>,
) -> Result<(), AllocError>
    ensures { OnOk result (changes.new.items
        ≡ changes.old.items ++ cons_option (option_map (with_net net) change) []) }
{
    if let Some(change) = change {
        changes.push(PrefixChange { net, change })?;
    }
    Ok(())
}

/// What differs for some prefixes, in their order.
fn changes_at<A: Allocator + Copy>(
    alloc: A,
    rerouted: &[Hop],
    nets: &[Prefix],
    before: &Entries<'_, A>,
    now: &Entries<'_, A>,
) -> Result<Vec<PrefixChange, A>, AllocError>
    ensures { IfOk result (λ changes. changes.items
        ≡ filter_map (change_at rerouted.now before.now now.now) nets.now) }
{
    let mut changes = Vec::new(alloc);
    let (mut earlier, mut present) = (EntryWalk::of(before), EntryWalk::of(now));
    for net in nets {
        let had = earlier.entry_for(*net);
        let has = present.entry_for(*net);
        push_change(
            &mut changes,
            *net,
            change_of(rerouted, had.as_ref(), has.as_ref()),
        )?;
    }
    Ok(changes)
}

impl<A: Allocator + Copy> TableChanges<A> {
    /// How the entries of now differ from those before. The hops of `rerouted` are those of the
    /// router that lead to other routers than they did: an entry over one of them has moved,
    /// though its hops are the same.
    ///
    /// # Errors
    ///
    /// Memory ran out.
    pub fn between(
        alloc: A,
        rerouted: &[Hop],
        before: &Entries<'_, A>,
        now: &Entries<'_, A>,
    ) -> Result<TableChanges<A>, AllocError>
        ensures { IfOk result (λ found. found
            ≡ changes_of rerouted.now before.now now.now) }
    {
        let nets = nets_of_both(alloc, before, now)?;
        let changes = changes_at(alloc, rerouted, nets.as_slice(), before, now)?;
        let unchanged = nets.len() - changes.len();
        Ok(TableChanges { changes, unchanged })
    }

    /// What differs, in order of prefix, for each at most once.
    pub fn as_slice(&self) -> &[PrefixChange]
        ensures { result.now ≡ self.now.changes }
    {
        self.changes.as_slice()
    }

    /// The number of prefixes for which something of a kind differs.
    pub fn count(&self, change: Change) -> usize
        ensures { result ≡ count_of change self.now.changes }
    {
        self.changes
            .iter()
            .filter(|found| is_same_change(found.change, change))
            .count()
    }

    /// The number of prefixes with an entry, before or now, for which nothing differs.
    pub fn unchanged(&self) -> usize
        ensures { result ≡ self.now.unchanged }
    {
        self.unchanged
    }
}
