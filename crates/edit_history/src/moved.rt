//! The edits that a history last moved over.

ghost use Rattle.std.specs.Prelude.{◌≡◌, ◌-◌, Bool, IfSome, drop, length, min, take};
ghost use Rattle.std.specs.List.{list_any};
ghost use Rattle.lsdb.specs.Slots.{Slots};
ghost use Rattle.edit_history.specs.Exchange.{RecordData, changes_as_scope, touches};
ghost use Rattle.edit_history.specs.Journal.{Links};
ghost use Rattle.edit_history.specs.Moving.{IsOneChange, moved_records, moved_touches};
ghost use Rattle.edit_history.specs.Session.{session_of};
ghost use Rattle.edit_history.specs.steps.Holding.{HoldsOne};

use crate::history::History;
use crate::record::Record;
use lsa_codec::{AreaId, Lsa};
use lsdb::SlotId;
use std::alloc::{Allocator, Global};

/// The edits that a history last moved over: it carried them out, or took them back.
#[derive(Clone, Copy, Debug)]
pub enum Moved {
    /// The last done edits, this number of them or all, were carried out.
    On(usize),
    /// The first undone edits, this number of them or all, were taken back.
    Back(usize),
}

/// An LSA that an edit, or taking one back, rewrote or removed: its slot, and the LSA as it was
/// before.
#[derive(Drop)]
pub struct Change<'a, A: Allocator = Global> {
    /// The slot.
    pub slot: SlotId,
    /// The LSA that was there.
    pub before: &'a Lsa<A>,
}

/// The slot and the LSA that a record holds, where it is of one slot and the database lacks an
/// LSA there.
fn held_change<A: Allocator + Copy>(kept: &Record<A>) -> Option<Change<'_, A>>
    ensures { IfSome result (λ change. HoldsOne kept.now change.slot change.before.now) }
{
    let swap = kept.only_swap()?;
    let before = swap.other()?;
    Some(Change {
        slot: swap.slot(),
        before,
    })
}

/// Whether one of some records touches an area.
fn any_touches<A: Allocator + Copy>(records: &[Record<A>], area: AreaId) -> bool
    ensures { result ≡ list_any (touches area) records.now }
{
    records.iter().any(|record| record.touches(area))
}

/// Whether one of some records changes LSAs of AS scope. The database has `areas` areas.
fn any_changes_as_scope<A: Allocator + Copy>(records: &[Record<A>], areas: usize) -> bool
    ensures { result ≡ list_any (changes_as_scope areas) records.now }
{
    records.iter().any(|record| record.changes_as_scope(areas))
}

/// The last records, at most this number of them.
fn last_of<A: Allocator>(records: &[Record<A>], count: usize) -> &[Record<A>]
    ensures { result.now ≡ drop (length records.now - count) records.now }
{
    &records[records.len().saturating_sub(count)..]
}

/// The first records, at most this number of them.
fn first_of<A: Allocator>(records: &[Record<A>], count: usize) -> &[Record<A>]
    ensures { result.now ≡ take (min count (length records.now)) records.now }
{
    &records[..count.min(records.len())]
}

impl<A: Allocator + Copy> History<A> {
    /// The records of the edits.
    fn moved_records(&self, moved: Moved) -> &[Record<A>]
        ensures { (test : RecordData → Bool) → list_any test result.now
            ≡ list_any test (moved_records moved self.now.lists) }
    {
        match moved {
            Moved::On(count) => last_of(self.done_records(), count),
            Moved::Back(count) => first_of(self.undone_records(), count),
        }
    }

    /// Whether one of the edits touches an area: it rewrote, removed or added a router-LSA or
    /// network-LSA of the area. These make up the area's graph (RFC 2328, 16.1); where none of the
    /// edits touches them, they are as they were before. It takes no memory.
    pub fn touches(&self, moved: Moved, area: AreaId) -> bool
        ensures { (d : Slots) → Links d self.now.lists
            → result ≡ moved_touches moved area (session_of d self.now.lists) }
    {
        any_touches(self.moved_records(moved), area)
    }

    /// Whether one of the edits rewrote, removed or added an LSA of AS scope, in a database with
    /// `areas` areas. Where none did, those LSAs are as they were before. It takes no memory.
    pub fn changes_as_scope(&self, moved: Moved, areas: usize) -> bool
        ensures { result
            ≡ list_any (changes_as_scope areas) (moved_records moved self.now.lists) }
    {
        any_changes_as_scope(self.moved_records(moved), areas)
    }

    /// The change of the one LSA that was rewritten or removed, where one edit was carried out, or
    /// taken back, and nothing else was done; otherwise `None`. It takes no memory.
    pub fn one_change(&self, moved: Moved) -> Option<Change<'_, A>>
        ensures { IfSome result (λ change. (d : Slots) → Links d self.now.lists
            → IsOneChange moved d self.now.lists change.slot change.before.now) }
    {
        match moved {
            Moved::On(1) => held_change(self.done_records().last()?),
            Moved::Back(1) => held_change(self.undone_records().first()?),
            _ => None,
        }
    }
}
