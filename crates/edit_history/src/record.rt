//! The record of an edit that was carried out.

ghost use Rattle.std.specs.Prelude.{◌≡◌, ◌∷◌, [], IfSome, length};
ghost use Rattle.edit_history.specs.Exchange.{CanDo, CanUndo, changes_as_scope, done_slots, done_swaps, undone_slots, redone, undone, touches};

use crate::swap::{Swap, do_swaps, undo_swaps};
use edit_script::Edit;
use lsa_codec::AreaId;
use lsdb::Database;
use std::alloc::{Allocator, Global};
use std::marker::Model;

/// An edit that was carried out, and the side that the database lacks of each LSA that it changed:
/// the old bytes once the edit is done, the new ones once it is undone.
#[derive(Drop)]
pub struct Record<A: Allocator = Global> {
    edit: Edit,
    swaps: Vec<Swap<A>, A>,
}

impl<A: Allocator> Model for Record<A> {
    ghost use Rattle.edit_history.specs.Exchange.{RecordData};

    ghost Value = { RecordData };

    ghost view = { λ r. record { edit = r.edit; swaps = r.swaps.items } };
}

impl<A: Allocator + Copy> Record<A> {
    /// Does the swaps of an edit, and keeps what undoes them.
    pub(crate) fn commit(
        database: &mut Database<A>,
        edit: Edit,
        swaps: Vec<Swap<A>, A>,
    ) -> Record<A>
        requires { CanDo database.old swaps.items }
        ensures database { database.new ≡ done_slots database.old swaps.items }
        ensures result { result
            ≡ record { edit = edit; swaps = done_swaps database.old swaps.items } }
    {
        let mut swaps = swaps;
        do_swaps(database, &mut swaps);
        Record { edit, swaps }
    }

    /// The edit.
    pub fn edit(&self) -> Edit
        ensures { result ≡ self.now.edit }
    {
        self.edit
    }

    /// The number of LSAs that the edit rewrote, removed or added.
    pub fn len(&self) -> usize
        ensures { result ≡ length self.now.swaps }
    {
        self.swaps.len()
    }

    /// The swap of the edit, where it has exactly one.
    pub(crate) fn only_swap(&self) -> Option<&Swap<A>>
        ensures { IfSome result (λ swap. self.now.swaps ≡ swap.now ∷ []) }
    {
        match self.swaps.as_slice() {
            [swap] => Some(swap),
            _ => None,
        }
    }

    /// Whether a router-LSA or network-LSA of the area was among them: those that make up the
    /// area's graph (RFC 2328, 16.1).
    pub fn touches(&self, area: AreaId) -> bool
        ensures { result ≡ touches area self.now }
    {
        self.swaps.iter().any(|swap| swap.touches(area))
    }

    /// Whether an LSA of AS scope was among them. The database has `areas` areas.
    pub fn changes_as_scope(&self, areas: usize) -> bool
        ensures { result ≡ changes_as_scope areas self.now }
    {
        self.swaps.iter().any(|swap| swap.is_of_as_scope(areas))
    }
}

/// Takes an edit back: the database is again the one before it, byte for byte. It takes no
/// memory.
///
/// The database is the one after the edit. Empty slots at the ends of sections that were opened
/// since do not matter.
pub fn revert<A: Allocator + Copy>(database: &mut Database<A>, last: &mut Record<A>)
    requires { CanUndo database.old last.old.swaps }
    ensures database { database.new ≡ undone_slots database.old last.old.swaps }
    ensures taken { last.new ≡ undone database.old last.old }
{
    undo_swaps(database, &mut last.swaps);
}

/// Carries an edit out again: the database is again the one after it, byte for byte. It takes no
/// memory.
///
/// The database is the one before the edit. Empty slots at the ends of sections that were opened
/// since do not matter.
pub fn replay<A: Allocator + Copy>(database: &mut Database<A>, next: &mut Record<A>)
    requires { CanDo database.old next.old.swaps }
    ensures database { database.new ≡ done_slots database.old next.old.swaps }
    ensures taken { next.new ≡ redone database.old next.old }
{
    do_swaps(database, &mut next.swaps);
}
