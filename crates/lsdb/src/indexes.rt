//! The indexes of the slots of one section.

ghost use Rattle.std.specs.Prelude.{◌<◌, ◌≤◌, ◌++◌, ◌∷◌, [], List, None, length, OnOk, IfOk};
ghost use Rattle.lsdb.specs.Limits.{most_lsas_of_as};
ghost use Rattle.lsdb.specs.Slots.{Slot, put_slot};
ghost use Rattle.lsdb.specs.steps.Indexes.{AreIndexes};

use crate::origin::Origin;
use crate::slot_index::SlotIndex;
use lsa_codec::{Key, Lsa, RouterId};
use std::alloc::{AllocError, Allocator};

/// At which slots of one section LSAs of each key, of each router, and of each router for each
/// prefix stand, so that these are found without going through the slots.
#[derive(Drop)]
pub(crate) struct Indexes<A: Allocator> {
    pub(crate) keys: SlotIndex<Key, A>,
    pub(crate) routers: SlotIndex<RouterId, A>,
    pub(crate) prefixes: SlotIndex<Origin, A>,
}

impl<A: Allocator + Copy> Indexes<A> {
    /// Those of these slots. The error is want of memory.
    pub(crate) fn of(alloc: A, slots: &[Option<Lsa<A>>]) -> Result<Indexes<A>, AllocError>
        requires { length slots.now ≤ most_lsas_of_as }
        ensures { IfOk result (λ indexes. AreIndexes slots.now indexes) }
    {
        Ok(Indexes {
            keys: SlotIndex::of(alloc, slots)?,
            routers: SlotIndex::of(alloc, slots)?,
            prefixes: SlotIndex::of(alloc, slots)?,
        })
    }

    /// The same, with room for this number of slots. The error is want of memory.
    pub(crate) fn clone_of(&self, alloc: A, count: usize) -> Result<Indexes<A>, AllocError>
        ensures { IfOk result (λ copy. (slots : List Slot) → length slots ≤ count
            → AreIndexes slots self.now → AreIndexes slots copy) }
    {
        Ok(Indexes {
            keys: self.keys.clone_of(alloc, count)?,
            routers: self.routers.clone_of(alloc, count)?,
            prefixes: self.prefixes.clone_of(alloc, count)?,
        })
    }

    /// Makes room to note this number of slots. The error is want of memory, or that they are more
    /// than an index can distinguish; nothing that is noted changes.
    pub(crate) fn reserve_for(&mut self, count: usize) -> Result<(), AllocError>
        ensures kept { (slots : List Slot) → AreIndexes slots self.old
            → AreIndexes slots self.new }
        ensures opened { OnOk result ((slots : List Slot) → length slots < count
            → AreIndexes slots self.old → AreIndexes (slots ++ None ∷ []) self.new) }
    {
        self.keys.reserve_for(count)?;
        self.routers.reserve_for(count)?;
        self.prefixes.reserve_for(count)
    }

    /// Notes one of the slots, at which something else stood `before`. It takes no memory.
    pub(crate) fn note_slot(
        &mut self,
        slots: &[Option<Lsa<A>>],
        index: usize,
        before: &Option<Lsa<A>>,
    )
        requires within { index < length slots.now }
        requires before { AreIndexes (put_slot before.now slots.now index) self.old }
        ensures { AreIndexes slots.now self.new }
    {
        self.keys.note_slot(slots, index, before);
        self.routers.note_slot(slots, index, before);
        self.prefixes.note_slot(slots, index, before);
    }
}
