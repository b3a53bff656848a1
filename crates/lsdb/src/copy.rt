//! A copy of a database.

ghost use Rattle.std.specs.Prelude.{◌≡◌, IfOk};
ghost use Rattle.lsdb.specs.steps.View.{slots_of};

use crate::database::{Database, SectionOf};
use lsa_codec::Lsa;
use std::alloc::{AllocError, Allocator};

impl<A: Allocator + Copy> Database<A> {
    /// A database with the same LSAs at the same slots, with an allocator like its own.
    pub fn clone_of(&self) -> Result<Database<A>, AllocError>
        ensures { IfOk result (λ copy. copy ≡ self.now) }
    {
        let sections = copy_of_sections(self.alloc, &self.sections)?;
        Ok(Database {
            sections,
            byte_count: self.byte_count,
            alloc: self.alloc,
        })
    }
}

fn copy_of_sections<A: Allocator + Copy>(
    alloc: A,
    sections: &[SectionOf<A>],
) -> Result<Vec<SectionOf<A>, A>, AllocError>
    ensures { IfOk result (λ copy. slots_of copy.items ≡ slots_of sections.now) }
{
    let mut copy = Vec::with_capacity(alloc, sections.len())?;
    for section in sections {
        let slots = section.slots.clone_of(alloc)?;
        copy.push(SectionOf {
            area: section.area,
            slots,
        })?;
    }
    Ok(copy)
}

/// A copy of each slot.
pub(crate) fn copy_of_slots<A: Allocator + Copy>(
    alloc: A,
    slots: &[Option<Lsa<A>>],
) -> Result<Vec<Option<Lsa<A>>, A>, AllocError>
    ensures { IfOk result (λ copy. copy.items ≡ slots.now) }
{
    let mut copy = Vec::with_capacity(alloc, slots.len())?;
    for slot in slots {
        copy.push(copy_of_slot(alloc, slot)?)?;
    }
    Ok(copy)
}

fn copy_of_slot<A: Allocator + Copy>(
    alloc: A,
    slot: &Option<Lsa<A>>,
) -> Result<Option<Lsa<A>>, AllocError>
    ensures { IfOk result (λ copy. copy ≡ slot.now) }
{
    match slot {
        Some(lsa) => Ok(Some(lsa.clone_of(alloc)?)),
        None => Ok(None),
    }
}
