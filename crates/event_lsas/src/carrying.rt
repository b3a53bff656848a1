//! The slots that an event changes.

ghost use Rattle.std.specs.Prelude.{◌≡◌, ◌++◌, IsSome, IfOk, IfErr, OnOk, Ok, option_to_list};
ghost use Rattle.lsdb.specs.declared.section.Section.TheVariants.{Area};
ghost use Rattle.lsdb.specs.Slots.{item_at, slot_at, slots_in, head_or_none, lists_of};
ghost use Rattle.event_lsas.specs.Outcomes.{where_chosen, section_name, changed_slots};
ghost use Rattle.event_lsas.specs.LinkEvents.{outcome_of, link_event, AreChanges, IsRefusal};
ghost use Rattle.event_lsas.specs.SlotChanges.{change_at, section_changes, changes_from};

use crate::fault::{ChangeFault, of_event};
use crate::rebuilding::change_for;
use crate::slot_change::SlotChange;
use event_links::{ChosenLinks, LinkEdit, LinkEvent, chosen_in, resolve};
use lsa_codec::AreaId;
use lsa_remaking::LinkChange;
use lsdb::{Database, SlotId};
use std::alloc::{AllocError, Allocator};

/// Adds the change of a slot of an area, if its LSA changes.
fn add_change<A: Allocator + Copy>(
    database: &Database<A>,
    slot: SlotId,
    area: AreaId,
    change: LinkChange,
    chosen: &ChosenLinks<A>,
    changes: &mut Vec<SlotChange<A>, A>,
) -> Result<(), AllocError>
    ensures { OnOk result (changes.new.items ≡ changes.old.items
        ++ option_to_list (change_at (where_chosen change chosen.now) slot (Area area)
        (slot_at database.now slot))) }
{
    let Some(lsa) = database.get(slot) else {
        return Ok(());
    };
    let Some(new) = change_for(database.alloc(), slot, area, lsa, change, chosen)? else {
        return Ok(());
    };
    changes.push(new)?;
    Ok(())
}

/// Adds the changes of the slots of an area, by its number and its ID.
fn add_area_changes<A: Allocator + Copy>(
    database: &Database<A>,
    number: usize,
    area: AreaId,
    change: LinkChange,
    chosen: &ChosenLinks<A>,
    changes: &mut Vec<SlotChange<A>, A>,
) -> Result<(), AllocError>
    requires { IsSome (item_at database.now number) }
    ensures { OnOk result (changes.new.items ≡ changes.old.items
        ++ section_changes (where_chosen change chosen.now) number (Area area) 0
        (slots_in database.now number)) }
{
    for index in 0..database.slot_count(number) {
        let slot = SlotId {
            section: number,
            index,
        };
        add_change(database, slot, area, change, chosen, changes)?;
    }
    Ok(())
}

/// Adds the changes of the slots of a section, by its number.
fn add_section_changes<A: Allocator + Copy>(
    database: &Database<A>,
    number: usize,
    edit: LinkEdit,
    changes: &mut Vec<SlotChange<A>, A>,
) -> Result<(), AllocError>
    requires { IsSome (item_at database.now number) }
    ensures { OnOk result (let head = head_or_none (item_at database.now number) in
        changes.new.items ≡ changes.old.items
        ++ section_changes (outcome_of (lists_of database.now) edit head) number
        (section_name head) 0 (slots_in database.now number)) }
{
    let Some((area, _)) = database.area_in(number) else {
        return Ok(());
    };
    let chosen = chosen_in(database, area, edit.selection)?;
    add_area_changes(database, number, area, edit.change, &chosen, changes)
}

/// The slots that change where links do.
fn changes_of<A: Allocator + Copy>(
    database: &Database<A>,
    edit: LinkEdit,
) -> Result<Vec<SlotChange<A>, A>, AllocError>
    ensures { IfOk result (λ v. v.items
        ≡ changes_from (outcome_of (lists_of database.now) edit) 0 database.now) }
{
    let mut changes = Vec::new(database.alloc());
    for number in 0..database.section_count() {
        add_section_changes(database, number, edit, &mut changes)?;
    }
    Ok(changes)
}

/// The slots that an event changes, each with the LSA that it gets: the database with them is the
/// one after the event.
///
/// # Errors
///
/// `Refused` with the first refusal of the event; `OutOfMemory` before or after.
pub fn link_changes<A: Allocator + Copy>(
    database: &Database<A>,
    event: LinkEvent,
) -> Result<Vec<SlotChange<A>, A>, ChangeFault>
    ensures changes { IfOk result (λ v. AreChanges database.now event v.items) }
    ensures leads { IfOk result (λ v. link_event (lists_of database.now) event
        ≡ Ok (lists_of (changed_slots database.now v.items))) }
    ensures refused { IfErr result (λ fault.
        IsRefusal fault (link_event (lists_of database.now) event)) }
{
    match resolve(database, event) {
        Ok(edit) => match changes_of(database, edit) {
            Ok(changes) => Ok(changes),
            Err(_) => Err(ChangeFault::OutOfMemory),
        },
        Err(fault) => Err(of_event(fault)),
    }
}
