//! The slots that a departure changes.

ghost use Rattle.std.specs.Prelude.{◌≡◌, ◌++◌, IsSome, IfOk, IfErr, OnOk, option_to_list};
ghost use Rattle.lsdb.specs.declared.section.Section.TheVariants.{Area, AsWide};
ghost use Rattle.lsdb.specs.Slots.{item_at, slot_at, slots_in, head_or_none, lists_of};
ghost use Rattle.event_lsas.specs.Outcomes.{section_name};
ghost use Rattle.event_lsas.specs.SlotChanges.{change_at, section_changes, changes_from};
ghost use Rattle.network_departures.specs.Leaving.{networks_left};
ghost use Rattle.departures.specs.Departures.{area_lsa_after, as_lsa_after, outcome_of, departure, AreDepartures, IsRefusal};

use crate::fault::{DepartureFault, unmade};
use crate::lsas_after::{area_lsa_after, as_lsa_after};
use crate::refusing::fault_of;
use event_lsas::SlotChange;
use lsa_codec::{AreaId, Lsa};
use lsa_remaking::RemakeFault;
use lsdb::{Database, SlotId};
use network_departures::{Departure, networks_left};
use std::alloc::{AllocError, Allocator};

/// Adds an item, if there is one.
fn push_some<T: Drop, A: Allocator>(
    items: &mut Vec<T, A>,
    item: Option<T>,
) -> Result<(), AllocError>
    ensures { OnOk result (items.new.items ≡ items.old.items ++ option_to_list item) }
{
    if let Some(item) = item {
        items.push(item)?;
    }
    Ok(())
}

/// The change of a slot of an area, where there is an LSA that changes.
fn change_in_area<A: Allocator + Copy>(
    database: &Database<A>,
    event: &Departure,
    area: AreaId,
    networks: &[Lsa<A>],
    slot: SlotId,
) -> Result<Option<SlotChange<A>>, RemakeFault>
    requires { networks.now ≡ networks_left (lists_of database.now) event.now area }
    ensures { IfOk result (λ change. change
        ≡ change_at (area_lsa_after (lists_of database.now) event.now area) slot (Area area)
        (slot_at database.now slot)) }
{
    match database.get(slot) {
        Some(lsa) => area_lsa_after(database, event, area, networks, slot, lsa),
        None => Ok(None),
    }
}

/// Adds the changes of the slots of an area, by its number and its ID.
fn add_area<A: Allocator + Copy>(
    changes: &mut Vec<SlotChange<A>, A>,
    database: &Database<A>,
    event: &Departure,
    number: usize,
    area: AreaId,
) -> Result<(), RemakeFault>
    requires { IsSome (item_at database.now number) }
    ensures { OnOk result (changes.new.items ≡ changes.old.items
        ++ section_changes (area_lsa_after (lists_of database.now) event.now area) number
        (Area area) 0 (slots_in database.now number)) }
{
    let networks = networks_left(database, event, area)?;
    for index in 0..database.slot_count(number) {
        let slot = SlotId {
            section: number,
            index,
        };
        let change = change_in_area(database, event, area, &networks, slot)?;
        push_some(changes, change)?;
    }
    Ok(())
}

/// The change of a slot of the LSAs of AS scope, where there is one that changes.
fn change_in_as<A: Allocator + Copy>(
    database: &Database<A>,
    event: &Departure,
    slot: SlotId,
) -> Option<SlotChange<A>>
    ensures { result
        ≡ change_at (as_lsa_after event.now) slot AsWide (slot_at database.now slot) }
{
    match database.get(slot) {
        Some(lsa) => as_lsa_after(event, slot, lsa),
        None => None,
    }
}

/// Adds the changes of the slots of the LSAs of AS scope, by the number of their section.
fn add_as_wide<A: Allocator + Copy>(
    changes: &mut Vec<SlotChange<A>, A>,
    database: &Database<A>,
    event: &Departure,
    number: usize,
) -> Result<(), RemakeFault>
    requires { IsSome (item_at database.now number) }
    ensures { OnOk result (changes.new.items ≡ changes.old.items
        ++ section_changes (as_lsa_after event.now) number AsWide 0
        (slots_in database.now number)) }
{
    for index in 0..database.slot_count(number) {
        let slot = SlotId {
            section: number,
            index,
        };
        push_some(changes, change_in_as(database, event, slot))?;
    }
    Ok(())
}

/// Adds the changes of the slots of a section, by its number.
fn add_section<A: Allocator + Copy>(
    changes: &mut Vec<SlotChange<A>, A>,
    database: &Database<A>,
    event: &Departure,
    number: usize,
) -> Result<(), RemakeFault>
    requires { IsSome (item_at database.now number) }
    ensures { OnOk result (let head = head_or_none (item_at database.now number) in
        changes.new.items ≡ changes.old.items
        ++ section_changes (outcome_of (lists_of database.now) event.now head) number
        (section_name head) 0 (slots_in database.now number)) }
{
    let Some((area, _)) = database.area_in(number) else {
        return add_as_wide(changes, database, event, number);
    };
    add_area(changes, database, event, number, area)
}

/// The slots that change where a router goes.
fn slots_after<A: Allocator + Copy>(
    database: &Database<A>,
    event: &Departure,
) -> Result<Vec<SlotChange<A>, A>, RemakeFault>
    ensures { IfOk result (λ v. v.items
        ≡ changes_from (outcome_of (lists_of database.now) event.now) 0 database.now) }
{
    let mut changes = Vec::new(database.alloc());
    for number in 0..database.section_count() {
        add_section(&mut changes, database, event, number)?;
    }
    Ok(changes)
}

/// The slots that a departure changes, each with the LSA that it gets, in their order.
///
/// # Errors
///
/// `NoRouter`, then `NotOnNetwork`; then `NotMade` where an LSA could not be rebuilt;
/// `OutOfMemory` before or after.
#[tactic(auto, using(crate::proofs::Refusals::happen, crate::proofs::Refusals::refused, crate::proofs::Refusals::late))]
pub fn departure_changes<A: Allocator + Copy>(
    database: &Database<A>,
    event: &Departure,
) -> Result<Vec<SlotChange<A>, A>, DepartureFault>
    ensures changes { IfOk result (λ v. AreDepartures database.now event.now v.items) }
    ensures refused { IfErr result (λ fault.
        IsRefusal fault (departure (lists_of database.now) event.now)) }
{
    let refusal = fault_of(database, event)?;
    if let Some(fault) = refusal {
        return Err(fault);
    }
    match slots_after(database, event) {
        Ok(changes) => Ok(changes),
        Err(fault) => Err(unmade(fault)),
    }
}
