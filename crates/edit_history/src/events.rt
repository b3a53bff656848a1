//! Events: links are cut, interfaces get another cost, a router is drained, fails or leaves a
//! network. The other routers originate their LSAs again (RFC 2328, 12.4.1 and 12.4.2).

ghost use Rattle.std.specs.Prelude.{◌≡◌, map, IfOk, IfErr};
ghost use Rattle.edit_script.specs.declared.edit.Edit.TheVariants.{Event as of_event};
ghost use Rattle.edit_history.specs.declared.happening.Happening.TheVariants.{OfLinks, Departs};
ghost use Rattle.edit_history.specs.Events.{departure_refusal, refusal_of};
ghost use Rattle.edit_history.specs.steps.Plans.{IsPlan};
ghost use Rattle.edit_history.specs.steps.Happening.{AreSwapsOf, IsRefusalOf, fault_by, swap_by};

use crate::fault::EditFault;
use crate::fitting::swaps_fit;
use crate::happening::{Happening, what_happens};
use crate::swap::Swap;
use departures::{DepartureFault, departure_changes};
use edit_script::Event;
use event_links::{EventFault, LinkEvent};
use event_lsas::{ChangeFault, SlotChange, link_changes};
use lsdb::Database;
use network_departures::Departure;
use std::alloc::{AllocError, Allocator};

/// The refusal of an event of links.
fn refusal(fault: EventFault) -> EditFault
    ensures { result ≡ refusal_of fault }
{
    match fault {
        EventFault::SameRouter => EditFault::SameRouter,
        EventFault::NoRouter(_) => EditFault::NoRouter,
        EventFault::NotNeighbors(..) => EditFault::NotNeighbors,
        EventFault::NoInterface(..) => EditFault::NoInterface,
        EventFault::UnclearEnd(..) => EditFault::UnclearEnd,
        EventFault::ZeroCost => EditFault::ZeroCost,
        EventFault::OutOfMemory => EditFault::OutOfMemory,
    }
}

/// Why an event of links is not carried out.
fn fault_of(fault: ChangeFault) -> EditFault
    ensures { result ≡ fault_by fault }
{
    match fault {
        ChangeFault::Refused(fault) => refusal(fault),
        ChangeFault::OutOfMemory => EditFault::OutOfMemory,
    }
}

/// Why a router does not go.
fn departure_refusal(fault: DepartureFault) -> EditFault
    ensures { result ≡ departure_refusal fault }
{
    match fault {
        DepartureFault::NoRouter(_) => EditFault::NoRouter,
        DepartureFault::NotOnNetwork(..) => EditFault::NotOnNetwork,
        DepartureFault::NotMade(_) | DepartureFault::OutOfMemory => EditFault::OutOfMemory,
    }
}

/// The swap of a slot that changes.
fn swap_by<A: Allocator + Copy>(change: SlotChange<A>) -> Swap<A>
    ensures { result ≡ swap_by change }
{
    let (slot, section, kind) = (change.slot(), change.section(), change.kind());
    Swap::new(slot, section, kind, change.into_lsa())
}

/// The swaps of the slots that change.
fn swaps_by<A: Allocator + Copy>(
    alloc: A,
    changes: Vec<SlotChange<A>, A>,
) -> Result<Vec<Swap<A>, A>, AllocError>
    ensures { IfOk result (λ v. v.items ≡ map swap_by changes.items) }
{
    changes
        .into_iter()
        .map(|change| swap_by(change))
        .collect(alloc)
}

/// The router-LSAs of routers whose links change do so in their places; one without links is
/// removed.
#[tactic(auto, using(crate::proofs::EventFates::links_swapped, crate::proofs::EventFates::links_refused, crate::proofs::EventFates::no_memory))]
fn link_swaps<A: Allocator + Copy>(
    database: &Database<A>,
    event: LinkEvent,
) -> Result<Vec<Swap<A>, A>, EditFault>
    ensures swaps { IfOk result (λ v. AreSwapsOf database.now (OfLinks event) v.items) }
    ensures refused { IfErr result (λ fault. IsRefusalOf database.now (OfLinks event) fault) }
{
    let changes = match link_changes(database, event) {
        Ok(changes) => changes,
        Err(fault) => return Err(fault_of(fault)),
    };
    match swaps_by(database.alloc(), changes) {
        Ok(swaps) => Ok(swaps),
        Err(_) => Err(EditFault::OutOfMemory),
    }
}

/// The LSAs of a router that fails are removed, a network that it leaves gets another network-LSA
/// in the place of the old one, or none, and the router-LSAs of the others change in their places.
#[tactic(auto, using(crate::proofs::DepartureFates::departure_swapped, crate::proofs::DepartureFates::departure_refused, crate::proofs::DepartureFates::key_taken, crate::proofs::EventFates::no_memory))]
fn departure_swaps<A: Allocator + Copy>(
    database: &Database<A>,
    event: Departure,
) -> Result<Vec<Swap<A>, A>, EditFault>
    ensures swaps { IfOk result (λ v. AreSwapsOf database.now (Departs event) v.items) }
    ensures refused { IfErr result (λ fault. IsRefusalOf database.now (Departs event) fault) }
{
    let changes = match departure_changes(database, &event) {
        Ok(changes) => changes,
        Err(fault) => return Err(departure_refusal(fault)),
    };
    let swaps = match swaps_by(database.alloc(), changes) {
        Ok(swaps) => swaps,
        Err(_) => return Err(EditFault::OutOfMemory),
    };
    if !swaps_fit(database, &swaps) {
        return Err(EditFault::KeyTaken);
    }
    Ok(swaps)
}

/// The swaps of what happens, or its first refusal.
fn swaps_of<A: Allocator + Copy>(
    database: &Database<A>,
    happens: Happening,
) -> Result<Vec<Swap<A>, A>, EditFault>
    ensures swaps { IfOk result (λ v. AreSwapsOf database.now happens v.items) }
    ensures refused { IfErr result (λ fault. IsRefusalOf database.now happens fault) }
{
    match happens {
        Happening::OfLinks(event) => link_swaps(database, event),
        Happening::Departs(event) => departure_swaps(database, event),
    }
}

/// The swaps of an event, or its first refusal.
#[tactic(auto, using(crate::proofs::EventFates::happening_planned, crate::proofs::EventFates::happening_refused, crate::proofs::RulesCarriedOut::no_memory_for_event))]
pub(crate) fn plan_event<A: Allocator + Copy>(
    database: &Database<A>,
    event: Event,
) -> Result<Vec<Swap<A>, A>, EditFault>
    ensures { IsPlan database.now database.now (of_event event) (λ v. v.items) result }
{
    // Its invariant is needed after each swap too.
    database.assert_valid();
    let Ok(happens) = what_happens(database, &event) else {
        return Err(EditFault::OutOfMemory);
    };
    match swaps_of(database, happens) {
        Ok(swaps) => Ok(swaps),
        Err(fault) => Err(fault),
    }
}
