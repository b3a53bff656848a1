//! What becomes of each LSA where a router goes.

ghost use Rattle.std.specs.Prelude.{◌≡◌, Some, ◌≤◌, ◌<◌, ◌^◌, length, IfOk};
ghost use Rattle.std.specs.List.{All};
ghost use Rattle.lsa_remaking.specs.Relinking.{IsWithin};
ghost use Rattle.lsdb.specs.declared.section.Section.TheVariants.{Area, AsWide};
ghost use Rattle.lsdb.specs.Slots.{lists_of};
ghost use Rattle.event_lsas.specs.Outcomes.{becomes, unless_empty};
ghost use Rattle.event_lsas.specs.SlotChanges.{slot_change};
ghost use Rattle.network_departures.specs.Leaving.{networks_left};
ghost use Rattle.departures.specs.Departures.{all_stay, is_stay, relinked_by, router_lsa_after, is_of_failed, area_lsa_after, as_lsa_after};

use event_lsas::SlotChange;
use lsa_codec::{AreaId, Lsa};
use lsa_remaking::{ChangedLink, LinkChange, RemakeFault, count_left, relink};
use lsdb::{Database, Section, SlotId};
use network_departures::{Departure, is_left, links_after, network_after};
use std::alloc::Allocator;

/// The change of a slot where another LSA takes the place of one, or none does.
fn change_to<A: Allocator + Copy>(
    new: Option<Lsa<A>>,
    slot: SlotId,
    section: Section,
    old: &Lsa<A>,
) -> SlotChange<A>
    ensures { Some result ≡ slot_change slot section old.now (becomes new) }
{
    SlotChange::new(slot, section, old.key().kind, new)
}

/// Whether a link stays as it is.
fn is_stay(changed: &ChangedLink) -> bool
    ensures { result ≡ is_stay changed.now.change }
{
    matches!(changed.change, LinkChange::Stays)
}

/// Whether all links stay as they are.
fn all_stay(links: &[ChangedLink]) -> bool
    ensures { result ≡ all_stay links.now }
{
    links.iter().all(|changed| is_stay(changed))
}

/// A router-LSA with these links; none where no link is left.
fn unless_empty<A: Allocator + Copy>(
    alloc: A,
    lsa: &Lsa<A>,
    links: &[ChangedLink],
) -> Result<Option<Lsa<A>>, RemakeFault>
    requires header { 24 ≤ length lsa.now }
    requires links { All (IsWithin lsa.now) links.now }
    requires few { length links.now < 2 ^ 16 }
    ensures { IfOk result (λ new. new ≡ unless_empty links.now lsa.now) }
{
    if count_left(links) == 0 {
        return Ok(None);
    }
    match relink(alloc, lsa, links) {
        Ok(new) => Ok(Some(new)),
        Err(fault) => Err(fault),
    }
}

/// The change of the slot of a router-LSA with these links, where one of them changes.
fn relinked_by<A: Allocator + Copy>(
    alloc: A,
    slot: SlotId,
    area: AreaId,
    lsa: &Lsa<A>,
    links: &[ChangedLink],
) -> Result<Option<SlotChange<A>>, RemakeFault>
    requires header { 24 ≤ length lsa.now }
    requires links { All (IsWithin lsa.now) links.now }
    requires few { length links.now < 2 ^ 16 }
    ensures { IfOk result (λ new. new
        ≡ slot_change slot (Area area) lsa.now (relinked_by links.now lsa.now)) }
{
    if all_stay(links) {
        return Ok(None);
    }
    let new = unless_empty(alloc, lsa, links)?;
    Ok(Some(change_to(new, slot, Section::Area(area), lsa)))
}

/// The change of the slot of a router-LSA, where one of its links changes.
#[tactic(auto, using(crate::proofs::LinksOfRouters::header, crate::proofs::LinksOfRouters::all_within, crate::proofs::LinksOfRouters::all_few, crate::proofs::RouterLsas::other_kept, crate::proofs::RouterLsas::old_kept, crate::proofs::RouterLsas::relinked))]
fn router_lsa_after<A: Allocator + Copy>(
    database: &Database<A>,
    event: &Departure,
    area: AreaId,
    networks: &[Lsa<A>],
    slot: SlotId,
    lsa: &Lsa<A>,
) -> Result<Option<SlotChange<A>>, RemakeFault>
    ensures { IfOk result (λ new. new ≡ slot_change slot (Area area) lsa.now
        (router_lsa_after (lists_of database.now) event.now area networks.now lsa.now)) }
{
    let Some(view) = lsa.router() else {
        return Ok(None);
    };
    if lsa.at_max_age() {
        return Ok(None);
    }
    let links = links_after(database, event, area, networks, lsa.key().adv, &view)?;
    relinked_by(database.alloc(), slot, area, lsa, &links)
}

/// Whether an LSA is one of a router that fails.
fn is_of_failed<A: Allocator + Copy>(event: &Departure, lsa: &Lsa<A>) -> bool
    ensures { result ≡ is_of_failed event.now lsa.now }
{
    event.fails() && lsa.key().adv.0 == event.router().0
}

/// The change of the slot of an LSA of an area, where these are the network-LSAs of the networks
/// there that are left.
#[tactic(auto, using(crate::proofs::AreaLsas::left, crate::proofs::AreaLsas::failed, crate::proofs::AreaLsas::other))]
pub(crate) fn area_lsa_after<A: Allocator + Copy>(
    database: &Database<A>,
    event: &Departure,
    area: AreaId,
    networks: &[Lsa<A>],
    slot: SlotId,
    lsa: &Lsa<A>,
) -> Result<Option<SlotChange<A>>, RemakeFault>
    requires { networks.now ≡ networks_left (lists_of database.now) event.now area }
    ensures { IfOk result (λ change. change ≡ slot_change slot (Area area) lsa.now
        (area_lsa_after (lists_of database.now) event.now area lsa.now)) }
{
    let section = Section::Area(area);
    if is_left(database, event, area, lsa) {
        let after = network_after(database, area, event.router(), lsa)?;
        return Ok(Some(change_to(after, slot, section, lsa)));
    }
    if is_of_failed(event, lsa) {
        return Ok(Some(change_to(None, slot, section, lsa)));
    }
    router_lsa_after(database, event, area, networks, slot, lsa)
}

/// The change of the slot of an LSA of AS scope.
pub(crate) fn as_lsa_after<A: Allocator + Copy>(
    event: &Departure,
    slot: SlotId,
    lsa: &Lsa<A>,
) -> Option<SlotChange<A>>
    ensures { result ≡ slot_change slot AsWide lsa.now (as_lsa_after event.now lsa.now) }
{
    if !is_of_failed(event, lsa) {
        return None;
    }
    Some(change_to(None, slot, Section::AsWide, lsa))
}
