//! Router-LSAs whose chosen links change.

ghost use Rattle.std.specs.Prelude.{◌≡◌, ◌<◌, ◌^◌, All, length, IfOk, IfErr};
ghost use Rattle.lsa_codec.specs.Accepted.{IsAccepted};
ghost use Rattle.lsa_codec.specs.Fields.{kind_of};
ghost use Rattle.lsdb.specs.declared.section.Section.TheVariants.{Area};
ghost use Rattle.lsa_codec.specs.LsTypes.{router_lsa};
ghost use Rattle.lsa_remaking.specs.Relinking.{IsWithin};
ghost use Rattle.event_lsas.specs.Outcomes.{can_replace, change_of_chosen, replaced, with_chosen, unless_empty, relinked_where, where_chosen};
ghost use Rattle.event_lsas.specs.SlotChanges.{slot_change};
ghost use Rattle.event_lsas.specs.steps.Keeping.{IsKeptFor};

use crate::slot_change::SlotChange;
use event_links::{ChosenLinks, is_among};
use lsa_codec::{AreaId, Key, Link, Lsa, RouterView};
use lsa_remaking::{ChangedLink, LinkChange, RemakeFault, count_left, relink};
use lsdb::{Section, SlotId};
use std::alloc::{AllocError, Allocator};

/// How a link changes, where the chosen ones do.
fn change_of(change: LinkChange, chosen: &[Link], link: Link) -> LinkChange
    ensures { result ≡ change_of_chosen change chosen.now link }
{
    if is_among(chosen, link) {
        change
    } else {
        LinkChange::Stays
    }
}

/// Each link of a router-LSA, with how it changes.
fn with_chosen<A: Allocator + Copy>(
    alloc: A,
    lsa: &RouterView<'_>,
    change: LinkChange,
    chosen: &[Link],
) -> Result<Vec<ChangedLink, A>, AllocError>
    ensures { IfOk result (λ v. v.items ≡ with_chosen change chosen.now lsa.now) }
{
    lsa.links()
        .map(|link| ChangedLink {
            link,
            change: change_of(change, chosen, link),
        })
        .collect(alloc)
}

/// A router-LSA whose links change; `None` where no link is left, so that it is withdrawn.
///
/// # Errors
///
/// The fault for which the LSA is kept, or want of memory.
fn rebuilt<A: Allocator + Copy>(
    alloc: A,
    lsa: &Lsa<A>,
    links: &[ChangedLink],
) -> Result<Option<Lsa<A>>, RemakeFault>
    requires accepted { IsAccepted lsa.now }
    requires router { kind_of lsa.now ≡ router_lsa }
    requires links { All (IsWithin lsa.now) links.now }
    requires few { length links.now < 2 ^ 16 }
    ensures made { IfOk result (λ new. new ≡ unless_empty links.now lsa.now) }
    ensures kept { IfErr result (λ fault. IsKeptFor fault
        (replaced lsa.now (unless_empty links.now lsa.now))) }
{
    if count_left(links) == 0 {
        return Ok(None);
    }
    match relink(alloc, lsa, links) {
        Ok(new) => Ok(Some(new)),
        Err(fault) => Err(fault),
    }
}

/// Whether an LSA can take the place of another: it has its key, and is no longer.
#[tactic(auto, using(crate::proofs::ReplacementLemmas::accepted_true))]
fn can_replace<A: Allocator + Copy>(old: &Lsa<A>, new: &Lsa<A>) -> bool
    ensures { result ≡ can_replace old.now new.now }
{
    let (bytes, old_bytes) = (new.bytes(), old.bytes());
    new.key() == old.key() && bytes.len() <= old_bytes.len()
}

/// The change of a slot where another LSA takes the place of one if it can, or none does.
fn change_to<A: Allocator + Copy>(
    slot: SlotId,
    area: AreaId,
    lsa: &Lsa<A>,
    new: Option<Lsa<A>>,
) -> Option<SlotChange<A>>
    ensures { result ≡ slot_change slot (Area area) lsa.now (replaced lsa.now new) }
{
    let (section, kind) = (Section::Area(area), lsa.key().kind);
    let Some(new) = new else {
        return Some(SlotChange::new(slot, section, kind, None));
    };
    if !can_replace(lsa, &new) {
        return None;
    }
    Some(SlotChange::new(slot, section, kind, Some(new)))
}

/// The change of the slot of a router-LSA whose chosen links change.
#[tactic(auto, using(crate::proofs::RouterLinks::within, crate::proofs::RouterLinks::few))]
fn change_where<A: Allocator + Copy>(
    alloc: A,
    slot: SlotId,
    area: AreaId,
    lsa: &Lsa<A>,
    change: LinkChange,
    chosen: &[Link],
) -> Result<Option<SlotChange<A>>, AllocError>
    requires router { kind_of lsa.now ≡ router_lsa }
    ensures made { IfOk result (λ new. new
        ≡ slot_change slot (Area area) lsa.now (relinked_where change chosen.now lsa.now)) }
{
    if chosen.is_empty() {
        return Ok(None);
    }
    let Some(view) = lsa.router() else {
        return Ok(None);
    };
    let links = with_chosen(alloc, &view, change, chosen)?;
    match rebuilt(alloc, lsa, &links) {
        Ok(new) => Ok(change_to(slot, area, lsa, new)),
        Err(RemakeFault::OutOfMemory) => Err(AllocError),
        Err(_) => Ok(None),
    }
}

/// The change of the slot of an LSA of an area, where it is a router-LSA with chosen links.
pub(crate) fn change_for<A: Allocator + Copy>(
    alloc: A,
    slot: SlotId,
    area: AreaId,
    lsa: &Lsa<A>,
    change: LinkChange,
    chosen: &ChosenLinks<A>,
) -> Result<Option<SlotChange<A>>, AllocError>
    ensures made { IfOk result (λ new. new
        ≡ slot_change slot (Area area) lsa.now (where_chosen change chosen.now lsa.now)) }
{
    let key = lsa.key();
    if key == Key::of_router(chosen.router()) {
        return change_where(alloc, slot, area, lsa, change, chosen.own());
    }
    if key == Key::of_router(chosen.neighbor()) {
        return change_where(alloc, slot, area, lsa, change, chosen.others());
    }
    Ok(None)
}
