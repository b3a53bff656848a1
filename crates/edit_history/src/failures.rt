//! Failures: the links between two routers, a network, or a router is removed.

ghost use Rattle.std.specs.Prelude.{◌≡◌, ◌++◌, IsSome, IfOk, IfErr, OnOk, option_to_list};
ghost use Rattle.std.specs.List.{list_any};
ghost use Rattle.lsa_codec.specs.Fields.{kind_of};
ghost use Rattle.lsa_codec.specs.Links.{links_of};
ghost use Rattle.lsa_codec.specs.LsTypes.{router_lsa};
ghost use Rattle.lsa_codec.specs.Making.{leads_to};
ghost use Rattle.lsdb.specs.declared.section.Section.TheVariants.{Area};
ghost use Rattle.lsdb.specs.Slots.{item_at, slot_at, slots_in, head_or_none};
ghost use Rattle.edit_script.specs.declared.edit.Edit.TheVariants.{FailLink, FailNet, FailRouter};
ghost use Rattle.edit_history.specs.declared.fault.EditFault.TheVariants.{OutOfMemory};
ghost use Rattle.edit_history.specs.Rules.{section_name};
ghost use Rattle.edit_history.specs.Effect.{are_linked, link_fate, net_fate, router_fate};
ghost use Rattle.edit_history.specs.steps.Plans.{IsPlan, swap_for, slot_swap, section_swaps};
ghost use Rattle.edit_history.specs.steps.Failing.{fate_by, in_order, pair_swaps, shortened};

use crate::fault::EditFault;
use crate::lookup::{Wanted, area_section, first, has_router, router_lsa_in};
use crate::swap::Swap;
use lsa_codec::{
    Addr, AreaId, Key, Link, LinkKind, Lsa, MakeFault, NETWORK_LSA, ROUTER_LSA, RouterId,
};
use lsdb::{Database, Section, SlotId};
use std::alloc::Allocator;

/// What fails.
#[derive(Clone, Copy)]
enum Failure {
    /// The point-to-point links between two routers.
    Links(RouterId, RouterId),
    /// The network whose Designated Router has this address.
    Network(Addr),
    /// A router.
    Router(RouterId),
}

/// The swap of a router-LSA for the one made from it without some of its links: none where it has
/// no such link. The only error is that memory ran out.
fn shortened<A: Allocator + Copy>(
    slot: SlotId,
    section: Section,
    made: Result<Lsa<A>, MakeFault>,
) -> Result<Option<Swap<A>>, EditFault>
    ensures { result ≡ shortened slot section made }
{
    match made {
        Ok(new) => Ok(Some(Swap::new(slot, section, ROUTER_LSA, Some(new)))),
        Err(MakeFault::NoLink) => Ok(None),
        Err(_) => Err(EditFault::OutOfMemory),
    }
}

/// The swap for an LSA at a slot where the point-to-point links between two routers are removed.
fn swap_for_links<A: Allocator + Copy>(
    alloc: A,
    slot: SlotId,
    section: Section,
    lsa: &Lsa<A>,
    router: RouterId,
    neighbor: RouterId,
) -> Result<Option<Swap<A>>, EditFault>
    ensures swap { IfOk result
        (λ swap. swap ≡ swap_for slot section lsa.now (link_fate router neighbor lsa.now)) }
    ensures memory { IfErr result (λ fault. fault ≡ OutOfMemory) }
{
    let key = lsa.key();
    if key == Key::of_router(router) {
        return shortened(slot, section, lsa.without_links_to(alloc, neighbor));
    }
    if key == Key::of_router(neighbor) {
        return shortened(slot, section, lsa.without_links_to(alloc, router));
    }
    Ok(None)
}

/// The swap for an LSA at a slot where a network is removed.
fn swap_for_network<A: Allocator + Copy>(
    alloc: A,
    slot: SlotId,
    section: Section,
    lsa: &Lsa<A>,
    network: Addr,
) -> Result<Option<Swap<A>>, EditFault>
    ensures swap { IfOk result
        (λ swap. swap ≡ swap_for slot section lsa.now (net_fate network lsa.now)) }
    ensures memory { IfErr result (λ fault. fault ≡ OutOfMemory) }
{
    let key = lsa.key();
    if key.kind == NETWORK_LSA && key.id == network {
        return Ok(Some(Swap::new(slot, section, NETWORK_LSA, None)));
    }
    if key.kind == ROUTER_LSA {
        return shortened(slot, section, lsa.without_net_links(alloc, network));
    }
    Ok(None)
}

/// The swap for an LSA at a slot where a router is removed.
fn swap_for_router<A: Allocator + Copy>(
    slot: SlotId,
    section: Section,
    lsa: &Lsa<A>,
    router: RouterId,
) -> Option<Swap<A>>
    ensures { result ≡ swap_for slot section lsa.now (router_fate router lsa.now) }
{
    let key = lsa.key();
    if key.adv != router {
        return None;
    }
    Some(Swap::new(slot, section, key.kind, None))
}

impl Failure {
    /// The swap of this failure for an LSA at a slot; none where the LSA stays. The only error is
    /// that memory ran out.
    fn swap<A: Allocator + Copy>(
        self,
        alloc: A,
        slot: SlotId,
        section: Section,
        lsa: &Lsa<A>,
    ) -> Result<Option<Swap<A>>, EditFault>
        ensures swap { IfOk result
            (λ swap. swap ≡ swap_for slot section lsa.now (fate_by self lsa.now)) }
        ensures memory { IfErr result (λ fault. fault ≡ OutOfMemory) }
    {
        match self {
            Failure::Links(router, neighbor) => {
                swap_for_links(alloc, slot, section, lsa, router, neighbor)
            }
            Failure::Network(network) => swap_for_network(alloc, slot, section, lsa, network),
            Failure::Router(router) => Ok(swap_for_router(slot, section, lsa, router)),
        }
    }
}

/// Adds the swap of a slot, if it has one. The only error is that memory ran out.
fn add_swap<A: Allocator + Copy>(
    database: &Database<A>,
    slot: SlotId,
    section: Section,
    failure: Failure,
    swaps: &mut Vec<Swap<A>, A>,
) -> Result<(), EditFault>
    ensures swaps { OnOk result
        (swaps.new.items ≡ swaps.old.items
        ++ option_to_list (slot_swap (fate_by failure) slot section (slot_at database.now slot))) }
    ensures memory { IfErr result (λ fault. fault ≡ OutOfMemory) }
{
    let Some(lsa) = database.get(slot) else {
        return Ok(());
    };
    let Some(swap) = failure.swap(database.alloc(), slot, section, lsa)? else {
        return Ok(());
    };
    if swaps.push(swap).is_err() {
        return Err(EditFault::OutOfMemory);
    }
    Ok(())
}

/// Adds the swaps of the slots of a section where a network is removed, by the section's number
/// and its name. It looks only at LSAs that may be of the network. The only error is that memory
/// ran out.
fn add_swaps_of_network<A: Allocator + Copy>(
    database: &Database<A>,
    number: usize,
    section: Section,
    network: Addr,
    swaps: &mut Vec<Swap<A>, A>,
) -> Result<(), EditFault>
    requires { IsSome (item_at database.now number) }
    ensures swaps { OnOk result
        (swaps.new.items ≡ swaps.old.items
        ++ section_swaps (net_fate network) number section 0 (slots_in database.now number)) }
    ensures memory { IfErr result (λ fault. fault ≡ OutOfMemory) }
{
    let filters = database.transit_filters(number);
    for index in 0..filters.len() {
        let filter = &filters[index];
        if !filter.may_have(network) {
            continue;
        }
        let slot = SlotId {
            section: number,
            index,
        };
        add_swap(database, slot, section, Failure::Network(network), swaps)?;
    }
    Ok(())
}

/// The swaps of the slots of an area where a network is removed, by the area's number and its ID.
/// The only error is that memory ran out.
fn swaps_of_network<A: Allocator + Copy>(
    database: &Database<A>,
    number: usize,
    area: AreaId,
    network: Addr,
) -> Result<Vec<Swap<A>, A>, EditFault>
    requires { IsSome (item_at database.now number) }
    ensures swaps { IfOk result
        (λ v. v.items
        ≡ section_swaps (net_fate network) number (Area area) 0 (slots_in database.now number)) }
    ensures memory { IfErr result (λ fault. fault ≡ OutOfMemory) }
{
    let mut swaps = Vec::new(database.alloc());
    add_swaps_of_network(database, number, Section::Area(area), network, &mut swaps)?;
    Ok(swaps)
}

/// Two slots, in the order of their section.
fn in_order(one: SlotId, other: SlotId) -> (SlotId, SlotId)
    ensures { result ≡ in_order one other }
{
    if one.index <= other.index {
        (one, other)
    } else {
        (other, one)
    }
}

/// The swaps of two slots, in their order. The only error is that memory ran out.
fn swaps_of_pair<A: Allocator + Copy>(
    database: &Database<A>,
    slots: (SlotId, SlotId),
    section: Section,
    failure: Failure,
) -> Result<Vec<Swap<A>, A>, EditFault>
    ensures swaps { IfOk result
        (λ v. v.items ≡ pair_swaps (fate_by failure) section database.now slots) }
    ensures memory { IfErr result (λ fault. fault ≡ OutOfMemory) }
{
    let mut swaps = Vec::new(database.alloc());
    add_swap(database, slots.0, section, failure, &mut swaps)?;
    add_swap(database, slots.1, section, failure, &mut swaps)?;
    Ok(swaps)
}

/// Whether a link is a point-to-point link to a router.
fn leads_to(link: Link, router: RouterId) -> bool
    ensures { result ≡ leads_to router link }
{
    matches!(link.kind, LinkKind::PointToPoint) && link.id.0 == router.0
}

/// Whether a router-LSA has a point-to-point link to a router.
fn has_link_to<A: Allocator + Copy>(lsa: &Lsa<A>, router: RouterId) -> bool
    requires { kind_of lsa.now ≡ router_lsa }
    ensures { result ≡ list_any (leads_to router) (links_of lsa.now) }
{
    let Some(view) = lsa.router() else {
        return false;
    };
    view.links().any(|link| leads_to(link, router))
}

/// Whether one of the router-LSAs of two routers has a point-to-point link to the other router.
fn are_linked<A: Allocator + Copy>(
    router: RouterId,
    neighbor: RouterId,
    lsa: &Lsa<A>,
    other: &Lsa<A>,
) -> bool
    requires one { kind_of lsa.now ≡ router_lsa }
    requires two { kind_of other.now ≡ router_lsa }
    ensures { result ≡ are_linked router neighbor lsa.now other.now }
{
    has_link_to(lsa, neighbor) || has_link_to(other, router)
}

/// The point-to-point links between two routers are removed, on both sides. A router-LSA without
/// such a link stays as it is.
pub(crate) fn plan_fail_link<A: Allocator + Copy>(
    database: &Database<A>,
    area: AreaId,
    router: RouterId,
    neighbor: RouterId,
) -> Result<Vec<Swap<A>, A>, EditFault>
    ensures { IsPlan database.now database.now
        (FailLink area router neighbor) (λ v. v.items) result }
{
    // Its invariant is needed after each swap too.
    database.assert_valid();
    area_section(database, area)?;
    if router == neighbor {
        return Err(EditFault::SameRouter);
    }
    let (slot, lsa) = router_lsa_in(database, area, router)?;
    let (other_slot, other) = router_lsa_in(database, area, neighbor)?;
    if !are_linked(router, neighbor, lsa, other) {
        return Err(EditFault::NoLink);
    }
    // No other LSA changes, so none is looked at.
    let slots = in_order(slot, other_slot);
    swaps_of_pair(
        database,
        slots,
        Section::Area(area),
        Failure::Links(router, neighbor),
    )
}

/// The network-LSAs of a network are removed, and all links of router-LSAs to it.
pub(crate) fn plan_fail_net<A: Allocator + Copy>(
    database: &Database<A>,
    area: AreaId,
    network: Addr,
) -> Result<Vec<Swap<A>, A>, EditFault>
    ensures { IsPlan database.now database.now (FailNet area network) (λ v. v.items) result }
{
    // Its invariant is needed after each swap too.
    database.assert_valid();
    let number = area_section(database, area)?;
    let Some(_) = first(database, Section::Area(area), &Wanted::Network(network)) else {
        return Err(EditFault::NoNetwork);
    };
    swaps_of_network(database, number, area, network)
}

/// The name of a section, by its number.
fn section_name<A: Allocator + Copy>(database: &Database<A>, number: usize) -> Section
    requires { IsSome (item_at database.now number) }
    ensures { result ≡ section_name (head_or_none (item_at database.now number)) }
{
    match database.area_in(number) {
        Some((area, _)) => Section::Area(area),
        None => Section::AsWide,
    }
}

/// Adds the swaps of the slots of a section where a router is removed, by the section's number. It
/// looks only at the slots that are noted of the router. The only error is that memory ran out.
fn add_swaps_of_router<A: Allocator + Copy>(
    database: &Database<A>,
    number: usize,
    router: RouterId,
    swaps: &mut Vec<Swap<A>, A>,
) -> Result<(), EditFault>
    requires { IsSome (item_at database.now number) }
    ensures swaps { OnOk result
        (swaps.new.items ≡ swaps.old.items
        ++ section_swaps (router_fate router) number
        (section_name (head_or_none (item_at database.now number))) 0
        (slots_in database.now number)) }
    ensures memory { IfErr result (λ fault. fault ≡ OutOfMemory) }
{
    let section = section_name(database, number);
    for entry in database.slots_of_router(number, router) {
        let slot = SlotId {
            section: number,
            index: entry.index as usize,
        };
        add_swap(database, slot, section, Failure::Router(router), swaps)?;
    }
    Ok(())
}

/// All LSAs that a router originated are removed, in all areas and in those of AS scope.
pub(crate) fn plan_fail_router<A: Allocator + Copy>(
    database: &Database<A>,
    router: RouterId,
) -> Result<Vec<Swap<A>, A>, EditFault>
    ensures { IsPlan database.now database.now (FailRouter router) (λ v. v.items) result }
{
    // Its invariant is needed after each swap too.
    database.assert_valid();
    if !has_router(database, router) {
        return Err(EditFault::NoRouter);
    }
    let mut swaps = Vec::new(database.alloc());
    for number in 0..database.section_count() {
        add_swaps_of_router(database, number, router, &mut swaps)?;
    }
    Ok(swaps)
}
