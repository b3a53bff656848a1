//! The LSAs that an edit names, or its refusal where there are none.

ghost use Rattle.std.specs.Prelude.{◌≡◌, true, Some, None, Err, IsSome, MatchOption, IfSome, IfOk, IfErr};
ghost use Rattle.std.specs.List.{find, list_any};
ghost use Rattle.lsa_codec.specs.Fields.{kind_of};
ghost use Rattle.lsa_codec.specs.Key.{router_key};
ghost use Rattle.lsa_codec.specs.LsTypes as ls_types;
ghost use Rattle.lsdb.specs.declared.section.Section.TheVariants.{Area};
ghost use Rattle.lsdb.specs.KeyRanges.{HaveKeysBetween};
ghost use Rattle.lsdb.specs.Lists.{is_section, has_key, lsas_of};
ghost use Rattle.lsdb.specs.Slots.{item_at, slot_at, lists_of, lsas_in, IsNamed};
ghost use Rattle.lsdb.specs.PrefixSlots.{prefix_of};
ghost use Rattle.edit_history.specs.declared.fault.EditFault.TheVariants.{NoArea, NoRouter};
ghost use Rattle.edit_history.specs.Effect.{router_lsa_of, has_router, is_prefix, is_originated_for};
ghost use Rattle.edit_history.specs.steps.Plans.{IsFirstLsa, IsSlotOfFirst, is_wanted, passes};
ghost use Rattle.edit_history.specs.steps.Searching.{AreOriginatedFor, is_wanted_by_key, last_addr_of, lesser, may_have};

use crate::fault::EditFault;
use lsa_codec::{Addr, AreaId, EXTERNAL_LSA, Key, Lsa, NETWORK_LSA, Prefix, RouterId, SUMMARY_LSA};
use lsdb::{Database, Section, SlotId, SlotOf, network_keys, prefix_of};
use std::alloc::Allocator;

/// An LSA that is looked up by more than its key.
#[derive(Clone, Copy)]
pub(crate) enum Wanted {
    /// A network-LSA of the network whose Designated Router has this address.
    Network(Addr),
    /// A summary-LSA of type 3 of a router for a prefix.
    Summary(RouterId, Prefix),
    /// An AS-external-LSA of a router for a prefix.
    External(RouterId, Prefix),
}

impl Wanted {
    /// The least and the greatest key that a wanted LSA may have.
    fn key_range(&self) -> (Key, Key)
        ensures { HaveKeysBetween (λ lsa. is_wanted self.now lsa ≡ true) result.0 result.1 }
    {
        match *self {
            Wanted::Network(network) => network_keys(network),
            Wanted::Summary(router, prefix) => prefix_keys(SUMMARY_LSA, router, prefix),
            Wanted::External(router, prefix) => prefix_keys(EXTERNAL_LSA, router, prefix),
        }
    }

    /// The router that originated the wanted LSA, and the prefix for which it did, if they are
    /// fixed.
    fn origin(&self) -> Option<(RouterId, Prefix)>
        ensures { IfSome result
            (λ origin. AreOriginatedFor origin.0 origin.1 (is_wanted self.now)) }
    {
        match *self {
            Wanted::Network(_network) => None,
            Wanted::Summary(router, prefix) => Some((router, prefix)),
            Wanted::External(router, prefix) => Some((router, prefix)),
        }
    }

    /// Whether an LSA with this key may be a wanted one: its router may have originated one.
    fn may_have(&self, key: Key) -> bool
        ensures { result ≡ may_have self.now key }
    {
        match *self {
            Wanted::Network(_network) => true,
            Wanted::Summary(router, _prefix) => key.adv == router,
            Wanted::External(router, _prefix) => key.adv == router,
        }
    }

    /// Whether an LSA is a wanted one.
    fn is_met_by<A: Allocator + Copy>(&self, lsa: &Lsa<A>) -> bool
        ensures { result ≡ is_wanted self.now lsa.now }
    {
        match *self {
            Wanted::Network(network) => {
                let key = lsa.key();
                key.kind == NETWORK_LSA && key.id == network
            }
            Wanted::Summary(router, prefix) => is_originated_for(lsa, SUMMARY_LSA, router, prefix),
            Wanted::External(router, prefix) => is_originated_for(
                lsa,
                EXTERNAL_LSA,
                router,
                prefix,
            ),
        }
    }
}

/// The last address of a prefix, in which all bits past its length are 1.
fn last_addr(prefix: Prefix) -> Addr
    ensures { result.0 ≡ last_addr_of prefix }
{
    Addr(prefix.addr().0 + (u32::MAX - prefix.mask()))
}

/// The least and the greatest key of the LSAs of a type that a router originated for a prefix:
/// the Link State ID is an address of the prefix (RFC 2328, 12.1.4 and appendix E).
fn prefix_keys(kind: u8, router: RouterId, prefix: Prefix) -> (Key, Key)
    ensures { HaveKeysBetween (λ lsa. is_originated_for kind router prefix lsa ≡ true)
        result.0 result.1 }
{
    let least = Key {
        kind,
        id: prefix.addr(),
        adv: router,
    };
    let greatest = Key {
        id: last_addr(prefix),
        ..least
    };
    (least, greatest)
}

/// Whether an LSA has this prefix.
fn is_prefix<A: Allocator + Copy>(lsa: &Lsa<A>, prefix: Prefix) -> bool
    ensures { result ≡ is_prefix prefix (prefix_of lsa.now) }
{
    let Some(other) = prefix_of(lsa) else {
        return false;
    };
    other.addr() == prefix.addr() && other.len() == prefix.len()
}

/// Whether an LSA is of this type, and a router originated it for a prefix (RFC 2328, 12.4.3,
/// 12.4.4).
fn is_originated_for<A: Allocator + Copy>(
    lsa: &Lsa<A>,
    kind: u8,
    router: RouterId,
    prefix: Prefix,
) -> bool
    ensures { result ≡ is_originated_for kind router prefix lsa.now }
{
    let key = lsa.key();
    key.kind == kind && key.adv == router && is_prefix(lsa, prefix)
}

/// The number of an area's section.
pub(crate) fn area_section<A: Allocator + Copy>(
    database: &Database<A>,
    area: AreaId,
) -> Result<usize, EditFault>
    ensures found { IfOk result (λ section. IsNamed database.now (Area area) section) }
    ensures refused { IfErr result (λ fault. fault ≡ NoArea) }
    ensures absent { IfErr result
        (λ _. find (is_section (Area area)) (lists_of database.now) ≡ None) }
{
    let Some(section) = database.index_of(Section::Area(area)) else {
        return Err(EditFault::NoArea);
    };
    Ok(section)
}

/// The router-LSA that a router originated for an area that is there (RFC 2328, 12.4.1), and its
/// slot.
pub(crate) fn router_lsa_in<A: Allocator + Copy>(
    database: &Database<A>,
    area: AreaId,
    router: RouterId,
) -> Result<(SlotId, &Lsa<A>), EditFault>
    ensures found { IfOk result
        (λ found. IsFirstLsa database.now (Area area) (has_key (router_key router))
        found.0 found.1.now) }
    ensures kind { IfOk result (λ found. kind_of found.1.now ≡ ls_types.router_lsa) }
    ensures refused { IfErr result (λ fault. fault ≡ NoRouter) }
    ensures absent { IfErr result
        (λ _. find (has_key (router_key router)) (lsas_of (Area area) (lists_of database.now))
        ≡ None) }
{
    let Some(slot) = database.find(Section::Area(area), Key::of_router(router)) else {
        return Err(EditFault::NoRouter);
    };
    let Some(lsa) = database.get(slot) else {
        return Err(EditFault::NoRouter);
    };
    Ok((slot, lsa))
}

/// The router-LSA that a router originated for an area (RFC 2328, 12.4.1), and its slot.
pub(crate) fn router_lsa<A: Allocator + Copy>(
    database: &Database<A>,
    area: AreaId,
    router: RouterId,
) -> Result<(SlotId, &Lsa<A>), EditFault>
    ensures found { IfOk result
        (λ found. IsFirstLsa database.now (Area area) (has_key (router_key router))
        found.0 found.1.now) }
    ensures kind { IfOk result (λ found. kind_of found.1.now ≡ ls_types.router_lsa) }
    ensures refused { IfErr result
        (λ fault. router_lsa_of (lists_of database.now) area router ≡ Err fault) }
{
    area_section(database, area)?;
    router_lsa_in(database, area, router)
}

/// Whether a router originated a router-LSA in a section, by the section's number.
fn is_in_section<A: Allocator + Copy>(
    database: &Database<A>,
    section: usize,
    router: RouterId,
) -> bool
    requires { IsSome (item_at (lists_of database.now) section) }
    ensures { result ≡ list_any (has_key (router_key router)) (lsas_in database.now section) }
{
    database.find_in(section, Key::of_router(router)).is_some()
}

/// Whether a router originated a router-LSA for any area.
pub(crate) fn has_router<A: Allocator + Copy>(database: &Database<A>, router: RouterId) -> bool
    ensures { result ≡ has_router router (lists_of database.now) }
{
    for section in 0..database.section_count() {
        if is_in_section(database, section, router) {
            return true;
        }
    }
    false
}

/// Whether a wanted LSA is at a slot.
fn is_wanted_at<A: Allocator + Copy>(database: &Database<A>, slot: SlotId, wanted: &Wanted) -> bool
    ensures { result ≡ passes (is_wanted wanted.now) (slot_at database.now slot) }
{
    let Some(lsa) = database.get(slot) else {
        return false;
    };
    wanted.is_met_by(lsa)
}

/// Whether a wanted LSA is at the slot that is noted of a key. Where the key shows that it is
/// another, the slot is not looked at.
fn is_wanted_by_key<A: Allocator + Copy>(
    database: &Database<A>,
    section: usize,
    noted: &SlotOf<Key>,
    wanted: &Wanted,
) -> bool
    ensures { result ≡ is_wanted_by_key wanted.now database.now section noted.now }
{
    let slot = SlotId {
        section,
        index: noted.index as usize,
    };
    wanted.may_have(noted.key) && is_wanted_at(database, slot, wanted)
}

/// The lesser of two indices, where there is a first.
fn lesser(first: Option<usize>, second: usize) -> usize
    ensures { result ≡ lesser first second }
{
    match first {
        Some(first) => first.min(second),
        None => second,
    }
}

/// The slot of the first wanted LSA of a section, by the section's number. It looks only at the
/// slots of LSAs with a key that may be a wanted LSA's.
fn first_by_keys<A: Allocator + Copy>(
    database: &Database<A>,
    section: usize,
    wanted: &Wanted,
) -> Option<SlotId>
    requires { IsSome (item_at database.now section) }
    ensures { IsSlotOfFirst database.now section (is_wanted wanted.now) result }
{
    let (least, greatest) = wanted.key_range();
    let mut first = None;
    for noted in database.keys_between(section, least, greatest) {
        if is_wanted_by_key(database, section, &noted, wanted) {
            first = Some(lesser(first, noted.index as usize));
        }
    }
    let Some(index) = first else {
        return None;
    };
    Some(SlotId { section, index })
}

/// The slot of the first wanted LSA of a section, by the section's number, where its router and
/// its prefix are known. It looks only at the slots that are noted of both, up to that LSA.
fn first_of_prefix<A: Allocator + Copy>(
    database: &Database<A>,
    section: usize,
    router: RouterId,
    prefix: Prefix,
    wanted: &Wanted,
) -> Option<SlotId>
    requires exists { IsSome (item_at database.now section) }
    requires own { AreOriginatedFor router prefix (is_wanted wanted.now) }
    ensures { IsSlotOfFirst database.now section (is_wanted wanted.now) result }
{
    for entry in database.slots_of_prefix(section, router, prefix) {
        let slot = SlotId {
            section,
            index: entry.index as usize,
        };
        if is_wanted_at(database, slot, wanted) {
            return Some(slot);
        }
    }
    None
}

/// Whether the number of slots noted of a router and a prefix is at most the number of keys that a
/// wanted LSA may have.
fn are_fewer_of_prefix<A: Allocator + Copy>(
    database: &Database<A>,
    section: usize,
    router: RouterId,
    prefix: Prefix,
    wanted: &Wanted,
) -> bool
    requires { IsSome (item_at database.now section) }
{
    let (least, greatest) = wanted.key_range();
    let keys = database.keys_between(section, least, greatest);
    database
        .slots_of_prefix(section, router, prefix)
        .upper_bound()
        <= keys.upper_bound()
}

/// The slot of the first wanted LSA of a section, by the section's number. It looks at the smaller
/// of two sets: the slots of its router and prefix, or the LSAs with a key that may be its.
fn first_in<A: Allocator + Copy>(
    database: &Database<A>,
    section: usize,
    wanted: &Wanted,
) -> Option<SlotId>
    requires { IsSome (item_at database.now section) }
    ensures { IsSlotOfFirst database.now section (is_wanted wanted.now) result }
{
    let Some((router, prefix)) = wanted.origin() else {
        return first_by_keys(database, section, wanted);
    };
    if are_fewer_of_prefix(database, section, router, prefix, wanted) {
        return first_of_prefix(database, section, router, prefix, wanted);
    }
    first_by_keys(database, section, wanted)
}

/// The first wanted LSA of a section, and its slot.
pub(crate) fn first<'a, A: Allocator + Copy>(
    database: &'a Database<A>,
    section: Section,
    wanted: &Wanted,
) -> Option<(SlotId, &'a Lsa<A>)>
    ensures { MatchOption result
        (find (is_wanted wanted.now) (lsas_of section (lists_of database.now)) ≡ None)
        (λ found. IsFirstLsa database.now section (is_wanted wanted.now) found.0 found.1.now) }
{
    let Some(index) = database.index_of(section) else {
        return None;
    };
    let Some(slot) = first_in(database, index, wanted) else {
        return None;
    };
    let Some(lsa) = database.get(slot) else {
        return None;
    };
    Some((slot, lsa))
}
