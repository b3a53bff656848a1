//! Sections by their names, and LSAs by their keys (RFC 2328, 12.1).

ghost use Rattle.std.specs.Prelude.{◌≡◌, true, None, IsSome, MatchOption, option_map};
ghost use Rattle.std.specs.List.{find};
ghost use Rattle.lsdb.specs.KeyRanges.{AreKeysBetween, HaveKeysBetween, keys_of_network};
ghost use Rattle.lsdb.specs.Lists.{is_head_of, is_network, is_section, has_key, lsas_of};
ghost use Rattle.lsdb.specs.Slots.{item_at, lists_of, lsas_in, slots_in, IsFirstSlot, IsNamed, IsSlotOf};
ghost use Rattle.lsdb.specs.PrefixSlots.{AreSlotsOfPrefix};
ghost use Rattle.lsdb.specs.RouterSlots.{AreSlotsOfRouter};
ghost use Rattle.lsdb.specs.TransitFilters.{AreTransitFilters};
ghost use Rattle.lsdb.specs.steps.View.{head_of};

use crate::database::{Database, Head};
use crate::merged::Merged;
use crate::origin::Origin;
use crate::section::Section;
use crate::slot::SlotId;
use crate::slot_index::SlotOf;
use crate::transit_filters::TransitFilter;
use lsa_codec::{Addr, Key, NETWORK_LSA, Prefix, RouterId};
use std::alloc::Allocator;

impl<A: Allocator + Copy> Database<A> {
    /// The number of a section: areas in rising order of their IDs, the LSAs of AS scope last.
    /// `None` where the database has no such area.
    pub fn index_of(&self, section: Section) -> Option<usize>
        ensures { MatchOption result (find (is_section section) (lists_of self.now) ≡ None)
            (IsNamed self.now section) }
    {
        for index in 0..self.sections.len() {
            if is_head_of(section, self.sections[index].area) {
                return Some(index);
            }
        }
        None
    }

    /// The slot of the LSA with a key in a section, by the section's number.
    pub fn find_in(&self, section: usize, key: Key) -> Option<SlotId>
        requires { IsSome (item_at (lists_of self.now) section) }
        ensures { MatchOption result (find (has_key key) (lsas_in self.now section) ≡ None)
            (IsFirstSlot self.now section (has_key key)) }
    {
        let Some(index) = self.sections[section].slots.find(key) else {
            return None;
        };
        Some(SlotId { section, index })
    }

    /// The keys that are noted of a section from `low` to `high`, both included, in their order,
    /// by the section's number. Among them is the key of each LSA there, with the index of its
    /// slot; but also keys of LSAs that have gone, so what stands at a slot is to be looked at.
    /// It takes no memory, and its steps are in the logarithm of the number of keys.
    pub fn keys_between(&self, section: usize, low: Key, high: Key) -> Merged<'_, SlotOf<Key>>
        requires { IsSome (item_at self.now section) }
        ensures { AreKeysBetween (slots_in self.now section) low high result }
    {
        self.sections[section].slots.keys_between(low, high)
    }

    /// The slots that are noted of a router in a section, in rising order of their indices, by the
    /// section's number. Among them is that of each LSA there with this Advertising Router; but
    /// also slots of such LSAs that have gone, so what stands there is to be looked at. It takes
    /// no memory, and its steps are in the logarithm of the number of slots.
    pub fn slots_of_router(&self, section: usize, router: RouterId) -> Merged<'_, SlotOf<RouterId>>
        requires { IsSome (item_at self.now section) }
        ensures { AreSlotsOfRouter (slots_in self.now section) router result }
    {
        self.sections[section].slots.slots_of_router(router)
    }

    /// The slots that are noted of a router and a prefix in a section, in rising order of their
    /// indices, by the section's number. Among them is that of each LSA there with this
    /// Advertising Router and this prefix (`prefix_of`); but also slots of such LSAs that have
    /// gone, so what stands there is to be looked at. It takes no memory, and its steps are in the
    /// logarithm of the number of slots.
    pub fn slots_of_prefix(
        &self,
        section: usize,
        router: RouterId,
        prefix: Prefix,
    ) -> Merged<'_, SlotOf<Origin>>
        requires { IsSome (item_at self.now section) }
        ensures { AreSlotsOfPrefix (slots_in self.now section) router prefix result }
    {
        self.sections[section].slots.slots_of_prefix(router, prefix)
    }

    /// For each slot of a section, by the section's number, the filter of the transit networks of
    /// the LSA there: those of the transit links of a router-LSA, and of a network-LSA its own.
    pub fn transit_filters(&self, section: usize) -> &[TransitFilter]
        requires { IsSome (item_at self.now section) }
        ensures { AreTransitFilters (slots_in self.now section) result.now }
    {
        self.sections[section].slots.transit_filters()
    }

    /// The slot of the LSA with a key in a section; `None` where the section has no such LSA,
    /// and where there is no such section.
    pub fn find(&self, section: Section, key: Key) -> Option<SlotId>
        ensures { MatchOption result (find (has_key key) (lsas_of section (lists_of self.now))
            ≡ None) (IsSlotOf self.now section key) }
    {
        let Some(index) = self.index_of(section) else {
            return None;
        };
        self.find_in(index, key)
    }
}

/// The least and the greatest key of the network-LSAs of a network, whose Link State ID is the
/// address of its Designated Router (RFC 2328, 12.1.4): any router may have originated them.
pub fn network_keys(network: Addr) -> (Key, Key)
    ensures keys { result ≡ keys_of_network network }
    ensures covers { HaveKeysBetween (λ lsa. is_network network lsa ≡ true) result.0 result.1 }
{
    let least = Key {
        kind: NETWORK_LSA,
        id: network,
        adv: RouterId(0),
    };
    let greatest = Key {
        adv: RouterId(u32::MAX),
        ..least
    };
    (least, greatest)
}

/// Whether this is the head of the section of that name.
fn is_head_of(section: Section, head: Option<Head>) -> bool
    ensures { result ≡ is_head_of section (option_map head_of head) }
{
    match (section, head) {
        (Section::Area(id), Some(head)) => head.id.0 == id.0,
        (Section::Area(_), None) => false,
        (Section::AsWide, head) => head.is_none(),
    }
}
