//! An index of the slots of one section: at which of them LSAs with each key stand.

ghost use Rattle.std.specs.Prelude.{◌≡◌, ◌<◌, ◌≤◌, ◌++◌, [], true, Some, length, OnOk, IfOk, vec_capacity, Contains};
ghost use Rattle.lsdb.specs.Limits.{most_lsas_of_as};
ghost use Rattle.lsdb.specs.Slots.{put_slot};
ghost use Rattle.lsdb.specs.steps.SlotIndex.{AreNoted, AreRising, IsIndex, IsPart, NotesOne, most_slots, noted_at, noted_from, slot_cmp};

use crate::index_key::IndexKey;
use crate::merged::Merged;
use lsa_codec::Lsa;
use std::alloc::{AllocError, Allocator};

/// How many slots can be distinguished by an index of 32 bits.
const MOST_SLOTS: usize = 1 << 32;

/// What an LSA is found by, and the index of a slot at which the LSA was put.
#[derive(Clone, Copy, Debug, PartialEq, Eq, PartialOrd, Ord)]
pub struct SlotOf<K> {
    /// The key, the Advertising Router, or this and the prefix of the LSA.
    pub key: K,
    /// The index among the section's slots. The LSA may have gone since, and another stand there.
    pub index: u32,
}

/// At which slots of one section LSAs with each key stand, so that they are found without going
/// through the slots.
#[derive(Drop)]
pub(crate) struct SlotIndex<K: Copy, A: Allocator> {
    /// In rising order of the keys, and of the indices. The slot of an LSA that is gone stays until
    /// its room is wanted.
    pub(crate) noted: Vec<SlotOf<K>, A>,
    /// Those noted since all were noted again, in the same order: few, so that another is soon
    /// among them.
    pub(crate) latest: Vec<SlotOf<K>, A>,
}

impl<K: IndexKey, A: Allocator + Copy> SlotIndex<K, A> {
    /// That of these slots. The error is want of memory.
    pub(crate) fn of(alloc: A, slots: &[Option<Lsa<A>>]) -> Result<SlotIndex<K, A>, AllocError>
        requires { length slots.now ≤ most_lsas_of_as }
        ensures { IfOk result (λ index. IsIndex K.cmp K.found_by slots.now index) }
    {
        let mut noted = Vec::with_capacity(alloc, slots.len())?;
        fill(&mut noted, slots);
        let latest = Vec::with_capacity(alloc, latest_count(slots.len()))?;
        Ok(SlotIndex { noted, latest })
    }

    /// The same, with room for this number of slots. The error is want of memory.
    pub(crate) fn clone_of(&self, alloc: A, count: usize) -> Result<SlotIndex<K, A>, AllocError>
        ensures same { IfOk result (λ copy. copy.noted.items ≡ self.now.noted.items) }
        ensures latest { IfOk result (λ copy. copy.latest.items ≡ self.now.latest.items) }
        ensures room { IfOk result (λ copy. count ≤ vec_capacity copy.noted) }
    {
        let mut noted = Vec::with_capacity(alloc, count.max(self.noted.len()))?;
        noted.extend_from_slice(&self.noted)?;
        let wanted = latest_count(count).max(self.latest.len());
        let mut latest = Vec::with_capacity(alloc, wanted)?;
        latest.extend_from_slice(&self.latest)?;
        Ok(SlotIndex { noted, latest })
    }

    /// Makes room to note this number of slots. The error is want of memory, or that they are more
    /// than an index can distinguish; nothing that is noted changes.
    pub(crate) fn reserve_for(&mut self, count: usize) -> Result<(), AllocError>
        ensures same { self.new.noted.items ≡ self.old.noted.items }
        ensures latest { self.new.latest.items ≡ self.old.latest.items }
        ensures narrow { OnOk result (count ≤ most_slots) }
        ensures room { OnOk result (count ≤ vec_capacity self.new.noted) }
        ensures kept { vec_capacity self.old.noted ≤ vec_capacity self.new.noted }
    {
        if count > MOST_SLOTS {
            return Err(AllocError);
        }
        let wanted = count.saturating_sub(self.noted.len());
        self.noted.reserve(wanted)?;
        let wanted = latest_count(count).saturating_sub(self.latest.len());
        self.latest.reserve(wanted)
    }

    /// Notes one of the slots, at which something else stood `before`. It takes no memory.
    pub(crate) fn note_slot(
        &mut self,
        slots: &[Option<Lsa<A>>],
        index: usize,
        before: &Option<Lsa<A>>,
    )
        requires within { index < length slots.now }
        requires before { IsIndex K.cmp K.found_by (put_slot before.now slots.now index) self.old }
        ensures { IsIndex K.cmp K.found_by slots.now self.new }
    {
        let Some(slot) = noted_at::<K, A>(&slots[index], index) else {
            return;
        };
        if was_noted(before, index, &slot) {
            return;
        }
        if is_noted(&self.noted, &slot) {
            return;
        }
        if !note(&mut self.latest, &slot) {
            fill(&mut self.noted, slots);
            self.latest.clear();
        }
    }

    /// The slots that are noted of the keys from `low` to `high`, both included, in rising order of
    /// the keys and of the indices. It takes no memory, and four binary searches.
    pub(crate) fn between(&self, low: K, high: K) -> Merged<'_, SlotOf<K>>
        requires noted { AreRising K.cmp self.now.noted.items }
        requires latest { AreRising K.cmp self.now.latest.items }
        ensures { IsPart K.cmp (self.now.latest.items ++ self.now.noted.items) low high result }
    {
        Merged::of(
            part_between(&self.noted, low, high),
            part_between(&self.latest, low, high),
        )
    }
}

/// For this number of slots, the number of the latest notes for which there is room at first. An
/// insertion among them moves few, and seldom are all noted again.
fn latest_count(slots: usize) -> usize {
    slots / 32 + 16
}

/// The slot with that index, of what the LSA there is found by, if one stands there that is.
fn noted_at<K: IndexKey, A: Allocator + Copy>(
    slot: &Option<Lsa<A>>,
    index: usize,
) -> Option<SlotOf<K>>
    requires { index < most_slots }
    ensures { result ≡ noted_at K.found_by index slot.now }
{
    let Some(lsa) = slot else {
        return None;
    };
    let Some(key) = K::of_lsa(lsa) else {
        return None;
    };
    Some(SlotOf {
        key,
        index: index as u32,
    })
}

/// Whether what stood at the slot with that index before was noted as this.
fn was_noted<K: IndexKey, A: Allocator + Copy>(
    before: &Option<Lsa<A>>,
    index: usize,
    slot: &SlotOf<K>,
) -> bool
    requires { index < most_slots }
    ensures { result ≡ true → noted_at K.found_by index before.now ≡ Some slot.now }
{
    match noted_at::<K, A>(before, index) {
        Some(other) => other.cmp(slot).is_eq(),
        None => false,
    }
}

/// Of slots those with a key from one to another, both included. It takes two binary searches.
fn part_between<K: IndexKey>(noted: &[SlotOf<K>], low: K, high: K) -> &[SlotOf<K>]
    requires { AreRising K.cmp noted.now }
    ensures { IsPart K.cmp noted.now low high result.now }
{
    let start = noted.partition_point(|slot| slot.key.cmp(&low).is_lt());
    let rest = &noted[start..];
    let end = rest.partition_point(|slot| slot.key.cmp(&high).is_le());
    &rest[..end]
}

/// Whether a slot is among these.
fn is_noted<K: IndexKey>(noted: &[SlotOf<K>], slot: &SlotOf<K>) -> bool
    requires { AreRising K.cmp noted.now }
    ensures { result ≡ true → Contains noted.now slot.now }
{
    noted.binary_search(slot).is_ok()
}

/// Notes a slot, and answers whether it did: where it was not noted, and there is no room for it,
/// nothing is. It takes no memory.
fn note<K: IndexKey, A: Allocator + Copy>(noted: &mut Vec<SlotOf<K>, A>, slot: &SlotOf<K>) -> bool
    requires { AreRising K.cmp noted.old.items }
    ensures noted { result ≡ true
        → NotesOne (slot_cmp K.cmp) noted.old.items noted.new.items slot.now }
    ensures room { vec_capacity noted.new ≡ vec_capacity noted.old }
{
    let Err(at) = noted.binary_search(slot) else {
        return true;
    };
    if noted.capacity() <= noted.len() {
        return false;
    }
    // There is room for it, so no memory is wanted, and this does not fail.
    let _ = noted.insert(at, *slot);
    true
}

/// Notes all slots again. It takes no memory.
fn fill<K: IndexKey, A: Allocator + Copy>(noted: &mut Vec<SlotOf<K>, A>, slots: &[Option<Lsa<A>>])
    requires fits { length slots.now ≤ vec_capacity noted.old }
    requires narrow { length slots.now ≤ most_slots }
    ensures { AreNoted K.cmp K.found_by slots.now noted.new.items [] (vec_capacity noted.new) }
{
    put_noted(noted, slots);
    // Where the LSAs stand in the order of their keys, it looks at each once.
    noted.sort_unstable();
}

/// What each LSA is found by with the index of its slot, in order of the slots.
fn put_noted<K: IndexKey, A: Allocator + Copy>(
    noted: &mut Vec<SlotOf<K>, A>,
    slots: &[Option<Lsa<A>>],
)
    requires fits { length slots.now ≤ vec_capacity noted.old }
    requires narrow { length slots.now ≤ most_slots }
    ensures noted { noted.new.items ≡ noted_from K.found_by 0 slots.now }
    ensures room { vec_capacity noted.new ≡ vec_capacity noted.old }
{
    noted.clear();
    for index in 0..slots.len() {
        if let Some(slot) = noted_at(&slots[index], index) {
            noted.push_reserved(slot);
        }
    }
}
