//! Whether a database has a place for the LSAs that swaps bring.

ghost use Rattle.std.specs.Prelude.{◌≡◌, ◌==◌, ◌&&◌, ◌+◌, ◌<◌, not, drop, length, map};
ghost use Rattle.std.specs.List.{list_all, list_any};
ghost use Rattle.lsa_codec.specs.Fields.{kind_of};
ghost use Rattle.lsdb.specs.Lists.{has_key, lsas_of};
ghost use Rattle.lsdb.specs.Slots.{lists_of};
ghost use Rattle.edit_history.specs.Fitting.{are_apart, fits, has_free_key, is_like, is_rekeyed, share_key};
ghost use Rattle.edit_history.specs.steps.Happening.{swaps_fit};
ghost use Rattle.edit_history.specs.steps.Plans.{planned_change};

use crate::swap::Swap;
use lsa_codec::{Key, Lsa};
use lsdb::{Database, Section};
use std::alloc::Allocator;

/// Whether an LSA of a section has this key.
fn is_taken<A: Allocator + Copy>(database: &Database<A>, section: Section, key: Key) -> bool
    ensures { result ≡ list_any (has_key key) (lsas_of section (lists_of database.now)) }
{
    database.find(section, key).is_some()
}

/// Whether an LSA has the LS type of another.
fn has_type_of<A: Allocator + Copy>(old: &Lsa<A>, new: &Lsa<A>) -> bool
    ensures { result ≡ (kind_of new.now == kind_of old.now) }
{
    new.key().kind == old.key().kind
}

/// Whether an LSA is no longer than another, and has its LS type.
#[tactic(auto, using(event_lsas::proofs::ReplacementLemmas::accepted_true))]
fn is_like<A: Allocator + Copy>(old: &Lsa<A>, new: &Lsa<A>) -> bool
    ensures { result ≡ is_like old.now new.now }
{
    let (bytes, old_bytes) = (new.bytes(), old.bytes());
    bytes.len() <= old_bytes.len() && has_type_of(old, new)
}

/// Whether an LSA has the key of another, or one that no LSA of a section has.
fn has_free_key<A: Allocator + Copy>(
    database: &Database<A>,
    section: Section,
    old: &Lsa<A>,
    new: &Lsa<A>,
) -> bool
    ensures { result ≡ has_free_key (lsas_of section (lists_of database.now)) old.now new.now }
{
    let key = new.key();
    key == old.key() || !is_taken(database, section, key)
}

/// Whether there is a place for the LSA that a swap brings.
fn fits<A: Allocator + Copy>(database: &Database<A>, swap: &Swap<A>) -> bool
    ensures { result ≡ fits (lists_of database.now) (planned_change database.now swap.now) }
{
    let Some(new) = swap.other() else {
        return true;
    };
    let Some(old) = database.get(swap.slot()) else {
        return true;
    };
    is_like(old, new) && has_free_key(database, swap.section(), old, new)
}

/// Whether there is a place for each LSA that swaps bring.
fn all_fit<A: Allocator + Copy>(database: &Database<A>, swaps: &[Swap<A>]) -> bool
    ensures { result
        ≡ list_all (λ swap. fits (lists_of database.now) (planned_change database.now swap))
        swaps.now }
{
    swaps.iter().all(|swap| fits(database, swap))
}

/// Whether the LSA that a swap brings has another key than the one before.
fn is_rekeyed<A: Allocator + Copy>(database: &Database<A>, swap: &Swap<A>) -> bool
    ensures { result ≡ (let c = planned_change database.now swap.now in is_rekeyed c.old c.new) }
{
    let Some(new) = swap.other() else {
        return false;
    };
    let Some(old) = database.get(swap.slot()) else {
        return false;
    };
    new.key() != old.key()
}

/// Whether two swaps bring LSAs of one key.
fn share_key<A: Allocator + Copy>(one: &Swap<A>, other: &Swap<A>) -> bool
    ensures { result ≡ share_key one.now.other other.now.other }
{
    let Some(theirs) = other.other() else {
        return false;
    };
    let Some(ours) = one.other() else {
        return false;
    };
    ours.key() == theirs.key()
}

/// Whether one of some swaps brings an LSA of the key of a swap's.
fn any_shares<A: Allocator + Copy>(one: &Swap<A>, later: &[Swap<A>]) -> bool
    ensures { result ≡ list_any (λ other. share_key one.now.other other.other) later.now }
{
    later.iter().any(|other| share_key(one, other))
}

/// Whether a swap keeps the key of its LSA, or no later one brings the new key.
fn is_apart<A: Allocator + Copy>(database: &Database<A>, swap: &Swap<A>, later: &[Swap<A>]) -> bool
    ensures { result ≡ (let c = planned_change database.now swap.now in
        not (is_rekeyed c.old c.new
        && list_any (λ other. share_key swap.now.other other.other) later.now)) }
{
    !(is_rekeyed(database, swap) && any_shares(swap, later))
}

/// The swaps after one.
fn after<A: Allocator>(swaps: &[Swap<A>], index: usize) -> &[Swap<A>]
    requires { index < length swaps.now }
    ensures { result.now ≡ drop (index + 1) swaps.now }
{
    &swaps[index + 1..]
}

/// Whether no swap brings a key that a swap before it gave an LSA.
fn are_apart<A: Allocator + Copy>(database: &Database<A>, swaps: &[Swap<A>]) -> bool
    ensures { result ≡ are_apart (map (planned_change database.now) swaps.now) }
{
    for i in 0..swaps.len() {
        let later = after(swaps, i);
        if !is_apart(database, &swaps[i], later) {
            return false;
        }
    }
    true
}

/// Whether there are places for all LSAs that swaps bring, one after another.
pub(crate) fn swaps_fit<A: Allocator + Copy>(database: &Database<A>, swaps: &[Swap<A>]) -> bool
    ensures { result ≡ swaps_fit database.now swaps.now }
{
    all_fit(database, swaps) && are_apart(database, swaps)
}
