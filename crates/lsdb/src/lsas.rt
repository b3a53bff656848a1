//! The LSAs of one section, in order.

ghost use Rattle.std.specs.Prelude.{◌≡◌, [], ◌∷◌, MatchOption};
ghost use Rattle.std.specs.Iterator.{YieldsFirstRef, item_count};
ghost use Rattle.lsdb.specs.Slots.{full};

use lsa_codec::Lsa;
use std::alloc::{Allocator, Global};
use std::marker::Model;

/// The LSAs of one section, an iterator. Contracts see it as the list of the LSAs left.
#[derive(Drop)]
pub struct Lsas<'a, A: Allocator = Global> {
    slots: &'a [Option<Lsa<A>>],
}

impl<'a, A: Allocator> Model for Lsas<'a, A> {
    ghost use Rattle.std.specs.Prelude.{List, ℕ};

    ghost Value = { List (List ℕ) };

    ghost use Rattle.lsdb.specs.Slots.{full};

    ghost view = { λ s. full s.slots.now };
}

impl<'a, A: Allocator + Copy> Lsas<'a, A> {
    /// The LSAs of the full slots.
    pub(crate) fn of(slots: &'a [Option<Lsa<A>>]) -> Lsas<'a, A>
        ensures { result ≡ full slots.now }
    {
        Lsas { slots }
    }
}

impl<'a, A: Allocator + Copy> Iterator for Lsas<'a, A> {
    type Item = &'a Lsa<A>;

    ghost next_gives = { YieldsFirstRef (λ s. s) };

    ghost remaining = { item_count (λ s. s) };

    fn next(&mut self) -> Option<&'a Lsa<A>> {
        let (lsa, others) = first_full(self.slots)?;
        self.slots = others;
        Some(lsa)
    }
}

/// The LSA at the first full slot, and the slots after it.
fn first_full<'a, A: Allocator + Copy>(
    slots: &'a [Option<Lsa<A>>],
) -> Option<(&'a Lsa<A>, &'a [Option<Lsa<A>>])>
    ensures { MatchOption result (full slots.now ≡ [])
        (λ found. full slots.now ≡ found.0.now ∷ full found.1.now) }
{
    for index in 0..slots.len() {
        if let Some(lsa) = &slots[index] {
            return Some((lsa, &slots[index + 1..]));
        }
    }
    None
}
