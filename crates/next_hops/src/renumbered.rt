//! Lists of hops under new numbers.

ghost use Rattle.std.specs.Prelude.{◌≡◌, ◌<◌, ◌≤◌, ◌+◌, ◌^◌, [], length, IfOk, OnOk};
ghost use Rattle.next_hops.specs.steps.Renumbered.{IsRenumbered};
ghost use Rattle.next_hops.specs.steps.Shared.{AreSorted, Keeps, list_in};

use crate::hop::Hop;
use crate::shared::{DistinctLists, list_at};
use std::alloc::{AllocError, Allocator};

/// Lists that were asked for, in the order in which each was first asked for.
#[derive(Drop)]
pub(crate) struct Renumbered<A: Allocator> {
    pub(crate) lists: Vec<Vec<Hop, A>, A>,
    places: Vec<Option<u16>, A>,
}

impl<A: Allocator + Copy> Renumbered<A> {
    /// None of these lists.
    pub(crate) fn new(alloc: A, lists: &DistinctLists<A>) -> Result<Renumbered<A>, AllocError>
        ensures none { IfOk result (λ renumbered. renumbered.lists.items ≡ []) }
        ensures renumbered { IfOk result (λ renumbered. IsRenumbered lists.now.keys renumbered) }
    {
        Ok(Renumbered {
            lists: Vec::new(alloc),
            places: vec![in alloc; None; lists.len()]?,
        })
    }

    /// The new number of the list with a number.
    pub(crate) fn number_of(
        &mut self,
        alloc: A,
        number: usize,
        lists: &DistinctLists<A>,
    ) -> Result<u16, AllocError>
        requires number { number < length lists.now.keys }
        requires few { length self.old.lists.items < 2 ^ 16 }
        requires sorted { AreSorted lists.now.keys }
        requires renumbered { IsRenumbered lists.now.keys self.old }
        ensures within { IfOk result (λ n. n < length self.new.lists.items) }
        ensures list { IfOk result
            (λ n. list_in self.new.lists.items n ≡ list_in lists.now.keys number) }
        ensures few { OnOk result
            (length self.new.lists.items ≤ length self.old.lists.items + 1) }
        ensures keeps { OnOk result (Keeps self.old.lists.items self.new.lists.items) }
        ensures renumbered { OnOk result (IsRenumbered lists.now.keys self.new) }
    {
        if let Some(place) = self.places[number] {
            return Ok(place);
        }
        let place = self.lists.len() as u16;
        self.lists
            .push(Vec::from_slice(alloc, list_at(lists, number))?)?;
        self.places[number] = Some(place);
        Ok(place)
    }
}
