//! The distances of vertices while they are found, four bytes each.

ghost use Rattle.std.specs.Prelude.{◌≡◌, ◌<◌, ◌+◌, ◌%◌, ◌^◌, length, replicate, slice_set, slice_index_or, IfOk, None};
ghost use Rattle.spf.specs.steps.Table.{settled_in, unreached};

use std::alloc::{AllocError, Allocator};
use std::marker::Model;

/// What a number is less than if it is the distance of a vertex that is settled. Where a vertex
/// has a candidate, its number is this and the distance of the nearest candidate: distances are
/// below 8,192 * 2^16.
const WAITING: u32 = 2_147_483_648;

/// The number of a vertex that is not reached.
const UNREACHED: u32 = u32::MAX;

/// A number for each vertex: its distance where it is settled, and else the distance of its nearest
/// candidate and 2^31. Contracts see the list of these numbers.
#[derive(Drop)]
pub(crate) struct DistanceTable<A: Allocator> {
    numbers: Vec<u32, A>,
}

impl<A: Allocator> Model for DistanceTable<A> {
    ghost use Rattle.std.specs.Prelude.{ℕ, List};

    ghost Value = { List ℕ };

    ghost view = { λ t. t.numbers.items };
}

impl<A: Allocator + Copy> DistanceTable<A> {
    /// This number of vertices, none of them reached.
    pub(crate) fn new(alloc: A, count: usize) -> Result<DistanceTable<A>, AllocError>
        ensures { IfOk result (λ table. table ≡ replicate count unreached) }
    {
        let numbers = vec![in alloc; UNREACHED; count]?;
        Ok(DistanceTable { numbers })
    }

    /// The distance of a vertex that is settled.
    pub(crate) fn get(&self, index: usize) -> Option<u32>
        requires { index < length self.now }
        ensures value { result ≡ slice_index_or (settled_in self.now) index None }
    {
        let number = self.numbers[index];
        if number < WAITING { Some(number) } else { None }
    }

    /// The distance of a vertex that is settled, or else of its nearest candidate, and more than
    /// any distance where there is none.
    pub(crate) fn least(&self, index: usize) -> u32
        requires { index < length self.now }
        ensures least { result ≡ slice_index_or self.now index unreached % 2 ^ 31 }
        ensures fits { slice_index_or self.now index unreached < 2 ^ 32 }
    {
        self.numbers[index] % WAITING
    }

    /// Notes the distance of a candidate for a vertex.
    pub(crate) fn note(&mut self, index: usize, distance: u32)
        requires within { index < length self.old }
        requires small { distance < 2 ^ 31 }
        ensures { self.new ≡ slice_set self.old index (distance + 2 ^ 31) }
    {
        self.numbers[index] = distance + WAITING;
    }

    /// Gives a vertex its distance.
    pub(crate) fn set(&mut self, index: usize, distance: u32)
        requires { index < length self.old }
        ensures { self.new ≡ slice_set self.old index distance }
    {
        self.numbers[index] = distance;
    }
}
