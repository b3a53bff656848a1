//! Where the hops of a list are kept.

ghost use Rattle.std.specs.Prelude.{◌≡◌, ◌<◌, ◌≤◌, ◌^◌, [], length, insert, IfOk, OnOk, OnErr};
ghost use Rattle.std.specs.Bool.{OnTrue};
ghost use Rattle.std.specs.Prelude.{refl};
ghost use Rattle.next_hops.specs.steps.Storage.{bytes_of};

use crate::hop::Hop;
use smallvec::SmallVec;
use std::alloc::{AllocError, Allocator};
use std::marker::Model;
use std::mem;

/// An allocator, as a part of a list of hops.
pub(crate) trait HoldsHops: Allocator {
    ghost use Rattle.std.specs.Prelude.{ℕ};
    ghost use Rattle.next_hops.specs.steps.Storage.{bytes_of};

    /// The size of four hops and the allocator, in bytes.
    ghost bytes: { ℕ };

    /// Whether this size is less than half of the address space. It always is; for a type parameter
    /// a proof knows it from this test alone.
    fn fits() -> bool
        ensures { OnTrue result (bytes < 2 ^ 63) };

    ghost measured: { bytes ≡ bytes_of Self.row Self.Allocator };
}

impl<A: Allocator + Drop> HoldsHops for A {
    ghost bytes = { bytes_of A.row A.Allocator };

    fn fits() -> bool {
        let none: Option<SmallVec<Hop, 4, A>> = None;
        mem::size_of_val(&none) <= isize::MAX as usize
    }

    ghost measured = { refl };
}

/// Hops, up to four of them in the value itself and more in memory. Contracts see it as their list.
#[derive(Drop)]
pub(crate) struct Storage<A: Allocator + HoldsHops> {
    hops: SmallVec<Hop, 4, A>,
}

impl<A: Allocator + HoldsHops> Model for Storage<A> {
    ghost use Rattle.std.specs.Prelude.{List, ◌<◌, ◌^◌};
    ghost use Rattle.next_hops.specs.declared.hop.Hop.{Hop as AnyHop};

    ghost Value = { List AnyHop };

    ghost view = { λ s. s.hops.items };

    ghost invariant = { λ s. A.bytes < 2 ^ 63 };
}

impl<A: Allocator + Copy> Storage<A> {
    /// No hops.
    ///
    /// # Errors
    ///
    /// The value would take half of the address space.
    pub(crate) fn new(alloc: A) -> Result<Storage<A>, AllocError>
        ensures { IfOk result (λ storage. storage ≡ []) }
    {
        if !<A as HoldsHops>::fits() {
            return Err(AllocError);
        }
        Ok(Storage {
            hops: SmallVec::new(alloc),
        })
    }

    /// These hops.
    ///
    /// # Errors
    ///
    /// Memory ran out, or a value would take half of the address space.
    pub(crate) fn of(alloc: A, hops: &[Hop]) -> Result<Storage<A>, AllocError>
        ensures { IfOk result (λ storage. storage ≡ hops.now) }
    {
        if !<A as HoldsHops>::fits() {
            return Err(AllocError);
        }
        Ok(Storage {
            hops: SmallVec::from_slice(alloc, hops)?,
        })
    }

    /// The hops.
    pub(crate) fn as_slice(&self) -> &[Hop]
        ensures { result.now ≡ self.now }
    {
        self.hops.as_slice()
    }

    /// Inserts a hop at a place.
    pub(crate) fn insert(&mut self, place: usize, hop: Hop) -> Result<(), AllocError>
        requires { place ≤ length self.old }
        ensures ok { OnOk result (self.new ≡ insert self.old place hop) }
        ensures err { OnErr result (self.new ≡ self.old) }
    {
        if place == self.hops.len() {
            self.hops.push(hop)?;
        } else {
            self.hops.insert(place, hop)?;
        }
        Ok(())
    }

    /// A copy of the hops.
    pub(crate) fn clone_of(&self, alloc: A) -> Result<Storage<A>, AllocError>
        ensures { IfOk result (λ storage. storage ≡ self.now) }
    {
        Ok(Storage {
            hops: SmallVec::from_slice(alloc, self.hops.as_slice())?,
        })
    }
}
