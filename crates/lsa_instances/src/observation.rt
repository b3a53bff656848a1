//! LSAs as a file contains them.

ghost use Rattle.std.specs.Prelude.{◌≡◌, IfOk};
ghost use Rattle.lsa_instances.specs.Order.{place_of};

use crate::place::{Place, Scope};
use lsa_codec::Lsa;
use std::alloc::{AllocError, Allocator, Global};

/// An LSA in a file: an instance of it, and one of the copies of this instance.
#[derive(Debug, Drop)]
pub struct Observation<A: Allocator = Global> {
    /// Where the LSA is flooded.
    pub scope: Scope,
    /// When it was seen, in nanoseconds since 1970; `None` where the file has no time stamps.
    pub seen: Option<u64>,
    /// The LSA, byte for byte.
    pub lsa: Lsa<A>,
}

impl<A: Allocator + Copy> Observation<A> {
    /// Its scope and key.
    pub fn place(&self) -> Place
        ensures { result ≡ place_of self.now }
    {
        Place {
            scope: self.scope,
            key: self.lsa.key(),
        }
    }

    /// The same observation, with its bytes in memory of this allocator.
    ///
    /// # Errors
    ///
    /// Memory ran out.
    pub fn clone_of(&self, alloc: A) -> Result<Observation<A>, AllocError>
        ensures { IfOk result (λ copy. copy ≡ self.now) }
    {
        Ok(Observation {
            scope: self.scope,
            seen: self.seen,
            lsa: self.lsa.clone_of(alloc)?,
        })
    }
}
