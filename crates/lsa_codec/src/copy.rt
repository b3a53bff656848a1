//! A copy of an LSA.

ghost use Rattle.std.specs.Prelude.{◌≡◌, IfOk};

use crate::lsa::Lsa;
use std::alloc::{AllocError, Allocator};

impl<A: Allocator + Copy> Lsa<A> {
    /// An LSA of the same bytes, in memory of its own.
    ///
    /// # Errors
    ///
    /// Memory ran out.
    pub fn clone_of(&self, alloc: A) -> Result<Lsa<A>, AllocError>
        ensures { IfOk result (λ lsa. lsa ≡ self.now) }
    {
        let bytes = Vec::from_slice(alloc, self.bytes())?;
        Ok(Lsa::accepted(bytes))
    }
}
