//! Tests of LSAs.

use crate::scope::AreaScope;
use lsa_codec::Lsa;
use std::alloc::Allocator;

/// A test of the LSAs of areas, and of those of AS scope.
pub trait LsaTest {
    ghost use Rattle.std.specs.Prelude.{◌≡◌};
    ghost use Rattle.audit_lsas.specs.Found.{TestBy};

    /// Which LSAs pass.
    ghost passes_as: { TestBy Self };

    /// Whether an LSA of an area, or of AS scope where there is no area, passes.
    fn passes<A: Allocator + Copy>(&self, scope: Option<AreaScope>, lsa: &Lsa<A>) -> bool
        ensures { result ≡ passes_as self.now scope lsa.now };
}
