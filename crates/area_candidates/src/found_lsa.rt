//! LSAs that were looked up.

ghost use Rattle.std.specs.Prelude.{◌≡◌};
ghost use Rattle.lsa_names.specs.LsaNames.{lsa_name};

use lsa_codec::{AreaId, Lsa};
use lsa_names::LsaName;
use std::alloc::Allocator;
use std::marker::Model;

/// An LSA of an area, or of AS scope where there is no area.
#[derive(Drop)]
pub struct FoundLsa<'a, A: Allocator> {
    pub(crate) area: Option<AreaId>,
    pub(crate) lsa: &'a Lsa<A>,
}

impl<'a, A: Allocator> Model for FoundLsa<'a, A> {
    ghost use Rattle.area_candidates.specs.InOrder.{FoundValue};

    ghost Value = { FoundValue };

    ghost view = { λ f. record { area = f.area; lsa = f.lsa.now } };
}

impl<'a, A: Allocator + Copy> FoundLsa<'a, A> {
    /// The LSA.
    pub fn lsa(&self) -> &'a Lsa<A>
        ensures { result.now ≡ self.now.lsa }
    {
        self.lsa
    }

    /// Its name.
    pub fn name(&self) -> LsaName
        ensures { result ≡ lsa_name self.now.area self.now.lsa }
    {
        LsaName::of(self.area, self.lsa)
    }
}
