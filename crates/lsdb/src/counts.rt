//! What LSAs count: how many they are, and what virtual links leave in them.

ghost use Rattle.std.specs.Prelude.{◌≡◌, ◌≤◌, length, [], ◌∷◌};
ghost use Rattle.lsa_codec.specs.Accepted.{longest_lsa};
ghost use Rattle.lsdb.specs.Counts.{AreFew, counts_of, has_bit_v, is_virtual, virtual_link_count};
ghost use Rattle.lsdb.specs.Limits.{most_lsas_of_as};
ghost use Rattle.lsdb.specs.Slots.{full};
ghost use Rattle.lsdb.specs.steps.Counting.{CanAdd, CanTake, with_counts, without_counts};

use lsa_codec::{Link, LinkKind, Lsa};
use std::alloc::Allocator;

/// Bit V of a router-LSA, of an endpoint of virtual links (RFC 2328, A.4.2).
const BIT_V: u8 = 4;

/// What the LSAs of a section count. An LSA counts at any age.
#[derive(Clone, Copy, Debug, PartialEq, Eq)]
pub struct LsaCounts {
    /// The LSAs.
    pub lsas: usize,
    /// The router-LSAs with bit V, which the endpoints of virtual links set in the router-LSA of
    /// the transit area (RFC 2328, A.4.2).
    pub virtual_ends: usize,
    /// The links of type 4, virtual links, of the router-LSAs (RFC 2328, A.4.2).
    pub virtual_links: usize,
}

impl LsaCounts {
    /// The counts of no LSAs.
    fn none() -> LsaCounts
        ensures { result ≡ counts_of [] }
    {
        LsaCounts {
            lsas: 0,
            virtual_ends: 0,
            virtual_links: 0,
        }
    }

    /// The counts of the LSA at a slot.
    pub(crate) fn of_slot<A: Allocator + Copy>(slot: &Option<Lsa<A>>) -> LsaCounts
        ensures counts { result ≡ counts_of (full (slot.now ∷ [])) }
        ensures few { AreFew 1 result }
    {
        match slot {
            Some(lsa) => LsaCounts {
                lsas: 1,
                virtual_ends: usize::from(has_bit_v(lsa)),
                virtual_links: virtual_link_count(lsa),
            },
            None => LsaCounts::none(),
        }
    }

    /// The counts of the LSAs at slots. It goes through them.
    pub(crate) fn of_slots<A: Allocator + Copy>(slots: &[Option<Lsa<A>>]) -> LsaCounts
        requires { length slots.now ≤ most_lsas_of_as }
        ensures { result ≡ counts_of (full slots.now) }
    {
        let mut counts = LsaCounts::none();
        for slot in slots {
            counts = counts.with(LsaCounts::of_slot(slot));
        }
        counts
    }

    /// These counts, and those of LSAs that come.
    pub(crate) fn with(self, come: LsaCounts) -> LsaCounts
        requires { CanAdd self come }
        ensures { result ≡ with_counts self come }
    {
        LsaCounts {
            lsas: self.lsas + come.lsas,
            virtual_ends: self.virtual_ends + come.virtual_ends,
            virtual_links: self.virtual_links + come.virtual_links,
        }
    }

    /// These counts, without those of LSAs that go.
    pub(crate) fn without(self, gone: LsaCounts) -> LsaCounts
        requires { CanTake self gone }
        ensures { result ≡ without_counts self gone }
    {
        LsaCounts {
            lsas: self.lsas - gone.lsas,
            virtual_ends: self.virtual_ends - gone.virtual_ends,
            virtual_links: self.virtual_links - gone.virtual_links,
        }
    }
}

/// Whether an LSA is a router-LSA with bit V.
fn has_bit_v<A: Allocator + Copy>(lsa: &Lsa<A>) -> bool
    ensures { result ≡ has_bit_v lsa.now }
{
    match lsa.router() {
        Some(router) => router.flags() & BIT_V != 0,
        None => false,
    }
}

/// How many virtual links an LSA describes.
fn virtual_link_count<A: Allocator + Copy>(lsa: &Lsa<A>) -> usize
    ensures count { result ≡ virtual_link_count lsa.now }
    ensures few { result ≤ longest_lsa }
{
    match lsa.router() {
        Some(router) => router.links().filter(is_virtual).count(),
        None => 0,
    }
}

/// Whether a link is a virtual link.
fn is_virtual(link: &Link) -> bool
    ensures { result ≡ is_virtual link.now.kind }
{
    matches!(link.kind, LinkKind::Virtual)
}
