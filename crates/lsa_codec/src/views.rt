//! LSAs of types 1 to 5 by their fields (RFC 2328, A.4.2 to A.4.5). The views borrow the bytes
//! of the LSA and take no memory.

ghost use Rattle.std.specs.Prelude.{◌≡◌, ◌≢◌, ◌≤◌, ◌<◌, ◌+◌, ◌*◌, ◌^◌, length, true, false, MatchOption};
ghost use Rattle.std.specs.Iterator.{YieldsFirst, item_count};
ghost use Rattle.lsa_codec.specs.Fields.{kind_of, byte_at, mask_of};
ghost use Rattle.lsa_codec.specs.Links.{links_of, link_count, link_numbered};
ghost use Rattle.lsa_codec.specs.LsTypes.{asbr_summary_lsa, external_lsa, network_lsa, router_lsa, summary_lsa};
ghost use Rattle.lsa_codec.specs.Prefix.{is_mask};
ghost use Rattle.lsa_codec.specs.Accepted.{IsAccepted};
ghost use Rattle.lsa_codec.specs.Views.{net_of_lsa, net_of_summary, routers_from, attached_of, has_metric, metric_of, is_type2_of, forward_of, tag_of};

use crate::address::{Addr, RouterId};
use crate::field::{u16_at, u24_at, u32_at};
use crate::link::Link;
use crate::links::Links;
use crate::ls_type::{ASBR_SUMMARY_LSA, EXTERNAL_LSA, NETWORK_LSA, ROUTER_LSA, SUMMARY_LSA};
use crate::lsa::Lsa;
use crate::prefix::{Prefix, len_of_mask};
use std::alloc::Allocator;
use std::marker::Model;

/// A router-LSA, seen as its bytes (RFC 2328, A.4.2).
#[derive(Drop)]
pub struct RouterView<'a> {
    lsa: &'a [u8],
}

impl<'a> Model for RouterView<'a> {
    ghost use Rattle.std.specs.Prelude.{◌≡◌, List, ℕ};
    ghost use Rattle.lsa_codec.specs.Fields.{kind_of};
    ghost use Rattle.lsa_codec.specs.LsTypes.{router_lsa};
    ghost use Rattle.lsa_codec.specs.Accepted.{IsAccepted};

    ghost Value = { List ℕ };

    ghost view = { λ v. v.lsa.now };

    ghost invariant = { λ v. IsAccepted v.lsa.now × (kind_of v.lsa.now ≡ router_lsa) };
}

/// A network-LSA, seen as its bytes (RFC 2328, A.4.3).
#[derive(Drop)]
pub struct NetworkView<'a> {
    lsa: &'a [u8],
}

impl<'a> Model for NetworkView<'a> {
    ghost use Rattle.std.specs.Prelude.{◌≡◌, ◌≤◌, ◌<◌, ◌^◌, length, List, ℕ, true};
    ghost use Rattle.lsa_codec.specs.Fields.{mask_of};
    ghost use Rattle.lsa_codec.specs.Prefix.{is_mask};

    ghost Value = { List ℕ };

    ghost view = { λ v. v.lsa.now };

    ghost invariant = { λ v. (24 ≤ length v.lsa.now) × (length v.lsa.now < 2 ^ 16)
        × (is_mask (mask_of v.lsa.now) ≡ true) };
}

/// A summary-LSA, of type 3 (a network) or 4 (an AS boundary router), seen as its bytes
/// (RFC 2328, A.4.4).
#[derive(Drop)]
pub struct SummaryView<'a> {
    lsa: &'a [u8],
}

impl<'a> Model for SummaryView<'a> {
    ghost use Rattle.std.specs.Prelude.{◌≡◌, ◌≤◌, length, List, ℕ, true};
    ghost use Rattle.lsa_codec.specs.Fields.{kind_of, mask_of};
    ghost use Rattle.lsa_codec.specs.LsTypes.{summary_lsa};
    ghost use Rattle.lsa_codec.specs.Prefix.{is_mask};

    ghost Value = { List ℕ };

    ghost view = { λ v. v.lsa.now };

    ghost invariant = { λ v. (28 ≤ length v.lsa.now)
        × (kind_of v.lsa.now ≡ summary_lsa → is_mask (mask_of v.lsa.now) ≡ true) };
}

/// An AS-external-LSA, seen as its bytes (RFC 2328, A.4.5).
#[derive(Drop)]
pub struct ExternalView<'a> {
    lsa: &'a [u8],
}

impl<'a> Model for ExternalView<'a> {
    ghost use Rattle.std.specs.Prelude.{◌≡◌, ◌≤◌, length, List, ℕ, true};
    ghost use Rattle.lsa_codec.specs.Fields.{mask_of};
    ghost use Rattle.lsa_codec.specs.Prefix.{is_mask};

    ghost Value = { List ℕ };

    ghost view = { λ v. v.lsa.now };

    ghost invariant = { λ v. (36 ≤ length v.lsa.now) × (is_mask (mask_of v.lsa.now) ≡ true) };
}

impl<A: Allocator + Copy> Lsa<A> {
    /// The LSA as a router-LSA, where it is one, which is type 1.
    pub fn router(&self) -> Option<RouterView<'_>>
        ensures { MatchOption result (kind_of self.now ≢ router_lsa)
            (λ view. (view ≡ self.now) × (kind_of self.now ≡ router_lsa) × IsAccepted self.now) }
    {
        let lsa = self.bytes();
        if lsa[3] != ROUTER_LSA {
            return None;
        }
        Some(RouterView { lsa })
    }

    /// The LSA as a network-LSA, where it is one, which is type 2.
    pub fn network(&self) -> Option<NetworkView<'_>>
        ensures { MatchOption result (kind_of self.now ≢ network_lsa)
            (λ view. (view ≡ self.now) × (kind_of self.now ≡ network_lsa)) }
    {
        let lsa = self.bytes();
        if lsa[3] != NETWORK_LSA {
            return None;
        }
        Some(NetworkView { lsa })
    }

    /// The LSA as a summary-LSA, where it is one, which is type 3 or 4.
    pub fn summary(&self) -> Option<SummaryView<'_>>
        ensures { MatchOption result
            ((kind_of self.now ≢ summary_lsa) × (kind_of self.now ≢ asbr_summary_lsa))
            (λ view. (view ≡ self.now) × (3 ≤ kind_of self.now) × (kind_of self.now ≤ 4)) }
    {
        let lsa = self.bytes();
        if lsa[3] != SUMMARY_LSA && lsa[3] != ASBR_SUMMARY_LSA {
            return None;
        }
        Some(SummaryView { lsa })
    }

    /// The LSA as an AS-external-LSA, where it is one, which is type 5.
    pub fn external(&self) -> Option<ExternalView<'_>>
        ensures { MatchOption result (kind_of self.now ≢ external_lsa)
            (λ view. (view ≡ self.now) × (kind_of self.now ≡ external_lsa)) }
    {
        let lsa = self.bytes();
        if lsa[3] != EXTERNAL_LSA {
            return None;
        }
        Some(ExternalView { lsa })
    }
}

impl<'a> RouterView<'a> {
    /// The byte of flags: the bits V (4, an endpoint of a virtual link), E (2, an AS boundary
    /// router) and B (1, an area border router), and others as they are.
    pub fn flags(&self) -> u8
        ensures { result ≡ byte_at 20 self.now }
    {
        self.lsa[20]
    }

    /// The number of links.
    pub fn link_count(&self) -> u16
        ensures { result ≡ link_count self.now }
    {
        u16_at(self.lsa, 22)
    }

    /// The links, in the order of the LSA.
    pub fn links(&self) -> Links<'a>
        ensures { result ≡ links_of self.now }
    {
        Links::of(self.lsa)
    }

    /// Link `k`, counted from 1, and None where there is no link `k`.
    pub fn link_numbered(&self, k: u16) -> Option<Link>
        ensures { result ≡ link_numbered k self.now }
    {
        if k == 0 {
            return None;
        }
        self.links().nth(usize::from(k) - 1)
    }
}

impl<'a> NetworkView<'a> {
    /// The prefix of the network: the Link State ID, which is the Designated Router's address,
    /// with the bits past the mask set to 0.
    pub fn net(&self) -> Prefix
        ensures { result ≡ net_of_lsa self.now }
    {
        net_at(self.lsa)
    }

    /// The mask of the network, ones followed by zeros.
    pub fn mask(&self) -> u32
        ensures { result ≡ mask_of self.now }
    {
        mask_at(self.lsa)
    }

    /// The Router IDs of the routers attached to the network, in the order of the LSA.
    pub fn attached(&self) -> Attached<'a>
        ensures { result ≡ attached_of self.now }
    {
        Attached {
            lsa: self.lsa,
            left: (self.lsa.len() - 24) / 4,
            offset: 24,
        }
    }
}

impl<'a> SummaryView<'a> {
    /// The prefix of the network: the Link State ID, the bits past the mask set to 0. None for an
    /// LSA of type 4, whose Link State ID is the Router ID of an AS boundary router.
    pub fn net(&self) -> Option<Prefix>
        ensures { result ≡ net_of_summary self.now }
    {
        if self.lsa[3] != SUMMARY_LSA {
            return None;
        }
        Some(net_at(self.lsa))
    }

    /// The mask of the network, ones followed by zeros. In a type 4 LSA it has no meaning and may
    /// be any number.
    pub fn mask(&self) -> u32
        ensures { result ≡ mask_of self.now }
    {
        mask_at(self.lsa)
    }

    /// The cost of the route for TOS 0, a number of 24 bits. [`LS_INFINITY`](crate::LS_INFINITY)
    /// means that there is no route (RFC 2328, appendix B).
    pub fn metric(&self) -> u32
        ensures { result ≡ metric_of self.now }
    {
        metric_at(self.lsa)
    }
}

impl<'a> ExternalView<'a> {
    /// The prefix of the network: the Link State ID, the bits past the mask set to 0.
    pub fn net(&self) -> Prefix
        ensures { result ≡ net_of_lsa self.now }
    {
        net_at(self.lsa)
    }

    /// The mask of the network, ones followed by zeros.
    pub fn mask(&self) -> u32
        ensures { result ≡ mask_of self.now }
    {
        mask_at(self.lsa)
    }

    /// Whether bit E is set: the metric is of type 2, so larger than any cost within the AS.
    pub fn is_type2(&self) -> bool
        ensures { result ≡ is_type2_of self.now }
    {
        self.lsa[24] >= 128
    }

    /// The cost of the route for TOS 0, a number of 24 bits. [`LS_INFINITY`](crate::LS_INFINITY)
    /// means that there is no route (RFC 2328, appendix B).
    pub fn metric(&self) -> u32
        ensures { result ≡ metric_of self.now }
    {
        metric_at(self.lsa)
    }

    /// The forwarding address for TOS 0. 0.0.0.0 means the router that originated the LSA.
    pub fn forward(&self) -> Addr
        ensures { result.0 ≡ forward_of self.now }
    {
        Addr(u32_at(self.lsa, 28))
    }

    /// The external route tag for TOS 0, which OSPF itself does not use.
    pub fn tag(&self) -> u32
        ensures { result ≡ tag_of self.now }
    {
        u32_at(self.lsa, 32)
    }
}

/// The mask of a network-LSA, summary-LSA or AS-external-LSA, which follows the header.
fn mask_at(lsa: &[u8]) -> u32
    requires { 24 ≤ length lsa.now }
    ensures { result ≡ mask_of lsa.now }
{
    u32_at(lsa, 20)
}

/// The prefix of a network-LSA, summary-LSA of type 3 or AS-external-LSA.
fn net_at(lsa: &[u8]) -> Prefix
    requires body { 24 ≤ length lsa.now }
    requires mask { is_mask (mask_of lsa.now) ≡ true }
    ensures { result ≡ net_of_lsa lsa.now }
{
    Prefix::masked(Addr(u32_at(lsa, 4)), len_of_mask(mask_at(lsa)))
}

/// The metric of a summary-LSA or AS-external-LSA.
fn metric_at(lsa: &[u8]) -> u32
    requires { 28 ≤ length lsa.now }
    ensures { result ≡ metric_of lsa.now }
{
    u24_at(lsa, 25)
}

/// An iterator over the Router IDs in a network-LSA, in the order of the LSA. It takes no memory,
/// and is seen as the list of those that are left.
#[derive(Drop)]
pub struct Attached<'a> {
    lsa: &'a [u8],
    left: usize,
    offset: usize,
}

impl<'a> Model for Attached<'a> {
    ghost use Rattle.std.specs.Prelude.{List, ◌≤◌, ◌<◌, ◌+◌, ◌*◌, ◌^◌, length};
    ghost use Rattle.lsa_codec.specs.declared.address.RouterId.{RouterId};

    ghost Value = { List RouterId };

    ghost use Rattle.lsa_codec.specs.Views.{routers_from};

    ghost view = { λ s. routers_from s.left s.offset s.lsa.now };

    ghost invariant = { λ s. (s.offset + 4 * s.left ≤ length s.lsa.now)
        × (length s.lsa.now < 2 ^ 16) };
}

impl<'a> Iterator for Attached<'a> {
    type Item = RouterId;

    ghost next_gives = { YieldsFirst (λ s. s) };

    ghost remaining = { item_count (λ s. s) };

    /// The next Router ID, and None after the last.
    fn next(&mut self) -> Option<RouterId> {
        if self.left == 0 {
            return None;
        }
        let router = RouterId(u32_at(self.lsa, self.offset));
        self.left -= 1;
        self.offset += 4;
        Some(router)
    }
}
