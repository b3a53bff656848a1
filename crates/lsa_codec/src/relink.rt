//! Router-LSAs with fewer or more links than another. The kept links keep their bytes and order;
//! the number of links, length and checksum are set again.

ghost use Rattle.std.specs.Prelude.{◌≡◌, ◌+◌, ◌≤◌, ◌<◌, ◌^◌, ◌++◌, ◌-◌, ℕ, List, Bool, map, not, true, is_some, length, take, IfOk, IfErr, Ok};
ghost use Rattle.std.specs.List.{All, flat_map, filter, list_any, remove};
ghost use Rattle.lsa_codec.specs.declared.link.Link.{Link};
ghost use Rattle.lsa_codec.specs.Accepted.{IsAccepted};
ghost use Rattle.lsa_codec.specs.declared.fault.MakeFault.TheVariants.{OutOfMemory};
ghost use Rattle.lsa_codec.specs.Fields.{kind_of};
ghost use Rattle.lsa_codec.specs.Links.{links_of, link_count, link_length, link_numbered, unplaced};
ghost use Rattle.lsa_codec.specs.LsTypes.{router_lsa};
ghost use Rattle.lsa_codec.specs.Making.{recounted, link_text, with_links, without_link, without_links, leads_to, leads_to_net, is_end_of, with_stub, stub_text, IsMakeFaultOf, IsRewriteOf, IsExtensionOf, IsLinkOf};

use crate::address::{Addr, RouterId};
use crate::checksum::set_checksum;
use crate::fault::MakeFault;
use crate::field::{put_u16, put_u32, u16_at};
use crate::link::{Link, LinkKind};
use crate::lsa::{LONGEST_LSA, Lsa};
use crate::prefix::Prefix;
use crate::views::RouterView;
use std::alloc::{AllocError, Allocator};

/// What the links to be removed lead to.
#[derive(Clone, Copy)]
enum Target {
    /// The router of this Router ID, over a point-to-point link.
    Router(RouterId),
    /// The transit network whose Designated Router has this address.
    Net(Addr),
}

/// Sets the number of links, length and checksum again.
fn recount(lsa: &mut [u8], count: u16)
    requires header { 24 ≤ length lsa.old }
    requires short { length lsa.old < 2 ^ 16 }
    ensures { lsa.new ≡ recounted count lsa.old }
{
    let size = lsa.len() as u16;
    put_u16(lsa, 22, count);
    put_u16(lsa, 18, size);
    set_checksum(lsa);
}

/// How many bytes a link has, its TOS metrics included.
fn link_length(lsa: &[u8], link: Link) -> usize
    requires { link.offset + 12 ≤ length lsa.now }
    ensures { result ≡ link_length link.offset lsa.now }
{
    12 + 4 * usize::from(lsa[link.offset + 9])
}

/// The bytes of an LSA before its links, and then those of these links.
fn link_texts<A: Allocator + Copy>(
    alloc: A,
    lsa: &[u8],
    kept: &[Link],
) -> Result<Vec<u8, A>, AllocError>
    requires header { 24 ≤ length lsa.now }
    requires links { All (IsLinkOf lsa.now) kept.now }
    ensures { IfOk result (λ v. v.items
        ≡ take 24 lsa.now ++ flat_map (link_text lsa.now) kept.now) }
{
    let mut bytes = Vec::from_slice(alloc, &lsa[..24])?;
    for link in kept {
        let end = link.offset + link_length(lsa, *link);
        bytes.extend_from_slice(&lsa[link.offset..end])?;
    }
    Ok(bytes)
}

impl<A: Allocator + Copy> Lsa<A> {
    /// The router-LSA with only these of its links, in this order.
    fn with_links(&self, alloc: A, kept: &[Link]) -> Result<Lsa<A>, MakeFault>
        requires router { kind_of self.now ≡ router_lsa }
        requires links { All (IsLinkOf self.now) kept.now }
        requires shorter { 24 + length (flat_map (link_text self.now) kept.now) ≤ length self.now }
        ensures made { IfOk result (λ lsa. lsa ≡ with_links kept.now self.now) }
        ensures fault { IfErr result (λ fault. fault ≡ OutOfMemory) }
    {
        let mut bytes = link_texts(alloc, self.bytes(), kept)?;
        recount(&mut bytes, kept.len() as u16);
        Ok(Lsa::accepted(bytes))
    }

    /// The router-LSA without link `k`, counted from 1, and without its TOS metrics. For
    /// router-LSAs alone.
    ///
    /// # Errors
    ///
    /// `NoLink` where there is no link `k`, then `OutOfMemory`.
    pub fn without_link(&self, alloc: A, k: u16) -> Result<Lsa<A>, MakeFault>
        requires router { kind_of self.now ≡ router_lsa }
        ensures made { IfOk result (λ lsa. without_link k self.now ≡ Ok lsa) }
        ensures keeps { IfOk result (λ lsa. IsRewriteOf self.now lsa) }
        ensures fault { IfErr result (λ fault. IsMakeFaultOf fault (without_link k self.now)) }
    {
        let Some(router) = self.router() else {
            return Err(MakeFault::NoLink);
        };
        if router.link_numbered(k).is_none() {
            return Err(MakeFault::NoLink);
        }
        let kept = links_but(&router, alloc, k)?;
        self.with_links(alloc, &kept)
    }

    /// The router-LSA without its point-to-point links to a router. Virtual links to it stay. For
    /// router-LSAs alone.
    ///
    /// # Errors
    ///
    /// `NoLink` where it has no such link, then `OutOfMemory`.
    pub fn without_links_to(&self, alloc: A, router: RouterId) -> Result<Lsa<A>, MakeFault>
        requires router { kind_of self.now ≡ router_lsa }
        ensures made { IfOk result (λ lsa. without_links (leads_to router) self.now ≡ Ok lsa) }
        ensures keeps { IfOk result (λ lsa. IsRewriteOf self.now lsa) }
        ensures fault { IfErr result (λ fault.
            IsMakeFaultOf fault (without_links (leads_to router) self.now)) }
    {
        self.without_links(alloc, Target::Router(router))
    }

    /// The router-LSA without its links to the transit network whose Designated Router has this
    /// address. For router-LSAs alone.
    ///
    /// # Errors
    ///
    /// `NoLink` where it has no such link, then `OutOfMemory`.
    pub fn without_net_links(&self, alloc: A, addr: Addr) -> Result<Lsa<A>, MakeFault>
        requires router { kind_of self.now ≡ router_lsa }
        ensures made { IfOk result (λ lsa. without_links (leads_to_net addr) self.now ≡ Ok lsa) }
        ensures keeps { IfOk result (λ lsa. IsRewriteOf self.now lsa) }
        ensures fault { IfErr result (λ fault.
            IsMakeFaultOf fault (without_links (leads_to_net addr) self.now)) }
    {
        self.without_links(alloc, Target::Net(addr))
    }

    /// The router-LSA without its links to a target.
    fn without_links(&self, alloc: A, target: Target) -> Result<Lsa<A>, MakeFault>
        requires router { kind_of self.now ≡ router_lsa }
        ensures made { IfOk result (λ lsa. without_links (is_end_of target) self.now ≡ Ok lsa) }
        ensures keeps { IfOk result (λ lsa. IsRewriteOf self.now lsa) }
        ensures fault { IfErr result (λ fault.
            IsMakeFaultOf fault (without_links (is_end_of target) self.now)) }
    {
        let Some(router) = self.router() else {
            return Err(MakeFault::NoLink);
        };
        if !has_link_to(&router, target) {
            return Err(MakeFault::NoLink);
        }
        let kept = links_elsewhere(&router, alloc, target)?;
        self.with_links(alloc, &kept)
    }

    /// The router-LSA with a stub link to a prefix after its last link, of this metric and without
    /// TOS metrics. For router-LSAs alone.
    ///
    /// # Errors
    ///
    /// `TooLong` where it would have more than 65,535 bytes, then `OutOfMemory`.
    pub fn with_stub(&self, alloc: A, net: Prefix, metric: u16) -> Result<Lsa<A>, MakeFault>
        requires router { kind_of self.now ≡ router_lsa }
        ensures made { IfOk result (λ lsa. with_stub net metric self.now ≡ Ok lsa) }
        ensures keeps { IfOk result (λ lsa. IsExtensionOf self.now lsa) }
        ensures fault { IfErr result
            (λ fault. IsMakeFaultOf fault (with_stub net metric self.now)) }
    {
        if self.bytes().len() + 12 > LONGEST_LSA {
            return Err(MakeFault::TooLong);
        }
        let bytes = extended(alloc, self.bytes(), net, metric)?;
        Ok(Lsa::accepted(bytes))
    }
}

impl Target {
    /// Whether a link leads there.
    fn is_end_of(self, link: Link) -> bool
        ensures { result ≡ is_end_of self link }
    {
        match self {
            Target::Router(router) => matches!(link.kind, LinkKind::PointToPoint)
                && link.id.0 == router.0,
            Target::Net(addr) => matches!(link.kind, LinkKind::Transit) && link.id.0 == addr.0,
        }
    }
}

/// All links, in order.
fn all_links<A: Allocator + Copy>(
    router: &RouterView<'_>,
    alloc: A,
) -> Result<Vec<Link, A>, AllocError>
    ensures { IfOk result (λ links. links.items ≡ links_of router.now) }
{
    router.links().collect(alloc)
}

/// All links but link `k`, in order.
fn links_but<A: Allocator + Copy>(
    router: &RouterView<'_>,
    alloc: A,
    k: u16,
) -> Result<Vec<Link, A>, AllocError>
    requires { is_some (link_numbered k router.now) ≡ true }
    ensures { IfOk result (λ links. links.items ≡ remove (links_of router.now) (k - 1)) }
{
    let mut links = all_links(router, alloc)?;
    links.remove(usize::from(k) - 1);
    Ok(links)
}

/// Whether one of the links leads to a target.
fn has_link_to(router: &RouterView<'_>, target: Target) -> bool
    ensures { result ≡ list_any (is_end_of target) (links_of router.now) }
{
    router.links().any(|link| target.is_end_of(link))
}

/// The links that do not lead to a target, in order.
fn links_elsewhere<A: Allocator + Copy>(
    router: &RouterView<'_>,
    alloc: A,
    target: Target,
) -> Result<Vec<Link, A>, AllocError>
    ensures { IfOk result (λ links.
        links.items ≡ filter (λ link. not (is_end_of target link)) (links_of router.now)) }
{
    router
        .links()
        .filter(|link| !target.is_end_of(*link))
        .collect(alloc)
}

/// The bytes of a stub link (RFC 2328, A.4.2).
fn stub_text(net: Prefix, metric: u16) -> [u8; 12]
    ensures text { result ≡ stub_text net metric }
    ensures prefix { net.len ≤ 32 }
{
    let mut text = [0; 12];
    put_u32(&mut text, 0, net.addr().0);
    put_u32(&mut text, 4, net.mask());
    text[8] = 3;
    put_u16(&mut text, 10, metric);
    text
}

/// The bytes of a router-LSA with a stub link after its last link.
fn extended<A: Allocator + Copy>(
    alloc: A,
    lsa: &[u8],
    net: Prefix,
    metric: u16,
) -> Result<Vec<u8, A>, AllocError>
    requires header { 24 ≤ length lsa.now }
    requires short { length lsa.now + 12 < 2 ^ 16 }
    requires few { link_count lsa.now + 1 < 2 ^ 16 }
    ensures made { IfOk result (λ v. v.items
        ≡ recounted (link_count lsa.now + 1) (lsa.now ++ stub_text net metric)) }
    ensures prefix { net.len ≤ 32 }
{
    let mut bytes = Vec::from_slice(alloc, lsa)?;
    bytes.extend_from_slice(&stub_text(net, metric))?;
    recount(&mut bytes, u16_at(lsa, 22) + 1);
    Ok(bytes)
}
