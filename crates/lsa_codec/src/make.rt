//! Router-LSAs with another cost of a link.

ghost use Rattle.std.specs.Prelude.{◌≡◌, ◌+◌, ◌≤◌, ◌<◌, ◌^◌, length, IfOk, IfErr, Ok};
ghost use Rattle.lsa_codec.specs.Fields.{kind_of};
ghost use Rattle.lsa_codec.specs.LsTypes.{router_lsa};
ghost use Rattle.lsa_codec.specs.Making.{with_cost, with_metric_of, IsMakeFaultOf, IsRewriteOf};

use crate::checksum::set_checksum;
use crate::fault::MakeFault;
use crate::field::put_u16;
use crate::link::Link;
use crate::lsa::Lsa;
use std::alloc::{AllocError, Allocator};

/// Replaces the metric of a link, and sets the checksum again.
fn set_metric(lsa: &mut [u8], link: Link, metric: u16)
    requires low { 24 ≤ link.offset }
    requires fits { link.offset + 12 ≤ length lsa.old }
    requires short { length lsa.old < 2 ^ 16 }
    ensures { lsa.new ≡ with_metric_of link metric lsa.old }
{
    put_u16(lsa, link.offset + 10, metric);
    set_checksum(lsa);
}

/// A copy with the metric of a link replaced.
fn with_metric_of<A: Allocator + Copy>(
    alloc: A,
    lsa: &[u8],
    link: Link,
    metric: u16,
) -> Result<Vec<u8, A>, AllocError>
    requires low { 24 ≤ link.offset }
    requires fits { link.offset + 12 ≤ length lsa.now }
    requires short { length lsa.now < 2 ^ 16 }
    ensures { IfOk result (λ v. v.items ≡ with_metric_of link metric lsa.now) }
{
    let mut bytes = Vec::from_slice(alloc, lsa)?;
    set_metric(&mut bytes, link, metric);
    Ok(bytes)
}

impl<A: Allocator + Copy> Lsa<A> {
    /// The router-LSA with the metric of link `k`, counted from 1, replaced and its checksum set
    /// again. All other bytes stay, and so do the TOS metrics. For router-LSAs alone.
    ///
    /// # Errors
    ///
    /// `NoLink` where there is no link `k`, then `ZeroCost` where the metric is 0 and link `k`
    /// leads to a router or to a transit network, then `OutOfMemory`.
    pub fn with_cost(&self, alloc: A, k: u16, metric: u16) -> Result<Lsa<A>, MakeFault>
        requires router { kind_of self.now ≡ router_lsa }
        ensures made { IfOk result (λ lsa. with_cost k metric self.now ≡ Ok lsa) }
        ensures keeps { IfOk result (λ lsa. IsRewriteOf self.now lsa) }
        ensures fault { IfErr result (λ fault. IsMakeFaultOf fault (with_cost k metric self.now)) }
    {
        let Some(router) = self.router() else {
            return Err(MakeFault::NoLink);
        };
        let Some(link) = router.link_numbered(k) else {
            return Err(MakeFault::NoLink);
        };
        if link.kind.has_cost() && metric == 0 {
            return Err(MakeFault::ZeroCost);
        }
        let bytes = with_metric_of(alloc, self.bytes(), link, metric)?;
        Ok(Lsa::accepted(bytes))
    }
}
