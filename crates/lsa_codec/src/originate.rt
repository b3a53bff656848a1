//! Summary-LSAs and AS-external-LSAs with another metric, and new ones (RFC 2328, 12.4.3,
//! 12.4.4).

ghost use Rattle.std.specs.Prelude.{◌≡◌, ◌+◌, ◌≤◌, ◌<◌, ◌^◌, ◌++◌, length, true, IfOk, IfErr, Ok};
ghost use Rattle.lsa_codec.specs.declared.fault.MakeFault.TheVariants.{OutOfMemory};
ghost use Rattle.lsa_codec.specs.Fields.{kind_of};
ghost use Rattle.lsa_codec.specs.Checksum.{with_checksum};
ghost use Rattle.lsa_codec.specs.Views.{has_metric};
ghost use Rattle.lsa_codec.specs.Making.{IsRewriteOf};
ghost use Rattle.lsa_codec.specs.Originating.{with_metric, new_header, summary_body, new_summary, external_body, new_external};

use crate::address::{Addr, RouterId};
use crate::checksum::set_checksum;
use crate::fault::MakeFault;
use crate::field::{put_u16, put_u24, put_u32};
use crate::ls_type::{EXTERNAL_LSA, SUMMARY_LSA};
use crate::lsa::Lsa;
use crate::prefix::Prefix;
use std::alloc::{AllocError, Allocator};

/// Replaces the metric of a summary-LSA or AS-external-LSA, and sets the checksum again.
fn set_metric(lsa: &mut [u8], metric: u32)
    requires fits { 28 ≤ length lsa.old }
    requires short { length lsa.old < 2 ^ 16 }
    requires metric { metric < 2 ^ 24 }
    ensures { lsa.new ≡ with_metric metric lsa.old }
{
    put_u24(lsa, 25, metric);
    set_checksum(lsa);
}

/// The header of a new LSA: age 1, the first sequence number, and no checksum yet.
fn new_header(options: u8, kind: u8, id: Addr, adv: RouterId, size: u16) -> [u8; 20]
    ensures { result ≡ new_header options kind id adv size }
{
    let mut header = [0; 20];
    put_u16(&mut header, 0, 1);
    header[2] = options;
    header[3] = kind;
    put_u32(&mut header, 4, id.0);
    put_u32(&mut header, 8, adv.0);
    put_u32(&mut header, 12, 0x8000_0001);
    put_u16(&mut header, 18, size);
    header
}

/// What follows the header of a summary-LSA: mask and metric.
fn summary_body(net: Prefix, metric: u32) -> [u8; 8]
    requires { metric < 2 ^ 24 }
    ensures text { result ≡ summary_body net metric }
    ensures prefix { net.len ≤ 32 }
{
    let mut body = [0; 8];
    put_u32(&mut body, 0, net.mask());
    put_u24(&mut body, 5, metric);
    body
}

/// What follows the header of an AS-external-LSA: mask, bit E and metric, forwarding address and
/// route tag.
fn external_body(net: Prefix, type2: bool, metric: u32, forward: Addr, tag: u32) -> [u8; 16]
    requires { metric < 2 ^ 24 }
    ensures text { result ≡ external_body net type2 metric forward tag }
    ensures prefix { net.len ≤ 32 }
{
    let mut body = [0; 16];
    put_u32(&mut body, 0, net.mask());
    body[4] = if type2 { 128 } else { 0 };
    put_u24(&mut body, 5, metric);
    put_u32(&mut body, 8, forward.0);
    put_u32(&mut body, 12, tag);
    body
}

/// A header and a body, with the checksum made.
fn assembled<A: Allocator + Copy>(
    alloc: A,
    header: &[u8],
    body: &[u8],
) -> Result<Vec<u8, A>, AllocError>
    requires header { length header.now ≡ 20 }
    requires short { length body.now < 2 ^ 15 }
    ensures { IfOk result (λ v. v.items ≡ with_checksum (header.now ++ body.now)) }
{
    let mut bytes = Vec::from_slice(alloc, header)?;
    bytes.extend_from_slice(body)?;
    set_checksum(&mut bytes);
    Ok(bytes)
}

/// A copy with another metric.
fn with_metric<A: Allocator + Copy>(
    alloc: A,
    lsa: &[u8],
    metric: u32,
) -> Result<Vec<u8, A>, AllocError>
    requires fits { 28 ≤ length lsa.now }
    requires short { length lsa.now < 2 ^ 16 }
    requires metric { metric < 2 ^ 24 }
    ensures { IfOk result (λ v. v.items ≡ with_metric metric lsa.now) }
{
    let mut bytes = Vec::from_slice(alloc, lsa)?;
    set_metric(&mut bytes, metric);
    Ok(bytes)
}

impl<A: Allocator + Copy> Lsa<A> {
    /// The summary-LSA or AS-external-LSA with another metric for TOS 0, and its checksum set
    /// again. All other bytes stay. For LSAs of type 3, 4 or 5 alone, and metrics of at most
    /// 16,777,215.
    ///
    /// # Errors
    ///
    /// `OutOfMemory` alone.
    pub fn with_metric(&self, alloc: A, metric: u32) -> Result<Lsa<A>, MakeFault>
        requires kind { has_metric (kind_of self.now) ≡ true }
        requires metric { metric < 2 ^ 24 }
        ensures made { IfOk result (λ lsa. lsa ≡ with_metric metric self.now) }
        ensures keeps { IfOk result (λ lsa. IsRewriteOf self.now lsa) }
        ensures fault { IfErr result (λ fault. fault ≡ OutOfMemory) }
    {
        let bytes = with_metric(alloc, self.bytes(), metric)?;
        Ok(Lsa::accepted(bytes))
    }

    /// A new summary-LSA of type 3 for a prefix, of age 1 and the first sequence number,
    /// 0x80000001, and without TOS metrics (RFC 2328, 12.4.3). Its Link State ID is the prefix's
    /// address. The metric is at most 16,777,215.
    ///
    /// # Errors
    ///
    /// `OutOfMemory` alone.
    pub fn new_summary(
        alloc: A,
        options: u8,
        adv: RouterId,
        net: Prefix,
        metric: u32,
    ) -> Result<Lsa<A>, MakeFault>
        requires metric { metric < 2 ^ 24 }
        ensures made { IfOk result (λ lsa. lsa ≡ new_summary options adv net metric) }
        ensures fault { IfErr result (λ fault. fault ≡ OutOfMemory) }
    {
        let header = new_header(options, SUMMARY_LSA, net.addr(), adv, 28);
        let bytes = assembled(alloc, &header, &summary_body(net, metric))?;
        Ok(Lsa::accepted(bytes))
    }

    /// A new AS-external-LSA for a prefix, of age 1 and the first sequence number, 0x80000001, with
    /// bit E alone in its options, and without TOS entries (RFC 2328, 12.4.4). Its Link State ID is
    /// the prefix's address. The metric is at most 16,777,215.
    ///
    /// # Errors
    ///
    /// `OutOfMemory` alone.
    pub fn new_external(
        alloc: A,
        adv: RouterId,
        net: Prefix,
        type2: bool,
        metric: u32,
        forward: Addr,
        tag: u32,
    ) -> Result<Lsa<A>, MakeFault>
        requires metric { metric < 2 ^ 24 }
        ensures made { IfOk result (λ lsa. lsa ≡ new_external adv net type2 metric forward tag) }
        ensures fault { IfErr result (λ fault. fault ≡ OutOfMemory) }
    {
        let header = new_header(2, EXTERNAL_LSA, net.addr(), adv, 36);
        let bytes = assembled(
            alloc,
            &header,
            &external_body(net, type2, metric, forward, tag),
        )?;
        Ok(Lsa::accepted(bytes))
    }
}
