//! Network-LSAs with other routers.

ghost use Rattle.std.specs.Prelude.{◌≡◌, ◌+◌, ◌≤◌, ◌<◌, ◌^◌, ◌++◌, length, take, drop, IfOk, IfErr, Ok};
ghost use Rattle.lsa_codec.specs.Fields.{byte_at};
ghost use Rattle.lsa_codec.specs.LsTypes.{network_lsa};
ghost use Rattle.lsa_codec.specs.Originating.{new_header};
ghost use Rattle.lsa_remaking.specs.Making.{IsRemakeFaultOf};
ghost use Rattle.lsa_remaking.specs.Networks.{routers_text, with_routers, successor_body, succeeding, with_routers_made, successor_made};

use crate::fault::RemakeFault;
use crate::making::remake;
use lsa_codec::{Addr, Lsa, NETWORK_LSA, RouterId};
use std::alloc::{AllocError, Allocator};

/// The bytes of a header and mask, and then those of Router IDs.
fn with_routers_text<A: Allocator + Copy>(
    alloc: A,
    front: &[u8],
    routers: &[RouterId],
) -> Result<Vec<u8, A>, AllocError>
    ensures { IfOk result (λ v. v.items ≡ front.now ++ routers_text routers.now) }
{
    let mut bytes = Vec::from_slice(alloc, front)?;
    for router in routers {
        bytes.extend_from_slice(&router.0.to_be_bytes())?;
    }
    Ok(bytes)
}

/// The header of a new network-LSA: age 1, the first sequence number, and neither length nor
/// checksum yet.
fn new_header<A: Allocator + Copy>(
    alloc: A,
    options: u8,
    address: Addr,
    router: RouterId,
) -> Result<Vec<u8, A>, AllocError>
    ensures { IfOk result (λ v. v.items ≡ new_header options network_lsa address router 0) }
{
    let mut header = Vec::from_slice(alloc, &[0, 1, options, NETWORK_LSA])?;
    header.extend_from_slice(&address.0.to_be_bytes())?;
    header.extend_from_slice(&router.0.to_be_bytes())?;
    header.extend_from_slice(&[0x80, 0, 0, 1, 0, 0, 0, 0])?;
    Ok(header)
}

/// The network-LSA with these routers attached in place of its own (RFC 2328, 12.4.2). All other
/// bytes stay but length and checksum.
///
/// # Errors
///
/// `TooLong`, then `Rejected` by the first fault of the new LSA; `OutOfMemory` before or after.
pub fn with_routers<A: Allocator + Copy>(
    alloc: A,
    lsa: &Lsa<A>,
    routers: &[RouterId],
) -> Result<Lsa<A>, RemakeFault>
    requires header { 24 ≤ length lsa.now }
    ensures made { IfOk result (λ new. new ≡ with_routers routers.now lsa.now) }
    ensures fault { IfErr result
        (λ fault. IsRemakeFaultOf fault (with_routers_made routers.now lsa.now)) }
{
    let body = with_routers_text(alloc, &lsa.bytes()[..24], routers)?;
    remake(alloc, &body)
}

/// The bytes of the network-LSA that another Designated Router originates in place of one.
fn successor_body<A: Allocator + Copy>(
    alloc: A,
    old: &[u8],
    router: RouterId,
    address: Addr,
    routers: &[RouterId],
) -> Result<Vec<u8, A>, AllocError>
    requires header { 24 ≤ length old.now }
    ensures { IfOk result (λ v. v.items ≡ successor_body router address routers.now old.now) }
{
    let mut front = new_header(alloc, old[2], address, router)?;
    front.extend_from_slice(&old[20..24])?;
    with_routers_text(alloc, &front, routers)
}

/// The network-LSA that another Designated Router originates in place of one, where it has this
/// address on the network and is adjacent to these routers, itself among them (RFC 2328, 12.4.2).
/// It has age 1, the first sequence number, 0x80000001, and Options and mask of the old one.
///
/// # Errors
///
/// `TooLong`, then `Rejected` by the first fault of the new LSA; `OutOfMemory` before or after.
pub fn succeed<A: Allocator + Copy>(
    alloc: A,
    lsa: &Lsa<A>,
    router: RouterId,
    address: Addr,
    routers: &[RouterId],
) -> Result<Lsa<A>, RemakeFault>
    requires header { 24 ≤ length lsa.now }
    ensures made { IfOk result (λ new. new ≡ succeeding router address routers.now lsa.now) }
    ensures fault { IfErr result
        (λ fault. IsRemakeFaultOf fault (successor_made router address routers.now lsa.now)) }
{
    let body = successor_body(alloc, lsa.bytes(), router, address, routers)?;
    remake(alloc, &body)
}
