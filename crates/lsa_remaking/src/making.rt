//! Bytes with some fields set again, and the LSA that they make.

ghost use Rattle.std.specs.Prelude.{◌≡◌, ◌+◌, ◌≤◌, ◌<◌, ◌^◌, length, IfOk, IfErr};
ghost use Rattle.lsa_codec.specs.Decoding.{decoded};
ghost use Rattle.lsa_codec.specs.Fields.{length_of, put_at};
ghost use Rattle.lsa_remaking.specs.Making.{accepted_or_rejected, made, remeasured, IsRemakeFaultOf};

use crate::fault::RemakeFault;
use lsa_codec::{LONGEST_LSA, Lsa, LsaFault, set_checksum};
use std::alloc::{AllocError, Allocator};

/// A copy of bytes with others in place of those from an offset on.
pub(crate) fn with_field<A: Allocator + Copy>(
    alloc: A,
    bytes: &[u8],
    offset: usize,
    field: &[u8],
) -> Result<Vec<u8, A>, AllocError>
    requires within { offset + length field.now ≤ length bytes.now }
    ensures put { IfOk result (λ v. v.items ≡ put_at offset field.now bytes.now) }
    ensures size { IfOk result (λ v. length v.items ≡ length bytes.now) }
{
    let mut copy = Vec::from_slice(alloc, &bytes[..offset])?;
    copy.extend_from_slice(field)?;
    copy.extend_from_slice(&bytes[offset + field.len()..])?;
    Ok(copy)
}

/// The accepted LSA of these bytes, whose length field is their number.
fn accepted<A: Allocator + Copy>(alloc: A, bytes: &[u8]) -> Result<Lsa<A>, RemakeFault>
    requires short { length bytes.now < 2 ^ 16 }
    requires field { length_of bytes.now ≡ length bytes.now }
    ensures made { IfOk result (λ lsa. lsa ≡ bytes.now) }
    ensures fault { IfErr result (λ fault.
        IsRemakeFaultOf fault (accepted_or_rejected (decoded bytes.now))) }
{
    match Lsa::decode(alloc, bytes) {
        Ok((lsa, _)) => Ok(lsa),
        Err(LsaFault::OutOfMemory) => Err(RemakeFault::OutOfMemory),
        Err(fault) => Err(RemakeFault::Rejected(fault)),
    }
}

/// The bytes with length and checksum set again.
fn remeasured<A: Allocator + Copy>(alloc: A, bytes: &[u8]) -> Result<Vec<u8, A>, AllocError>
    requires header { 20 ≤ length bytes.now }
    requires short { length bytes.now < 2 ^ 16 }
    ensures made { IfOk result (λ v. v.items ≡ remeasured bytes.now) }
    ensures size { IfOk result (λ v. length v.items ≡ length bytes.now) }
    ensures field { IfOk result (λ v. length_of v.items ≡ length bytes.now) }
{
    let size = bytes.len() as u16;
    let mut sized = with_field(alloc, bytes, 18, &size.to_be_bytes())?;
    set_checksum(&mut sized);
    Ok(sized)
}

/// The LSA that bytes make once length and checksum are set again.
pub(crate) fn remake<A: Allocator + Copy>(alloc: A, bytes: &[u8]) -> Result<Lsa<A>, RemakeFault>
    requires header { 20 ≤ length bytes.now }
    ensures made { IfOk result (λ new. new ≡ remeasured bytes.now) }
    ensures fault { IfErr result (λ fault. IsRemakeFaultOf fault (made bytes.now)) }
{
    if bytes.len() > LONGEST_LSA {
        return Err(RemakeFault::TooLong);
    }
    let new = remeasured(alloc, bytes)?;
    accepted(alloc, &new)
}
