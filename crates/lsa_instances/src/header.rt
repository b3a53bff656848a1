//! Headers of LSAs, which identify instances of LSAs without their bodies (RFC 2328, A.4.1).

ghost use Rattle.std.specs.Prelude.{◌≡◌};
ghost use Rattle.lsa_instances.specs.Headers.{is_at_max_age};
ghost use Rattle.lsa_instances.specs.Instance.{instance_id_cmp, instance_id_of};

use crate::place::Place;
use byteorder::{BigEndian, ByteOrder};
use lsa_codec::Lsa;
use std::alloc::Allocator;
use std::cmp::Ordering;

/// Which instance of an LSA it is, whatever its age.
#[derive(Clone, Copy, Debug, PartialEq, Eq)]
pub struct InstanceId {
    /// The LS sequence number, which is a signed number of 32 bits (RFC 2328, 12.1.6).
    pub sequence: u32,
    /// The LS checksum.
    pub checksum: u16,
}

impl InstanceId {
    /// Which instance an LSA is.
    pub fn of<A: Allocator + Copy>(lsa: &Lsa<A>) -> InstanceId
        ensures { result ≡ instance_id_of lsa.now }
    {
        InstanceId {
            sequence: BigEndian::read_u32(&lsa.bytes()[12..]),
            checksum: BigEndian::read_u16(&lsa.bytes()[16..]),
        }
    }
}

/// Compares two instances of one LSA, whatever their ages: `Greater` where the first is newer, by
/// LS sequence number, which is signed, then by LS checksum (RFC 2328, 13.1).
pub fn compare_instance_ids(a: InstanceId, b: InstanceId) -> Ordering
    ensures { result ≡ instance_id_cmp a b }
{
    let sequence = (a.sequence ^ 0x8000_0000).cmp(&(b.sequence ^ 0x8000_0000));
    sequence.then(a.checksum.cmp(&b.checksum))
}

/// The header of an LSA, but for the options and the length.
#[derive(Clone, Copy, Debug, PartialEq, Eq)]
pub struct Header {
    /// Where the LSA is flooded, and what names it there.
    pub place: Place,
    /// Which instance it is.
    pub instance: InstanceId,
    /// The LS age, in seconds; its top bit is DoNotAge (RFC 1793, 2.2).
    pub age: u16,
}

impl Header {
    /// Whether the LS age is MaxAge, which is 3600 seconds (RFC 2328, B), or more: then the LSA is
    /// flushed (RFC 2328, 14.1). The top bit of the age, DoNotAge, does not count (RFC 1793, 2.2).
    pub fn is_at_max_age(&self) -> bool
        ensures { result ≡ is_at_max_age self.now }
    {
        self.age & 0x7fff >= 3600
    }
}
