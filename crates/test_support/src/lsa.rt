//! LSAs, with good checksums.

ghost use Rattle.std.specs.Prelude.{◌≡◌, IfOk};
ghost use Rattle.test_support.specs.Lsas.{lsa_with_sums, lsa_bytes};

use crate::fletcher::checksum;
use std::alloc::{AllocError, Global};

/// The fields that differ in the headers of LSAs (RFC 2328, A.4.1). The options are 2, and the
/// sequence number is 0x80000001.
#[derive(Clone, Copy, Debug)]
pub struct Header {
    /// The LS age.
    pub age: u16,
    /// The LS type.
    pub kind: u8,
    /// The Link State ID.
    pub id: u32,
    /// The Advertising Router.
    pub router: u32,
}

/// The maximum number of bytes of the body of an LSA.
const LONGEST_BODY: usize = 65_515;

/// The bytes of an LSA with this checksum.
#[tactic(auto, unfolding(crate::specs::Lsas::lsa_with_sums))]
fn with_checksum(
    alloc: Global,
    header: Header,
    checksum: [u8; 2],
    body: &[u8],
) -> Result<Vec<u8>, AllocError>
    ensures { IfOk result (λ lsa. lsa.items ≡ lsa_with_sums header checksum body.now) }
{
    let length = body.len().min(LONGEST_BODY) as u16 + 20;
    let mut lsa = Vec::new(alloc);
    lsa.extend_from_slice(&header.age.to_be_bytes())?;
    lsa.extend_from_slice(&[2, header.kind])?;
    lsa.extend_from_slice(&header.id.to_be_bytes())?;
    lsa.extend_from_slice(&header.router.to_be_bytes())?;
    lsa.extend_from_slice(&[0x80, 0, 0, 1])?;
    lsa.extend_from_slice(&checksum)?;
    lsa.extend_from_slice(&length.to_be_bytes())?;
    lsa.extend_from_slice(body)?;
    Ok(lsa)
}

/// The bytes of an LSA with a good checksum.
#[tactic(auto, unfolding(crate::specs::Lsas::lsa_bytes))]
pub(crate) fn lsa_bytes(alloc: Global, header: Header, body: &[u8]) -> Result<Vec<u8>, AllocError>
    ensures { IfOk result (λ lsa. lsa.items ≡ lsa_bytes header body.now) }
{
    let unsigned = with_checksum(alloc, header, [0, 0], body)?;
    let sums = checksum(unsigned.get(2..).unwrap_or(&[]));
    with_checksum(alloc, header, sums, body)
}
