//! The LSAs of Link State Update packets (RFC 2328, A.3.5).

ghost use Rattle.std.specs.Prelude.{◌≡◌, ◌≤◌, ◌++◌, length, Ok, Err, MatchResult, IfOk, OnOk};
ghost use Rattle.ospf_packets.specs.Updates.{lsa_length, parsed_lsa, uncounted, parsed_lsas};

use crate::field::u16_at;
use crate::packet::lack;
use findings::{FrameWarning, Part};
use lsa_codec::{AreaId, Lsa, LsaFault};
use lsa_instances::{Observation, Scope};
use std::alloc::{AllocError, Allocator};

/// The length in bytes of the header of an LSA.
pub(crate) const LSA_HEADER: usize = 20;

/// What a packet says about all of its LSAs.
#[derive(Clone, Copy, Debug)]
pub(crate) struct Flooded {
    /// The area in which it was sent.
    pub(crate) area: AreaId,
    /// When it was seen, in nanoseconds since 1970; `None` where the file does not say.
    pub(crate) seen: Option<u64>,
    /// Whether all bytes of it are at hand.
    pub(crate) whole: bool,
}

/// The length in bytes of the LSA at the front.
fn lsa_length(whole: bool, bytes: &[u8]) -> Result<usize, FrameWarning>
    ensures same { result ≡ lsa_length whole bytes.now }
    ensures within { IfOk result (λ size. size ≤ length bytes.now) }
{
    if bytes.len() < LSA_HEADER {
        return Err(lack(whole));
    }
    let size = usize::from(u16_at(bytes, 18));
    if size < LSA_HEADER {
        return Err(FrameWarning::BadLength);
    }
    if bytes.len() < size {
        return Err(lack(whole));
    }
    Ok(size)
}

/// An LSA, or why its bytes are not one.
fn parsed_lsa<A: Allocator + Copy>(
    alloc: A,
    by: Flooded,
    bytes: &[u8],
) -> Result<Part<A>, AllocError>
    ensures { IfOk result (λ parsed. parsed ≡ parsed_lsa by bytes.now) }
{
    match Lsa::decode(alloc, bytes) {
        Ok((lsa, _)) => Ok(Part::Lsa(Observation {
            scope: Scope::in_area(by.area, lsa.key().kind),
            seen: by.seen,
            lsa,
        })),
        Err(LsaFault::OutOfMemory) => Err(AllocError),
        Err(fault) => Ok(Part::Warning(FrameWarning::RefusedLsa(fault))),
    }
}

/// Adds a warning where bytes follow the LSAs that the packet counts.
fn put_uncounted<A: Allocator + Copy>(
    parsed: &mut Vec<Part<A>, A>,
    rest: &[u8],
) -> Result<(), AllocError>
    ensures { OnOk result (parsed.new.items ≡ parsed.old.items ++ uncounted rest.now) }
{
    match rest {
        [] => Ok(()),
        [_, ..] => {
            parsed.push(Part::Warning(FrameWarning::BadLength))?;
            Ok(())
        }
    }
}

/// Adds the LSAs at the front of the bytes, as the count of the packet says, and a warning where
/// the bytes hold more than that.
#[tactic(auto, using(crate::proofs::Lsas::one_more, crate::proofs::Lsas::stopped, crate::proofs::Lsas::all_parsed))]
pub(crate) fn parse_lsas<A: Allocator + Copy>(
    alloc: A,
    parsed: &mut Vec<Part<A>, A>,
    by: Flooded,
    count: u32,
    bytes: &[u8],
) -> Result<(), AllocError>
    ensures { OnOk result (parsed.new.items ≡ parsed.old.items ++ parsed_lsas by count bytes.now) }
{
    let mut rest = bytes;
    'lsas: for _ in 0..count {
        match lsa_length(by.whole, rest) {
            Ok(size) => {
                parsed.push(parsed_lsa(alloc, by, &rest[..size])?)?;
                rest = &rest[size..];
            }
            Err(warning) => {
                parsed.push(Part::Warning(warning))?;
                return Ok(());
            }
        }
    }
    put_uncounted(parsed, rest)
}
