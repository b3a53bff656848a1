//! What the frames of a capture contain.

ghost use Rattle.std.specs.Prelude.{◌≡◌, ◌++◌, IfOk, OnOk, map};
ghost use Rattle.capture_files.specs.CaptureTexts.{packet_of};
ghost use Rattle.findings.specs.Contents.{content_of, lists_in};
ghost use Rattle.ospf_packets.specs.Contents.{parts_at, parts_in};

use crate::parsed_frame::parse_all;
use capture_files::{End, Frame};
use findings::{Content, Finding, Part, sorted};
use std::alloc::{AllocError, Allocator};

/// Adds what is missing at the end of a capture.
fn put_end<A: Allocator + Copy>(parts: &mut Vec<Part<A>, A>, end: End) -> Result<(), AllocError>
    ensures { OnOk result (parts.new.items ≡ parts.old.items ++ parts_at end) }
{
    if let End::Cut(offset) = end {
        parts.push(Part::Finding(Finding::Cut(offset)))?;
    }
    Ok(())
}

/// Reads the OSPF packets of the frames of a capture that ends so: the LSAs of Link State Update
/// packets, a kind of an area for each Hello packet, the LSA headers of Database Description and
/// Link State Acknowledgment packets, warnings, and, if the capture ends in the middle of a record,
/// where that begins.
///
/// # Errors
///
/// Memory ran out.
pub fn read_frames<A: Allocator + Copy>(
    alloc: A,
    frames: &[Frame<'_>],
    end: End,
) -> Result<Content<A>, AllocError>
    ensures { IfOk result (λ content. lists_in content
        ≡ content_of (parts_in (map packet_of frames.now) end)) }
{
    let mut parts = parse_all(alloc, frames)?;
    put_end(&mut parts, end)?;
    sorted(alloc, parts)
}
