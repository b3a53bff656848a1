//! Frames of captures of FRR routers, byte for byte, and fragments of one of them, made by a
//! separate program.

use crate::tests::parts::bytes;
use capture_files::{End, Frame, LinkType};
use findings::{Content, Finding};
use lsa_codec::AreaId;
use lsa_instances::{AreaReport, Observation, Scope};
use ospf_packets::read_frames;
use std::alloc::{AllocError, Global};
use std::test::*;

/// Ethernet. A Link State Update packet of area 0.0.0.0 with a network-LSA, from byte 62 on.
pub(in crate::tests) const UPDATE: &[u8] = bytes!(
    group [0x8a, 0x3e, 0xde, 0x20, 0xd2, 0xea, 0x08, 0x00]
    ipv4 [0x00, 0x50, 0xa9, 0x17, 0x00, 0x00] [0x25, 0x78, 0x0a, 0x00, 0x00, 0x01]
    [
        0x02, 0x04, 0x00, 0x3c, 0x03, 0x03, 0x03, 0x03, 0x00, 0x00, 0x00, 0x00, 0x55, 0x59, 0x00,
        0x00, 0x00, 0x00, 0x00, 0x00, 0x00, 0x00, 0x00, 0x00, 0x00, 0x00, 0x00, 0x01, 0x00, 0x02
    ]
    network_lsa
);

/// Ethernet. An update with a router-LSA of 72 bytes, from byte 62 on, and a network-LSA of 36.
pub(super) const TWO_LSAS: &[u8] = bytes!(
    group [0x7e, 0xfc, 0x3f, 0xc8, 0x35, 0xc4, 0x08, 0x00]
    ipv4 [0x00, 0x9c, 0xa9, 0x42, 0x00, 0x00] [0x25, 0x00, 0x0a, 0x00, 0x00, 0x02]
    front middle back
);

/// Ethernet with a VLAN tag. An update with an opaque LSA of type 10, from byte 66 on.
pub(super) const TAGGED: &[u8] = bytes!(
    group [0x6e, 0xa2, 0xb7, 0xcd, 0x4f, 0x3a, 0x81, 0x00, 0x00, 0x64, 0x08, 0x00]
    ipv4 [0x00, 0x4c, 0xa6, 0x82, 0x00, 0x00] [0x28, 0x05, 0x0a, 0x00, 0x00, 0x0d]
    [
        0x02, 0x04, 0x00, 0x38, 0x0a, 0xff, 0x00, 0x05, 0x00, 0x00, 0x00, 0x00, 0xdf, 0xce, 0x00,
        0x00, 0x00, 0x00, 0x00, 0x00, 0x00, 0x00, 0x00, 0x00, 0x00, 0x00, 0x00, 0x01, 0x00, 0x03
    ]
    opaque_lsa
);

/// Ethernet. An update with the same LSA, from byte 62 on; after the packet stand 16 bytes of a
/// digest (RFC 2328, D.4.3).
pub(super) const DIGEST: &[u8] = bytes!(
    group [0xae, 0x89, 0x9c, 0xe9, 0xd6, 0xd4, 0x08, 0x00]
    ipv4 [0x00, 0x5c, 0xa6, 0x7f, 0x00, 0x00] [0x28, 0x04, 0x0a, 0x00, 0x00, 0x01]
    [
        0x02, 0x04, 0x00, 0x38, 0x0a, 0xff, 0x00, 0x01, 0x00, 0x00, 0x00, 0x00, 0x00, 0x00, 0x00,
        0x02, 0x00, 0x00, 0x01, 0x10, 0x6b, 0x03, 0xa6, 0x6c, 0x00, 0x00, 0x00, 0x01, 0x00, 0x04
    ]
    opaque_lsa
    [
        0x82, 0xa3, 0x8e, 0xf1, 0x0e, 0x73, 0xa0, 0x16, 0x7e, 0xa8, 0xdf, 0x2f, 0x0c, 0xdb, 0xb2,
        0x64
    ]
);

/// Ethernet. A Hello packet of area 0.0.0.0 with a simple password.
pub(super) const PASSWORD: &[u8] = bytes!(
    group [0x66, 0xc5, 0xf3, 0x18, 0x62, 0xba, 0x08, 0x00]
    ipv4 [0x00, 0x40, 0xa6, 0x54, 0x00, 0x00] [0x28, 0x47, 0x0a, 0x00, 0x00, 0x05]
    [
        0x02, 0x01, 0x00, 0x2c, 0x0a, 0xff, 0x00, 0x02, 0x00, 0x00, 0x00, 0x00, 0xf0, 0xcc, 0x00,
        0x01, 0x65, 0x78, 0x61, 0x6d, 0x70, 0x6c, 0x65, 0x00, 0xff, 0xff, 0xff, 0xfc, 0x00, 0x01,
        0x02, 0x01, 0x00, 0x00, 0x00, 0x05, 0x00, 0x00, 0x00, 0x00, 0x00, 0x00, 0x00, 0x00
    ]
);

/// Linux cooked capture. An update with the LSA of `UPDATE`, from byte 64 on.
pub(super) const COOKED: &[u8] = bytes!(
    [
        0x00, 0x02, 0x00, 0x01, 0x00, 0x06, 0x3e, 0x27, 0xf8, 0x87, 0x6f, 0x7e, 0x00, 0x00, 0x08,
        0x00
    ]
    update
);

/// Linux cooked capture, version 2. The same, from byte 68 on.
pub(super) const COOKED_2: &[u8] = bytes!(
    [
        0x08, 0x00, 0x00, 0x00, 0x00, 0x00, 0x00, 0x04, 0x00, 0x01, 0x02, 0x06, 0x3e, 0x27, 0xf8,
        0x87, 0x6f, 0x7e, 0x00, 0x00
    ]
    update
);

/// Ethernet. A Hello packet of area 0.0.0.2, which is a stub area.
pub(in crate::tests) const STUB_HELLO: &[u8] = bytes!(stub_hello);

/// Ethernet. A Link State Acknowledgment packet.
pub(in crate::tests) const ACKNOWLEDGMENT: &[u8] = bytes!(
    group [0x7e, 0xfc, 0x3f, 0xc8, 0x35, 0xc4, 0x08, 0x00]
    ipv4 [0x00, 0x40, 0xa9, 0x0f, 0x00, 0x00] [0x25, 0x8f, 0x0a, 0x00, 0x00, 0x02]
    [
        0x02, 0x05, 0x00, 0x2c, 0x04, 0x04, 0x04, 0x04, 0x00, 0x00, 0x00, 0x00, 0xae, 0xb7, 0x00,
        0x00, 0x00, 0x00, 0x00, 0x00, 0x00, 0x00, 0x00, 0x00, 0x00, 0x03, 0x02, 0x01, 0x03, 0x03,
        0x03, 0x03, 0x03, 0x03, 0x03, 0x03, 0x80, 0x00, 0x00, 0x03, 0xb8, 0xbf, 0x00, 0x3c
    ]
);

/// IPv4 alone. The first fragment of the datagram of `TWO_LSAS`.
pub(in crate::tests) const FRONT: &[u8] = bytes!(
    ipv4 [0x00, 0x44, 0xa9, 0x42, 0x20, 0x00] [0x05, 0x58, 0x0a, 0x00, 0x00, 0x02]
    front
);

/// IPv4 alone. The second fragment.
pub(in crate::tests) const MIDDLE: &[u8] = bytes!(
    ipv4 [0x00, 0x44, 0xa9, 0x42, 0x20, 0x06] [0x05, 0x52, 0x0a, 0x00, 0x00, 0x02]
    middle
);

/// IPv4 alone. The last fragment.
pub(in crate::tests) const BACK: &[u8] = bytes!(
    ipv4 [0x00, 0x3c, 0xa9, 0x42, 0x00, 0x0c] [0x25, 0x54, 0x0a, 0x00, 0x00, 0x02]
    back
);

/// When frames were seen, in nanoseconds since 1970.
pub(super) const SEEN: Option<u64> = Some(1_795_401_986_568_756_000);

/// A frame of which this number of bytes were on the link.
pub(super) fn cut(link: LinkType, bytes: &[u8], original: u32) -> Frame<'_> {
    Frame {
        link,
        seen: SEEN,
        bytes,
        original,
    }
}

/// A frame of which all bytes were captured.
pub(in crate::tests) fn whole(link: LinkType, bytes: &[u8]) -> Frame<'_> {
    cut(link, bytes, bytes.len().min(65_535) as u32)
}

/// A part of some bytes: from a place on, and before another one.
pub(super) type Part = (&'static [u8], usize, usize);

/// A frame: its link, what was captured of it, and how many bytes it had on the link.
pub(super) type Captured = (LinkType, Part, usize);

/// What stands in a table of frames: a name, the frames, and what they contain: LSAs of the
/// backbone, kinds of areas, and findings.
pub(super) type Row = (
    &'static str,
    &'static [Captured],
    &'static [Part],
    &'static [AreaReport],
    &'static [Finding],
);

/// A frame as it was captured.
fn frame(captured: &Captured) -> Option<Frame<'static>> {
    let (link, (bytes, from, to), original) = *captured;
    let part = bytes.get(from..to)?;
    Some(cut(link, part, original.min(65_535) as u32))
}

/// What frames contain.
pub(super) fn read_captured(alloc: Global, captured: &[Captured]) -> Result<Content, Fail> {
    let mut frames = Vec::new(alloc);
    for one in captured {
        frames.push(frame(one).ok_or("a part")?)?;
    }
    Ok(read_frames(alloc, &frames, End::Whole)?)
}

/// What a frame contains.
pub(super) fn read(alloc: Global, link: LinkType, bytes: &[u8]) -> Result<Content, AllocError> {
    read_frames(alloc, &[whole(link, bytes)], End::Whole)
}

/// The bytes with others at some places.
pub(in crate::tests) fn changed(
    alloc: Global,
    bytes: &[u8],
    changes: &[(usize, u8)],
) -> Result<Vec<u8>, AllocError> {
    let mut changed = Vec::from_slice(alloc, bytes)?;
    for (place, byte) in changes {
        if let Some(found) = changed.get_mut(*place) {
            *found = *byte;
        }
    }
    Ok(changed)
}

/// Whether observations are of these LSAs of the backbone, seen with the frames, in this order.
fn are_of(observations: &[Observation], lsas: &[Part]) -> bool {
    for (observation, (bytes, from, to)) in observations.iter().zip(lsas.iter()) {
        let place = (observation.scope, observation.seen);
        let is_there = place == (Scope::Area(AreaId::BACKBONE), SEEN);
        if !is_there || bytes.get(*from..*to) != Some(observation.lsa.bytes()) {
            return false;
        }
    }
    observations.len() == lsas.len()
}

/// Whether packets contain these LSAs and kinds of areas, and give these findings.
pub(super) fn contain(
    packets: &Content,
    lsas: &[Part],
    kinds: &[AreaReport],
    findings: &[Finding],
) -> bool {
    let is_parsed = are_of(&packets.observations, lsas) && packets.kinds.as_slice() == kinds;
    is_parsed && packets.findings.as_slice() == findings
}
