//! Warnings about frames.

use super::frames::{DIGEST, STUB_HELLO, UPDATE, changed, contain, cut, read};
use capture_files::{End, LinkType};
use findings::{Finding, FrameWarning};
use lsa_codec::LsaFault;
use ospf_packets::read_frames;
use std::alloc::Global;
use std::test::*;

/// Whether a frame with these changes gives these findings, and this number of LSAs.
fn gives(
    alloc: Global,
    link: LinkType,
    frame: &[u8],
    changes: &[(usize, u8)],
    findings: &[Finding],
    lsas: usize,
) -> Result<bool, Fail> {
    let changed = changed(alloc, frame, changes)?;
    let packets = read(alloc, link, &changed)?;
    Ok(packets.findings.as_slice() == findings && packets.observations.len() == lsas)
}

const OTHER_LINK: &[Finding] = &[Finding::Frames(FrameWarning::OtherLink, 1)];

const OTHER_VERSION: &[Finding] = &[Finding::Frames(FrameWarning::OtherVersion, 1)];

const OTHER_TYPE: &[Finding] = &[Finding::Frames(FrameWarning::OtherType, 1)];

const BAD_LENGTH: &[Finding] = &[Finding::Frames(FrameWarning::BadLength, 1)];

const BAD_CHECKSUM: &[Finding] = &[Finding::Frames(FrameWarning::BadChecksum, 1)];

const REFUSED: &[Finding] = &[Finding::Frames(FrameWarning::RefusedLsa(LsaFault::Checksum), 1)];

const ETHERNET: LinkType = LinkType::ETHERNET;

/// What is wrong with a frame, its link, the frame, other bytes at some places, the findings, and
/// the number of LSAs. Where the checksum of the packet is to be good, it is among the bytes, at 46
/// and 47.
const CHANGED: &[(&str, LinkType, &[u8], &[(usize, u8)], &[Finding], usize)] = &[
    ("another link", LinkType(127), UPDATE, &[], OTHER_LINK, 0),
    // What is passed over.
    ("ARP", ETHERNET, UPDATE, &[(13, 0x06)], &[], 0),
    ("IPv6", ETHERNET, UPDATE, &[(12, 0x86)], &[], 0),
    (
        "an IPv6 header after the EtherType of IPv4",
        ETHERNET,
        UPDATE,
        &[(14, 0x65)],
        &[],
        0,
    ),
    ("TCP", ETHERNET, UPDATE, &[(23, 0x06)], &[], 0),
    // Other packets.
    (
        "version 3",
        ETHERNET,
        UPDATE,
        &[(34, 0x03)],
        OTHER_VERSION,
        0,
    ),
    (
        "type 6",
        ETHERNET,
        UPDATE,
        &[(35, 0x06), (46, 0x55), (47, 0x57)],
        OTHER_TYPE,
        0,
    ),
    // Malformed lengths.
    (
        "16 bytes of a header",
        ETHERNET,
        UPDATE,
        &[(14, 0x44)],
        BAD_LENGTH,
        0,
    ),
    (
        "a datagram of 19 bytes",
        ETHERNET,
        UPDATE,
        &[(17, 0x13)],
        BAD_LENGTH,
        0,
    ),
    (
        "a datagram of 81 bytes",
        ETHERNET,
        UPDATE,
        &[(17, 0x51)],
        BAD_LENGTH,
        0,
    ),
    (
        "a packet of 23 bytes",
        ETHERNET,
        UPDATE,
        &[(37, 0x17)],
        BAD_LENGTH,
        0,
    ),
    (
        "a packet of 61 bytes",
        ETHERNET,
        UPDATE,
        &[(37, 0x3d)],
        BAD_LENGTH,
        0,
    ),
    (
        "an LSA of 16 bytes",
        ETHERNET,
        UPDATE,
        &[(80, 0x00), (81, 0x10), (46, 0x55), (47, 0x69)],
        BAD_LENGTH,
        0,
    ),
    (
        "an LSA of 64 bytes",
        ETHERNET,
        UPDATE,
        &[(80, 0x00), (81, 0x40), (46, 0x55), (47, 0x39)],
        BAD_LENGTH,
        0,
    ),
    (
        "a second LSA",
        ETHERNET,
        UPDATE,
        &[(60, 0x00), (61, 0x02), (46, 0x55), (47, 0x58)],
        BAD_LENGTH,
        1,
    ),
    // Checksums.
    (
        "the checksum of the packet",
        ETHERNET,
        UPDATE,
        &[(93, 0x04)],
        BAD_CHECKSUM,
        0,
    ),
    (
        "the checksum of the LSA",
        ETHERNET,
        UPDATE,
        &[(92, 0x03), (93, 0x04), (46, 0x55), (47, 0x58)],
        REFUSED,
        0,
    ),
    (
        "the checksum of an LSA in a packet with a digest, which has no checksum",
        ETHERNET,
        DIGEST,
        &[(89, 0x01)],
        REFUSED,
        0,
    ),
];

#[test]
fn warnings_about_changed_frames(rt: HostRuntime) -> Result<(), Fail> {
    for (name, link, frame, changes, findings, lsas) in CHANGED {
        let is_so = gives(rt.alloc(), *link, frame, changes, findings, *lsas)?;
        assert!(rt; is_so, "{name}");
    }
    Ok(())
}

/// The first size of a front of a frame that is not reported to be cut, or that contains something,
/// where the frame had this number of bytes on the link.
fn first_other(alloc: Global, frame: &[u8], original: u32) -> Result<Option<usize>, Fail> {
    let truncated = Finding::Frames(FrameWarning::Truncated, 1);
    for size in 0..frame.len() {
        let front = cut(LinkType::ETHERNET, &frame[..size], original);
        let packets = read_frames(alloc, &[front], End::Whole)?;
        if !contain(&packets, &[], &[], &[truncated]) {
            return Ok(Some(size));
        }
    }
    Ok(None)
}

/// Frames, and their sizes.
const WHOLE: &[(&str, &[u8], u32)] = &[
    ("an update", UPDATE, 94),
    ("a Hello packet", STUB_HELLO, 78),
];

#[test]
fn each_cut_of_a_frame_is_reported(rt: HostRuntime) -> Result<(), Fail> {
    for (name, frame, original) in WHOLE {
        assert_eq!(rt; first_other(rt.alloc(), frame, *original)?, None, "{name}");
    }
    Ok(())
}
