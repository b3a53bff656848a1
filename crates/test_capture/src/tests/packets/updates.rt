//! What frames contain, over each type of link, whole ones and others.

use super::frames::{
    ACKNOWLEDGMENT, COOKED, COOKED_2, Captured, DIGEST, Part, Row, STUB_HELLO, TAGGED, TWO_LSAS,
    UPDATE, contain, read_captured,
};
use capture_files::LinkType;
use findings::{Finding, FrameWarning};
use lsa_codec::AreaId;
use lsa_instances::{AreaKind, AreaReport};
use std::test::*;

/// The frame with an update of one LSA, and that LSA.
const WITH_LSA: Captured = (LinkType::ETHERNET, (UPDATE, 0, UPDATE.len()), UPDATE.len());

const LSA: Part = (UPDATE, 62, 94);

/// The LSAs of the frame with an update of two.
const FIRST: Part = (TWO_LSAS, 62, 134);

const SECOND: Part = (TWO_LSAS, 134, 170);

/// The frame with a Hello packet, and the area of that.
const WITH_HELLO: Captured = (
    LinkType::ETHERNET,
    (STUB_HELLO, 0, STUB_HELLO.len()),
    STUB_HELLO.len(),
);

const STUB: AreaReport = AreaReport {
    id: AreaId(2),
    kind: AreaKind::Stub,
};

/// What frames contain.
const FRAMES: &[Row] = &[
    ("Ethernet", &[WITH_LSA], &[LSA], &[], &[]),
    (
        "IP of any version",
        &[(LinkType::RAW, (UPDATE, 14, UPDATE.len()), 80)],
        &[LSA],
        &[],
        &[],
    ),
    (
        "IPv4",
        &[(LinkType::IPV4, (UPDATE, 14, UPDATE.len()), 80)],
        &[LSA],
        &[],
        &[],
    ),
    (
        "Linux cooked capture",
        &[(LinkType::LINUX_SLL, (COOKED, 0, COOKED.len()), COOKED.len())],
        &[LSA],
        &[],
        &[],
    ),
    (
        "Linux cooked capture, version 2",
        &[(
            LinkType::LINUX_SLL2,
            (COOKED_2, 0, COOKED_2.len()),
            COOKED_2.len(),
        )],
        &[LSA],
        &[],
        &[],
    ),
    (
        "a VLAN tag",
        &[(LinkType::ETHERNET, (TAGGED, 0, TAGGED.len()), TAGGED.len())],
        &[(TAGGED, 66, 94)],
        &[],
        &[],
    ),
    (
        "a digest",
        &[(LinkType::ETHERNET, (DIGEST, 0, DIGEST.len()), DIGEST.len())],
        &[(DIGEST, 62, 90)],
        &[],
        &[],
    ),
    (
        "two LSAs in order",
        &[(
            LinkType::ETHERNET,
            (TWO_LSAS, 0, TWO_LSAS.len()),
            TWO_LSAS.len(),
        )],
        &[FIRST, SECOND],
        &[],
        &[],
    ),
    (
        "an acknowledgment",
        &[(
            LinkType::ETHERNET,
            (ACKNOWLEDGMENT, 0, ACKNOWLEDGMENT.len()),
            ACKNOWLEDGMENT.len(),
        )],
        &[],
        &[],
        &[],
    ),
    (
        "a frame that was cut by a byte",
        &[(LinkType::ETHERNET, (TWO_LSAS, 0, 169), 170)],
        &[FIRST],
        &[],
        &[Finding::Frames(FrameWarning::Truncated, 1)],
    ),
    (
        "the same bytes in a frame that had no more",
        &[(LinkType::ETHERNET, (TWO_LSAS, 0, 169), 169)],
        &[],
        &[],
        &[Finding::Frames(FrameWarning::BadLength, 1)],
    ),
    (
        "frames one after another, one of another link",
        &[
            WITH_LSA,
            (LinkType(127), (UPDATE, 0, UPDATE.len()), UPDATE.len()),
            WITH_HELLO,
            WITH_LSA,
        ],
        &[LSA, LSA],
        &[STUB],
        &[Finding::Frames(FrameWarning::OtherLink, 1)],
    ),
];

#[test]
fn contents_of_frames(rt: HostRuntime) -> Result<(), Fail> {
    for (name, frames, lsas, kinds, findings) in FRAMES {
        let packets = read_captured(rt.alloc(), frames)?;
        assert!(rt; contain(&packets, lsas, kinds, findings), "{name}");
    }
    Ok(())
}
