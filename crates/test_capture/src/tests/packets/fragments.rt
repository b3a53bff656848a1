//! Datagrams that are put together, and fragments that are missing.

use super::frames::{
    BACK, Captured, FRONT, MIDDLE, Part, Row, TWO_LSAS, UPDATE, changed, contain, read_captured,
    whole,
};
use capture_files::{End, LinkType};
use findings::{Finding, FrameWarning};
use ospf_packets::read_frames;
use std::test::*;

/// The fragments in their order.
const FIRST: Captured = (LinkType::RAW, (FRONT, 0, FRONT.len()), FRONT.len());

const SECOND: Captured = (LinkType::RAW, (MIDDLE, 0, MIDDLE.len()), MIDDLE.len());

const LAST: Captured = (LinkType::RAW, (BACK, 0, BACK.len()), BACK.len());

/// The LSAs of their datagram.
const LSAS: &[Part] = &[(TWO_LSAS, 62, 134), (TWO_LSAS, 134, 170)];

/// A frame that has no fragment.
const OTHER: Captured = (LinkType::ETHERNET, (UPDATE, 0, UPDATE.len()), UPDATE.len());

/// What is reported where this number of fragments are missing.
const ONE: &[Finding] = &[Finding::Frames(FrameWarning::MissingFragment, 1)];

const TWO: &[Finding] = &[Finding::Frames(FrameWarning::MissingFragment, 2)];

const THREE: &[Finding] = &[Finding::Frames(FrameWarning::MissingFragment, 3)];

/// What fragments contain. A frame between them contains what it contains alone.
const FRAGMENTS: &[Row] = &[
    ("each once", &[FIRST, SECOND, LAST], LSAS, &[], &[]),
    (
        "one that is seen twice",
        &[FIRST, SECOND, SECOND, LAST],
        LSAS,
        &[],
        &[],
    ),
    (
        "a frame between",
        &[FIRST, OTHER, SECOND, LAST],
        &[(TWO_LSAS, 62, 134), (TWO_LSAS, 134, 170), (UPDATE, 62, 94)],
        &[],
        &[],
    ),
    ("the first alone", &[FIRST], &[], &[], ONE),
    ("the first and the second", &[FIRST, SECOND], &[], &[], ONE),
    ("the first and the last", &[FIRST, LAST], &[], &[], TWO),
    ("the second and the last", &[SECOND, LAST], &[], &[], ONE),
    ("the reverse order", &[LAST, SECOND, FIRST], &[], &[], THREE),
];

#[test]
fn contents_of_fragments(rt: HostRuntime) -> Result<(), Fail> {
    for (name, frames, lsas, kinds, findings) in FRAGMENTS {
        let packets = read_captured(rt.alloc(), frames)?;
        assert!(rt; contain(&packets, lsas, kinds, findings), "{name}");
    }
    Ok(())
}

/// Where the last fragment names another source, destination or identification.
#[test]
fn fragments_of_other_datagrams_are_others(rt: HostRuntime) -> Result<(), Fail> {
    let alloc = rt.alloc();
    let front = whole(LinkType::RAW, FRONT);
    let middle = whole(LinkType::RAW, MIDDLE);
    for place in [15, 19, 5] {
        let other = changed(alloc, BACK, &[(place, 0x77)])?;
        let back = whole(LinkType::RAW, &other);
        let packets = read_frames(alloc, &[front, middle, back], End::Whole)?;
        assert!(rt; contain(&packets, &[], &[], TWO), "at {place}");
    }
    Ok(())
}
