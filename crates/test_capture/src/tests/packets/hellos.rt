//! The kinds of areas in Hello packets.

use super::frames::{PASSWORD, STUB_HELLO, changed, contain, read};
use capture_files::LinkType;
use lsa_codec::AreaId;
use lsa_instances::{AreaKind, AreaReport};
use std::alloc::Global;
use std::test::*;

/// Whether a frame with these changes contains the kind of an area alone.
fn is_only(
    alloc: Global,
    frame: &[u8],
    changes: &[(usize, u8)],
    area: AreaReport,
) -> Result<bool, Fail> {
    let changed = changed(alloc, frame, changes)?;
    let packets = read(alloc, LinkType::ETHERNET, &changed)?;
    Ok(contain(&packets, &[], &[area], &[]))
}

/// The area of the packet with a password.
const BACKBONE: AreaReport = AreaReport {
    id: AreaId(0),
    kind: AreaKind::Ordinary,
};

/// The area of the other packet, and what it is with the N bit in the Options.
const STUB: AreaReport = AreaReport {
    id: AreaId(2),
    kind: AreaKind::Stub,
};

const NSSA: AreaReport = AreaReport {
    id: AreaId(2),
    kind: AreaKind::Nssa,
};

/// Frames, other bytes at some places, and the kind of the area.
const HELLOS: &[(&str, &[u8], &[(usize, u8)], AreaReport)] = &[
    ("an ordinary area", PASSWORD, &[], BACKBONE),
    ("a stub area", STUB_HELLO, &[], STUB),
    (
        "the N bit in the Options, and the checksum of that",
        STUB_HELLO,
        &[(64, 0x08), (46, 0xf3), (47, 0xca)],
        NSSA,
    ),
    (
        "another password, which is no part of the checksum",
        PASSWORD,
        &[(50, b'z')],
        BACKBONE,
    ),
];

#[test]
fn hello_packets_contain_kinds_of_areas(rt: HostRuntime) -> Result<(), Fail> {
    for (name, frame, changes, area) in HELLOS {
        assert!(rt; is_only(rt.alloc(), frame, changes, *area)?, "{name}");
    }
    Ok(())
}
