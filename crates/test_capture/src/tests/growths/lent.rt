//! What the calls are lent: each makes something of it of every kind that it can make.

use super::Call;
use crate::tests::captures::pcapng::LITTLE;
use crate::tests::documents::pieces::LINKS;
use crate::tests::files::pieces::{CAPTURE, JSON, TEXT, WALK};
use crate::tests::instances::bytes::{ANNOUNCED, FLUSHED, NEWER, OLDER, OTHER};
use crate::tests::lists::pieces::TABLES;
use crate::tests::observed::{Seen, together};
use crate::tests::packets::frames::{
    ACKNOWLEDGMENT, BACK, FRONT, MIDDLE, STUB_HELLO, UPDATE, whole,
};
use crate::tests::printed::pieces::OTHER_METRIC;
use capture_files::{Frame, LinkType};
use lsa_codec::AreaId;
use lsa_instances::{AreaKind, AreaReport, Scope};
use std::alloc::{AllocError, Global};

/// A row of a walk that was cut: a column of it, and not that of the LSA.
const CUT_ROW: &[u8] = b".1.3.6.1.2.1.14.4.1.5.0.0.0.0.2.192.168.0.1.1.1.1.1 = INTEGER: 33554560\n";

/// The bytes that a call reads.
pub(super) fn read_bytes(alloc: Global, call: Call) -> Result<Vec<u8>, AllocError> {
    match call {
        Call::Capture => together(alloc, &[LITTLE]),
        Call::Document => together(alloc, &[LINKS]),
        Call::List => together(alloc, &[TABLES]),
        Call::FileOfCapture => together(alloc, &[CAPTURE]),
        Call::FileOfDocument => together(alloc, &[JSON]),
        Call::Walk | Call::FileOfWalk => together(alloc, &[WALK, CUT_ROW]),
        _ => together(alloc, &[TEXT, OTHER_METRIC]),
    }
}

/// Frames that contain LSAs, the kind of an area and headers, fragments among them, and one that
/// contains nothing.
pub(super) fn frames() -> [Frame<'static>; 7] {
    [
        whole(LinkType::RAW, FRONT),
        whole(LinkType::ETHERNET, UPDATE),
        whole(LinkType::RAW, MIDDLE),
        whole(LinkType::RAW, BACK),
        whole(LinkType::ETHERNET, STUB_HELLO),
        whole(LinkType::ETHERNET, ACKNOWLEDGMENT),
        whole(LinkType(127), UPDATE),
    ]
}

/// When LSAs were seen, in nanoseconds since 1970, and when one was flushed.
const SEEN: Option<u64> = Some(1_795_401_300_018_396_000);

const FLUSH: Option<u64> = Some(1_795_401_354_177_222_000);

/// The observations that calls are lent: two instances of a router-LSA, another instance in another
/// area, an AS-external-LSA that is flushed, and another one.
pub(super) const OBSERVED: &[Seen] = &[
    (Scope::AsWide, SEEN, ANNOUNCED),
    (Scope::Area(AreaId(0)), None, NEWER),
    (Scope::AsWide, FLUSH, FLUSHED),
    (Scope::Area(AreaId(2)), SEEN, OLDER),
    (Scope::Area(AreaId(0)), SEEN, OLDER),
    (Scope::AsWide, SEEN, OTHER),
];

/// An area of which no LSA was seen.
pub(super) const AREA: AreaReport = AreaReport {
    id: AreaId(1),
    kind: AreaKind::Stub,
};
