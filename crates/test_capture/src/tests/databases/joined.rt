//! What is joined of a few LSAs: their dump, part by part, or the fault.

use crate::tests::instances::bytes::{ANNOUNCED, FLUSHED, NEWER, OLDER};
use crate::tests::observed::{Seen, observations, together};
use lsa_codec::AreaId;
use lsa_instances::{AreaKind, AreaReport, FlushedLsas, Scope};
use lsdb_merge::{JoinFault, join};
use std::alloc::Global;
use std::test::*;

/// The dump of what observations and areas are joined to.
fn dump_of(
    alloc: Global,
    flushed: FlushedLsas,
    seen: &[Seen],
    areas: &[AreaReport],
) -> Result<Vec<u8>, Fail> {
    Ok(join(alloc, flushed, observations(alloc, seen)?, areas)?.dump()?)
}

const BACKBONE: Scope = Scope::Area(AreaId(0));

/// An area of which no LSA was seen.
const STUB: AreaReport = AreaReport {
    id: AreaId(1),
    kind: AreaKind::Stub,
};

/// An LSA that was announced and flushed.
const FLUSH: &[Seen] = &[
    (Scope::AsWide, None, ANNOUNCED),
    (Scope::AsWide, None, FLUSHED),
];

/// When the newer instance was seen, in nanoseconds since 1970.
const SEEN: Option<u64> = Some(1_795_401_300_018_396_000);

/// When copies of the older one were seen, at age 3: one that began then, and one that began later.
const THEN: Option<u64> = Some(1_795_401_303_018_396_000);

const LATER: Option<u64> = Some(1_795_401_303_018_396_001);

/// What is joined, and the parts of the dump: `OSWP`, version 1, the number of areas, each with its
/// ID, kind and number of LSAs, and the LSAs of AS scope.
const JOINED: &[(&str, FlushedLsas, &[Seen], &[AreaReport], &[&[u8]])] = &[
    (
        "sections in order, and an area without LSAs",
        FlushedLsas::LeftOut,
        &[
            (Scope::AsWide, None, ANNOUNCED),
            (BACKBONE, None, NEWER),
            (BACKBONE, None, OLDER),
        ],
        &[STUB],
        &[
            b"OSWP\x01\x02\0\0\0\0\0\0\x01",
            NEWER,
            b"\0\0\0\x01\x01\0\0\0\x01",
            ANNOUNCED,
        ],
    ),
    (
        "a flushed LSA that is kept",
        FlushedLsas::Kept,
        FLUSH,
        &[],
        &[b"OSWP\x01\0\0\x01", FLUSHED],
    ),
    (
        "a flushed LSA that is left out",
        FlushedLsas::LeftOut,
        FLUSH,
        &[],
        &[b"OSWP\x01\0\0\0"],
    ),
    (
        "a newer instance that is forgotten",
        FlushedLsas::LeftOut,
        &[(BACKBONE, LATER, OLDER), (BACKBONE, SEEN, NEWER)],
        &[],
        &[b"OSWP\x01\x01\0\0\0\0\0\0\x01", OLDER, b"\0\0"],
    ),
    (
        "an older instance that did not begin later",
        FlushedLsas::LeftOut,
        &[(BACKBONE, THEN, OLDER), (BACKBONE, SEEN, NEWER)],
        &[],
        &[b"OSWP\x01\x01\0\0\0\0\0\0\x01", NEWER, b"\0\0"],
    ),
];

#[test]
fn dumps_of_what_is_joined(rt: HostRuntime) -> Result<(), Fail> {
    for (name, flushed, seen, areas, parts) in JOINED {
        let dump = dump_of(rt.alloc(), *flushed, seen, areas)?;
        assert!(rt; dump == together(rt.alloc(), parts)?, "{name}");
    }
    Ok(())
}

#[test]
fn an_lsa_outside_its_scope_is_reported(rt: HostRuntime) -> Result<(), Fail> {
    let alloc = rt.alloc();
    let misplaced = observations(alloc, &[(BACKBONE, None, ANNOUNCED)])?;
    assert!(rt;
        matches!(
            join(alloc, FlushedLsas::LeftOut, misplaced, &[]),
            Err(JoinFault::MisplacedLsa)
        )
    );
    Ok(())
}
