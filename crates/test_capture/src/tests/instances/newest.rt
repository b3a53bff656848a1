//! What is answered of many observations, with the time stamps of the captures.

use super::bytes::{ANNOUNCED, FARTHER, FLUSHED, NEWER, OLDER, OTHER};
use crate::tests::observed::{Expected, Seen, are_of, observations};
use lsa_codec::AreaId;
use lsa_instances::{FlushedLsas, Scope, newest};
use std::alloc::Global;
use std::test::*;

/// When 10.91.0.0/16 was announced, flushed, and announced again, in nanoseconds since 1970.
const FIRST: Option<u64> = Some(1_795_401_300_018_396_000);

const FLUSH: Option<u64> = Some(1_795_401_354_177_222_000);

const AGAIN: Option<u64> = Some(1_795_401_434_338_445_000);

/// Whether the newest of what is observed are these LSAs.
fn are_newest(
    alloc: Global,
    flushed: FlushedLsas,
    seen: &[Seen],
    lsas: &[Expected],
) -> Result<bool, Fail> {
    let found = newest(alloc, flushed, observations(alloc, seen)?)?;
    Ok(are_of(&found, lsas))
}

const BACKBONE: Scope = Scope::Area(AreaId(0));

const OTHER_AREA: Scope = Scope::Area(AreaId(1));

/// What becomes of flushed LSAs, what is observed, and the newest of that.
const NEWEST: &[(&str, FlushedLsas, &[Seen], &[Expected])] = &[
    (
        "the newer instance before the older one",
        FlushedLsas::LeftOut,
        &[(BACKBONE, None, NEWER), (BACKBONE, FIRST, OLDER)],
        &[(BACKBONE, NEWER)],
    ),
    (
        "the newer instance after the older one",
        FlushedLsas::LeftOut,
        &[(BACKBONE, FIRST, OLDER), (BACKBONE, None, NEWER)],
        &[(BACKBONE, NEWER)],
    ),
    (
        "of copies the one with the least age",
        FlushedLsas::LeftOut,
        &[
            (Scope::AsWide, FIRST, FARTHER),
            (Scope::AsWide, FIRST, ANNOUNCED),
            (Scope::AsWide, FIRST, FARTHER),
        ],
        &[(Scope::AsWide, ANNOUNCED)],
    ),
    (
        "a flushed LSA, a copy without a time stamp, and one that was under way",
        FlushedLsas::LeftOut,
        &[
            (Scope::AsWide, FIRST, ANNOUNCED),
            (Scope::AsWide, FLUSH, FLUSHED),
            (Scope::AsWide, None, FARTHER),
            (Scope::AsWide, FLUSH, FARTHER),
        ],
        &[],
    ),
    (
        "an LSA that is announced again",
        FlushedLsas::LeftOut,
        &[
            (Scope::AsWide, AGAIN, FARTHER),
            (Scope::AsWide, FLUSH, FLUSHED),
            (Scope::AsWide, FIRST, ANNOUNCED),
        ],
        &[(Scope::AsWide, FARTHER)],
    ),
    (
        "LSAs in order of their places",
        FlushedLsas::LeftOut,
        &[
            (Scope::AsWide, FIRST, ANNOUNCED),
            (Scope::AsWide, FIRST, OTHER),
            (OTHER_AREA, FIRST, OLDER),
            (BACKBONE, FIRST, NEWER),
        ],
        &[
            (BACKBONE, NEWER),
            (OTHER_AREA, OLDER),
            (Scope::AsWide, OTHER),
            (Scope::AsWide, ANNOUNCED),
        ],
    ),
    (
        "a flushed LSA that is kept at MaxAge",
        FlushedLsas::Kept,
        &[
            (Scope::AsWide, FIRST, ANNOUNCED),
            (Scope::AsWide, FLUSH, FLUSHED),
            (Scope::AsWide, FLUSH, FARTHER),
        ],
        &[(Scope::AsWide, FLUSHED)],
    ),
    (
        "the flush alone, which is kept",
        FlushedLsas::Kept,
        &[(Scope::AsWide, None, FLUSHED)],
        &[(Scope::AsWide, FLUSHED)],
    ),
    (
        "an LSA that is announced again after a flush that is kept",
        FlushedLsas::Kept,
        &[
            (Scope::AsWide, AGAIN, FARTHER),
            (Scope::AsWide, FLUSH, FLUSHED),
            (Scope::AsWide, FIRST, ANNOUNCED),
            (Scope::AsWide, FIRST, OTHER),
        ],
        &[(Scope::AsWide, OTHER), (Scope::AsWide, FARTHER)],
    ),
];

#[test]
fn the_newest_of_what_is_observed(rt: HostRuntime) -> Result<(), Fail> {
    for (name, flushed, seen, lsas) in NEWEST {
        assert!(rt; are_newest(rt.alloc(), *flushed, seen, lsas)?, "{name}");
    }
    Ok(())
}
