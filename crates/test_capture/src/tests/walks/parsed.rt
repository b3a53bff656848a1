//! What walks contain, what is missing in them, and texts that are no walks.

use super::pieces::{
    COUNTED, CUT_ROW, DEFAULT, END_OF_VIEW, EXTERNAL, EXTERNAL_KEY, FEWER, KINDS, NAMED, NETWORK,
    NUMERIC, OTHER_INDEX,
};
use crate::tests::contents::{Format, Row, first_other};
use findings::{Finding, ReportedLsa, UnusedReason};
use lsa_codec::{Addr, AreaId, Key, RouterId};
use lsa_instances::{AreaKind, AreaReport, Scope};
use snmp_walk::{WalkFault, read_walk};
use std::test::*;

const OTHER_AREA: Scope = Scope::Area(AreaId(1));

/// What names the network-LSA of a row that was cut.
const CUT_LSA: ReportedLsa = ReportedLsa {
    area: Some(AreaId(0)),
    key: Key {
        kind: 2,
        id: Addr(0xc0a8_0001),
        adv: RouterId(0x0101_0101),
    },
};

/// What names the LSA under whose index the bytes of another one stand.
const INDEXED_LSA: ReportedLsa = ReportedLsa {
    area: None,
    key: Key {
        kind: 5,
        id: Addr(0x0a62_0000),
        adv: RouterId(0x0303_0303),
    },
};

const ORDINARY: AreaReport = AreaReport {
    id: AreaId(1),
    kind: AreaKind::Ordinary,
};

const STUB: AreaReport = AreaReport {
    id: AreaId(2),
    kind: AreaKind::Stub,
};

/// Walks, their LSAs, kinds of areas and findings.
const WALKS: &[Row] = &[
    (
        "an LSA of an area",
        NUMERIC,
        &[(OTHER_AREA, NETWORK)],
        &[],
        &[],
    ),
    (
        "an external LSA without a MIB",
        DEFAULT,
        &[(Scope::AsWide, EXTERNAL)],
        &[],
        &[],
    ),
    (
        "the words of the MIB",
        NAMED,
        &[(Scope::AsWide, EXTERNAL)],
        &[],
        &[],
    ),
    ("kinds of areas", KINDS, &[], &[ORDINARY, STUB], &[]),
    (
        "a row without bytes",
        CUT_ROW,
        &[],
        &[],
        &[Finding::Unused(CUT_LSA, UnusedReason::Missing)],
    ),
    (
        "the number of rows that is counted",
        COUNTED,
        &[(OTHER_AREA, NETWORK), (Scope::AsWide, EXTERNAL)],
        &[],
        &[],
    ),
    (
        "fewer rows than are counted",
        FEWER,
        &[(OTHER_AREA, NETWORK), (Scope::AsWide, EXTERNAL)],
        &[],
        &[
            Finding::Fewer(None, 1, 8),
            Finding::Fewer(Some(AreaId(1)), 1, 22),
            Finding::Fewer(Some(AreaId(2)), 0, 18),
        ],
    ),
    (
        "bytes of another key",
        OTHER_INDEX,
        &[],
        &[],
        &[Finding::Unused(INDEXED_LSA, UnusedReason::OtherKey(EXTERNAL_KEY))],
    ),
    ("the end of a view", END_OF_VIEW, &[], &[], &[]),
];

#[test]
fn contents_of_walks(rt: HostRuntime) -> Result<(), Fail> {
    assert_eq!(rt; first_other(rt.alloc(), Format::Walk, WALKS)?, None);
    Ok(())
}

/// sysDescr, which is of MIB-2.
#[test]
fn another_mib_is_no_walk(rt: HostRuntime) -> Result<(), Fail> {
    let text: &[u8] = b".1.3.6.1.2.1.1.1.0 = STRING: \"FRR 8.4.4\"\n";
    assert!(rt; matches!(read_walk(rt.alloc(), text), Err(WalkFault::NotAWalk)));
    Ok(())
}
