//! What texts contain: LSAs, kinds of areas, and why there is none.

use super::pieces::{
    ASBR, ASBR_BYTES, BORDER, BORDER_BYTES, EXTERNALS, HEADINGS, NETWORK, NETWORK_BYTES, OPAQUE,
    OTHER_METRIC, ROUTER, ROUTER_BYTES, SUMMARY, SUMMARY_BYTES, SUMMARY_KEY, TYPE_1_BYTES,
    TYPE_2_BYTES,
};
use crate::tests::contents::{Format, Row, first_other};
use findings::{Feature, Finding, ReportedLsa, UnusedReason};
use frr_text::is_printed;
use lsa_codec::{AreaId, LsaFault};
use lsa_instances::{AreaKind, AreaReport, Scope};
use std::test::*;

const BACKBONE: AreaReport = AreaReport {
    id: AreaId(0),
    kind: AreaKind::Ordinary,
};

const ORDINARY: AreaReport = AreaReport {
    id: AreaId(1),
    kind: AreaKind::Ordinary,
};

const STUB: AreaReport = AreaReport {
    id: AreaId(2),
    kind: AreaKind::Stub,
};

const NSSA: AreaReport = AreaReport {
    id: AreaId(7),
    kind: AreaKind::Nssa,
};

/// What names the summary-LSA.
const SUMMARY_LSA: ReportedLsa = ReportedLsa {
    area: None,
    key: SUMMARY_KEY,
};

/// Texts, their LSAs, the kinds of areas in their headings, and their findings.
const TEXTS: &[Row] = &[
    (
        "a summary-LSA",
        SUMMARY,
        &[(Scope::Area(AreaId(0)), SUMMARY_BYTES)],
        &[BACKBONE],
        &[],
    ),
    (
        "a summary-LSA of type 4",
        ASBR,
        &[(Scope::Area(AreaId(2)), ASBR_BYTES)],
        &[STUB],
        &[],
    ),
    (
        "another checksum than the printed one",
        OTHER_METRIC,
        &[],
        &[BACKBONE],
        &[Finding::Unused(SUMMARY_LSA, UnusedReason::Refused(LsaFault::Checksum))],
    ),
    (
        "a router-LSA",
        ROUTER,
        &[(Scope::Area(AreaId(0)), ROUTER_BYTES)],
        &[BACKBONE],
        &[],
    ),
    (
        "a router-LSA of an area border router",
        BORDER,
        &[(Scope::Area(AreaId(2)), BORDER_BYTES)],
        &[STUB],
        &[],
    ),
    (
        "a network-LSA",
        NETWORK,
        &[(Scope::Area(AreaId(1)), NETWORK_BYTES)],
        &[ORDINARY],
        &[],
    ),
    (
        "external LSAs of both metric types",
        EXTERNALS,
        &[(Scope::AsWide, TYPE_2_BYTES), (Scope::AsWide, TYPE_1_BYTES)],
        &[],
        &[],
    ),
    (
        "an opaque LSA",
        OPAQUE,
        &[],
        &[BACKBONE],
        &[Finding::NotRead(Feature::Opaque, 1)],
    ),
    ("headings", HEADINGS, &[], &[STUB, NSSA, BACKBONE], &[]),
];

#[test]
fn contents_of_texts(rt: HostRuntime) -> Result<(), Fail> {
    assert_eq!(rt; first_other(rt.alloc(), Format::Printed, TEXTS)?, None);
    Ok(())
}

#[test]
fn printed_texts_are_recognized_by_their_words(rt: HostRuntime) -> Result<(), Fail> {
    assert!(rt; is_printed(SUMMARY));
    assert!(rt; is_printed(NETWORK));
    assert!(rt; !is_printed(b".1.3.6.1.2.1.14.2.1.3.0.0.0.2 = INTEGER: 2\n"));
    Ok(())
}
