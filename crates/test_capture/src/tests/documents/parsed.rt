//! What documents contain: LSAs, and why there is none.

use super::pieces::{
    ASBR, ASBR_BYTES, LINKS, LINKS_BYTES, NETWORK, NETWORK_BYTES, NO_AREA, OPAQUE, OPAQUE_BYTES,
    OPAQUE_CUT, OTHER_METRIC, ROUTER, ROUTER_BYTES, SUMMARY, SUMMARY_BYTES, SUMMARY_KEY, TYPE_1,
    TYPE_1_BYTES, TYPE_2, TYPE_2_BYTES, UNREADABLE,
};
use crate::tests::contents::has;
use crate::tests::observed::Expected;
use findings::{Feature, Finding, ReportedLsa, UnusedReason};
use frr_json::{JsonFault, is_printed_json, read_printed_json};
use lsa_codec::{AreaId, LsaFault};
use lsa_instances::Scope;
use std::alloc::Global;
use std::test::*;

/// Whether a document contains these LSAs and no kind of an area, and gives these findings.
fn contains(
    alloc: Global,
    text: &[u8],
    lsas: &[Expected],
    findings: &[Finding],
) -> Result<bool, JsonFault> {
    Ok(has(&read_printed_json(alloc, text)?, lsas, &[], findings))
}

const BACKBONE: Scope = Scope::Area(AreaId(0));

const OTHER_AREA: Scope = Scope::Area(AreaId(1));

/// What names the summary-LSA.
const SUMMARY_LSA: ReportedLsa = ReportedLsa {
    area: None,
    key: SUMMARY_KEY,
};

/// Documents, their LSAs and findings.
const DOCUMENTS: &[(&str, &[u8], &[Expected], &[Finding])] = &[
    (
        "a router-LSA of a transit link",
        ROUTER,
        &[(BACKBONE, ROUTER_BYTES)],
        &[],
    ),
    (
        "a router-LSA of a point-to-point link",
        LINKS,
        &[(OTHER_AREA, LINKS_BYTES)],
        &[],
    ),
    (
        "a network-LSA",
        NETWORK,
        &[(OTHER_AREA, NETWORK_BYTES)],
        &[],
    ),
    ("a summary-LSA", SUMMARY, &[(BACKBONE, SUMMARY_BYTES)], &[]),
    (
        "a summary-LSA of type 4",
        ASBR,
        &[(BACKBONE, ASBR_BYTES)],
        &[],
    ),
    (
        "an external LSA of metric type 1",
        TYPE_1,
        &[(Scope::AsWide, TYPE_1_BYTES)],
        &[],
    ),
    (
        "an external LSA of metric type 2",
        TYPE_2,
        &[(Scope::AsWide, TYPE_2_BYTES)],
        &[],
    ),
    ("an opaque LSA", OPAQUE, &[(BACKBONE, OPAQUE_BYTES)], &[]),
    (
        "an opaque LSA without all its data",
        OPAQUE_CUT,
        &[],
        &[Finding::NotRead(Feature::Opaque, 1)],
    ),
    (
        "another checksum than the printed one",
        OTHER_METRIC,
        &[],
        &[Finding::Unused(SUMMARY_LSA, UnusedReason::Refused(LsaFault::Checksum))],
    ),
    (
        "a name that is no area",
        NO_AREA,
        &[],
        &[Finding::Unused(SUMMARY_LSA, UnusedReason::NoArea)],
    ),
    (
        "no Link State ID, and an area that is no array",
        UNREADABLE,
        &[],
        &[Finding::Unreadable(2)],
    ),
];

#[test]
fn contents_of_documents(rt: HostRuntime) {
    for (name, text, lsas, findings) in DOCUMENTS {
        assert_eq!(rt;
            contains(rt.alloc(), text, lsas, findings),
            Ok(true),
            "{name}"
        );
    }
}

/// Texts that have no database, and what they are refused for.
const REFUSED: &[(&str, &[u8], JsonFault)] = &[
    ("no end", b"{\"routerId\": ", JsonFault::NotJson),
    (
        "a string that is not UTF-8",
        b"{\"routerId\": \"\xff\"}",
        JsonFault::NotJson,
    ),
    (
        "no member that is read",
        b"{\"routerId\": \"1.1.1.1\"}",
        JsonFault::NoDatabase,
    ),
    ("an array", b"[]", JsonFault::NoDatabase),
];

#[test]
fn what_is_no_database_is_refused(rt: HostRuntime) {
    for (name, text, fault) in REFUSED {
        let found = contains(rt.alloc(), text, &[], &[]);
        assert_eq!(rt; found, Err(*fault), "{name}");
    }
}

#[test]
fn deep_documents_are_refused(rt: HostRuntime) -> Result<(), Fail> {
    let mut deep = Vec::from_slice(rt.alloc(), b"{\"routerLinkStates\": ")?;
    deep.resize(1_000_000, b'[')?;
    let found = contains(rt.alloc(), &deep, &[], &[]);
    assert_eq!(rt; found, Err(JsonFault::NotJson));
    Ok(())
}

#[test]
fn documents_are_recognized_by_their_brace(rt: HostRuntime) -> Result<(), Fail> {
    assert!(rt; is_printed_json(b"\n  { \"routerId\": \"1.1.1.1\" }\n"));
    assert!(rt; !is_printed_json(b"       OSPF Router with ID (1.1.1.1)\n"));
    assert!(rt; !is_printed_json(b""));
    Ok(())
}
