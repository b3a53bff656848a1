//! What lists contain, and which texts are none.

use super::pieces::{OF_LINKS, SECTIONS, STUB_AREA, TABLES, WHOLE_LSA};
use findings::{Finding, ReportedLsa, UnusedReason};
use lsa_codec::{Addr, AreaId, Key, RouterId};
use lsa_instances::{Place, Scope};
use lsdb_listing::{Header, InstanceId, ListFault, read_list};
use std::alloc::Global;
use std::test::*;

/// A header: its scope, LS type, Link State ID, Advertising Router, LS sequence number, LS checksum
/// and LS age.
type Row = (Scope, u8, u32, u32, u32, u16, u16);

/// The header of a row.
fn header(row: &Row) -> Header {
    let (scope, kind, id, adv, sequence, checksum, age) = *row;
    let key = Key {
        kind,
        id: Addr(id),
        adv: RouterId(adv),
    };
    Header {
        place: Place { scope, key },
        instance: InstanceId { sequence, checksum },
        age,
    }
}

/// Whether headers are those of rows, in this order.
fn are_of(headers: &[Header], rows: &[Row]) -> bool {
    for (found, row) in headers.iter().zip(rows.iter()) {
        if *found != header(row) {
            return false;
        }
    }
    headers.len() == rows.len()
}

/// Whether a text contains these headers, and gives these findings.
fn contains(alloc: Global, text: &[u8], rows: &[Row], findings: &[Finding]) -> Result<bool, Fail> {
    let list = read_list(alloc, text)?;
    Ok(are_of(&list.headers, rows) && list.findings.as_slice() == findings)
}

const BACKBONE: Scope = Scope::Area(AreaId(0));

const OTHER_AREA: Scope = Scope::Area(AreaId(1));

const STUB: Scope = Scope::Area(AreaId(2));

/// What names the router-LSA of 1.1.1.1.
const ROUTER_LSA: ReportedLsa = ReportedLsa {
    area: None,
    key: Key {
        kind: 1,
        id: Addr(0x0101_0101),
        adv: RouterId(0x0101_0101),
    },
};

/// Texts, their headers, and what they give beside those.
const LISTS: &[(&str, &[u8], &[Row], &[Finding])] = &[
    (
        "tables of a stub area",
        STUB_AREA,
        &[
            (STUB, 1, 0x0101_0101, 0x0101_0101, 0x8000_0004, 0xe7fd, 33),
            (STUB, 3, 0x0a01_0000, 0x0202_0202, 0x8000_0002, 0xb465, 3600),
        ],
        &[],
    ),
    (
        "tables of opaque and external LSAs",
        TABLES,
        &[(
            Scope::AsWide,
            5,
            0x0a5b_0000,
            0x0aff_0005,
            0x8000_0001,
            0x84c3,
            34,
        )],
        &[],
    ),
    (
        "sections of the AS and of an area",
        SECTIONS,
        &[
            (Scope::AsWide, 5, 0, 0x0303_0303, 0x8000_0001, 0xeccf, 31),
            (
                OTHER_AREA,
                3,
                0xc0a8_0000,
                0x0101_0101,
                0x8000_0001,
                0xffe5,
                30,
            ),
            (
                OTHER_AREA,
                1,
                0x0101_0101,
                0x0101_0101,
                0x8000_0003,
                0x46bb,
                29,
            ),
        ],
        &[],
    ),
    (
        "a row that was cut",
        b"Net Link States (Area 0.0.0.1)\n192.168.50.4   4.4.4.4           17 0x8000",
        &[],
        &[Finding::Unreadable(1)],
    ),
    (
        "a checksum of a table that was cut",
        b"AS External Link States\n10.91.0.0      10.255.0.5        34 0x80000001 0x84c",
        &[],
        &[Finding::Unreadable(1)],
    ),
    (
        "a checksum of a section that was cut",
        b"Global\n 0005  0.0.0.0         3.3.3.3          80000001    31    ecc",
        &[],
        &[Finding::Unreadable(1)],
    ),
    ("LSAs of links, which are ignored", OF_LINKS, &[], &[]),
    (
        "an unknown heading, which ends its table",
        b"Net Link States (Area 0.0.0.1)\n\nOther Link States (Area 0.0.0.1)\n\
        192.168.50.4   4.4.4.4           17 0x80000001 0xc67f\n",
        &[],
        &[Finding::Unreadable(1)],
    ),
    (
        "a row of an area under no area",
        b"Global\n 0001  1.1.1.1         1.1.1.1          80000003    29    46bb\n",
        &[],
        &[Finding::Unused(ROUTER_LSA, UnusedReason::NoArea)],
    ),
];

#[test]
fn headers_and_findings_of_lists(rt: HostRuntime) -> Result<(), Fail> {
    for (name, text, rows, findings) in LISTS {
        assert!(rt; contains(rt.alloc(), text, rows, findings)?, "{name}");
    }
    Ok(())
}

/// Texts that are no lists.
const OTHER_TEXTS: &[(&str, &[u8])] = &[
    ("a walk", b".1.3.6.1.2.1.14.2.1.3.0.0.0.2 = INTEGER: 2\n"),
    ("no text", b""),
    (
        "lines that begin with words of headings",
        b"Link is up\nGlobal settings\nLink\n",
    ),
    ("whole LSAs", WHOLE_LSA),
];

#[test]
fn other_texts_are_no_lists(rt: HostRuntime) -> Result<(), Fail> {
    for (name, text) in OTHER_TEXTS {
        let fault = read_list(rt.alloc(), text).err();
        assert_eq!(rt; fault, Some(ListFault::NotAList), "{name}");
    }
    Ok(())
}
