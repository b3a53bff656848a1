//! The dump of files of one network.

use super::pieces::{CAPTURE, DUMP, JSON, TEXT, WALK};
use findings::Finding;
use lsa_codec::AreaId;
use lsa_instances::{AreaKind, AreaReport, FlushedLsas};
use network_files::{ParsedFile, join_files, read_file};
use std::alloc::Global;
use std::test::*;

/// The front of a file: this number of its bytes, or all where it has no more.
type Front = (&'static [u8], usize);

/// The whole file.
const ALL: usize = usize::MAX;

/// The bytes of a front.
fn bytes_of(front: &Front) -> &'static [u8] {
    let (file, size) = *front;
    file.get(..size).unwrap_or(file)
}

/// The dump that files make.
fn dump_of(alloc: Global, files: &[Front]) -> Result<Vec<u8>, Fail> {
    let mut parsed: Vec<ParsedFile> = Vec::new(alloc);
    for front in files {
        parsed.push(read_file(alloc, bytes_of(front))?)?;
    }
    Ok(join_files(alloc, FlushedLsas::LeftOut, &parsed)?.dump)
}

/// Whether a dump is that of the area and its LSA, at this LS age, which is below 256.
fn is_at_age(dump: &[u8], age: u8) -> bool {
    dump.len() == DUMP.len()
        && dump[..14] == DUMP[..14]
        && dump.get(14) == Some(&age)
        && dump[15..] == DUMP[15..]
}

/// Files of one network, and the LS age of the LSA in their dump. The front of the capture has the
/// kind of the area alone.
const FILES: &[(&str, &[Front], u8)] = &[
    ("a capture", &[(CAPTURE, ALL)], 1),
    ("a walk", &[(WALK, ALL)], 1),
    ("a walk and a capture", &[(WALK, ALL), (CAPTURE, ALL)], 1),
    (
        "a capture, a walk and the capture",
        &[(CAPTURE, ALL), (WALK, ALL), (CAPTURE, ALL)],
        1,
    ),
    ("a text", &[(TEXT, ALL)], 33),
    ("a text and a capture", &[(TEXT, ALL), (CAPTURE, ALL)], 1),
    (
        "a document and a front of a capture",
        &[(JSON, ALL), (CAPTURE, 118)],
        33,
    ),
    (
        "a document and a capture",
        &[(JSON, ALL), (CAPTURE, ALL)],
        1,
    ),
];

#[test]
fn files_of_one_network_give_one_dump(rt: HostRuntime) -> Result<(), Fail> {
    for (name, files, age) in FILES {
        assert!(rt; is_at_age(&dump_of(rt.alloc(), files)?, *age), "{name}");
    }
    Ok(())
}

/// ospfImportAsExtern of an NSSA.
const NSSA_WALK: &[u8] = b".1.3.6.1.2.1.14.2.1.3.0.0.0.7 = INTEGER: 3\n";

const STUB: AreaReport = AreaReport {
    id: AreaId(2),
    kind: AreaKind::Stub,
};

const NSSA: AreaReport = AreaReport {
    id: AreaId(7),
    kind: AreaKind::Nssa,
};

/// Files without LSAs, the area whose kind each has, and what is missing. The capture lacks its
/// last byte, so that the LSA is gone, and the kind of the area is there.
const AREAS: &[(&str, Front, AreaReport, &[Finding])] = &[
    ("a cut capture", (CAPTURE, 243), STUB, &[Finding::Cut(118)]),
    (
        "an NSSA, which a dump has as a stub area",
        (NSSA_WALK, ALL),
        NSSA,
        &[],
    ),
];

#[test]
fn files_without_lsas_contain_what_is_whole(rt: HostRuntime) -> Result<(), Fail> {
    for (name, front, area, findings) in AREAS {
        let parsed = read_file(rt.alloc(), bytes_of(front))?;
        assert!(rt; parsed.observations.is_empty(), "{name}");
        assert!(rt; parsed.areas.as_slice() == [*area].as_slice(), "{name}");
        assert!(rt; parsed.findings.as_slice() == *findings, "{name}");
    }
    assert!(rt; NSSA.kind.is_stub());
    Ok(())
}
