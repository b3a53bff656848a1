//! The lines of single failures. The functions have no clauses, so that the tests are proved soon.

use lsa_codec::AreaId;
use lsdb::Database;
use spf::Meter;
use std::alloc::Global;
use std::test::*;
use study_words::FailureKind;
use sweep_report::{FailureLine, Outcome, failures, sweep};
use test_support::dump_of_text;

/// Three routers in a ring, and 4.4.4.4 beside 3.3.3.3.
const RING: &str = "area 0.0.0.0
router 1.1.1.1: point-to-point 2.2.2.2 data=10.0.12.1 cost=10, \
point-to-point 3.3.3.3 data=10.0.13.1 cost=10
router 2.2.2.2: point-to-point 1.1.1.1 data=10.0.12.2 cost=10, \
point-to-point 3.3.3.3 data=10.0.23.2 cost=10, stub 10.2.0.0/16 cost=1
router 3.3.3.3: point-to-point 1.1.1.1 data=10.0.13.3 cost=10, \
point-to-point 2.2.2.2 data=10.0.23.3 cost=10, point-to-point 4.4.4.4 data=10.0.34.3 cost=10, \
stub 10.3.0.0/16 cost=1
router 4.4.4.4: point-to-point 3.3.3.3 data=10.0.34.4 cost=10, stub 10.4.0.0/16 cost=1";

/// Two links between two routers, each with the stub links of its interfaces.
const PARALLEL: &str = "area 0.0.0.0
router 1.1.1.1: point-to-point 2.2.2.2 data=10.0.12.1 cost=10, stub 10.0.12.0/30 cost=10, \
point-to-point 2.2.2.2 data=10.0.12.5 cost=10, stub 10.0.12.4/30 cost=10
router 2.2.2.2: point-to-point 1.1.1.1 data=10.0.12.2 cost=10, stub 10.0.12.0/30 cost=10, \
point-to-point 1.1.1.1 data=10.0.12.6 cost=10, stub 10.0.12.4/30 cost=10, stub 10.2.0.0/16 cost=1";

/// The same without these stub links: which ends belong together is not known.
const UNCLEAR: &str = "area 0.0.0.0
router 1.1.1.1: point-to-point 2.2.2.2 data=10.0.12.1 cost=10, \
point-to-point 2.2.2.2 data=10.0.12.5 cost=10
router 2.2.2.2: point-to-point 1.1.1.1 data=10.0.12.2 cost=10, \
point-to-point 1.1.1.1 data=10.0.12.6 cost=10";

/// Three routers on a network.
const LAN: &str = "area 0.0.0.0
router 1.1.1.1: transit 10.0.0.1 data=10.0.0.1 cost=10
router 2.2.2.2: transit 10.0.0.1 data=10.0.0.2 cost=10
router 3.3.3.3: transit 10.0.0.1 data=10.0.0.3 cost=10, stub 10.3.0.0/16 cost=1
network 10.0.0.1/24 by=1.1.1.1: 1.1.1.1, 2.2.2.2, 3.3.3.3";

/// 1.1.1.1 and 2.2.2.2 loop for 10.1.0.0/16: 2.2.2.2 announces it and has no way for it but that
/// for 10.0.0.0/8.
const LOOPED: &str = "area 0.0.0.0
router 1.1.1.1: point-to-point 2.2.2.2 data=10.0.12.1 cost=10, \
point-to-point 3.3.3.3 data=10.0.13.1 cost=10, point-to-point 4.4.4.4 data=10.0.14.1 cost=10
router 2.2.2.2 flags=1: point-to-point 1.1.1.1 data=10.0.12.2 cost=10
router 3.3.3.3: point-to-point 1.1.1.1 data=10.0.13.3 cost=10, stub 10.0.0.0/8 cost=1
router 4.4.4.4: point-to-point 1.1.1.1 data=10.0.14.4 cost=10
summary 10.1.0.0/16 by=2.2.2.2 cost=20
summary 20.1.0.0/16 by=2.2.2.2 cost=20";

/// 1.1.1.1 between 2.2.2.2 and 3.3.3.3, each in an area. The link of 4.4.4.4 to 2.2.2.2 is not
/// there from the other side.
const TWO_AREAS: &str = "area 0.0.0.0
router 1.1.1.1 flags=1: point-to-point 2.2.2.2 data=10.0.12.1 cost=10
router 2.2.2.2: point-to-point 1.1.1.1 data=10.0.12.2 cost=10
router 4.4.4.4: point-to-point 2.2.2.2 data=10.0.24.4 cost=10
area 0.0.0.1
router 1.1.1.1 flags=1: point-to-point 3.3.3.3 data=10.0.13.1 cost=10
router 3.3.3.3: point-to-point 1.1.1.1 data=10.0.13.3 cost=10";

/// What it is, the network, the kind of failures, and their lines.
const CASES: &[(&str, &str, FailureKind, &str)] = &[
    (
        "links of a ring",
        RING,
        FailureKind::Links,
        "cut 1.1.1.1 2.2.2.2 lost 0 gone 0 dearer 1 moved 0 loops 0
cut 1.1.1.1 3.3.3.3 lost 0 gone 0 dearer 2 moved 0 loops 0
cut 2.2.2.2 3.3.3.3 lost 0 gone 0 dearer 4 moved 0 loops 0
cut 3.3.3.3 4.4.4.4 lost 5 gone 0 dearer 0 moved 0 loops 0
",
    ),
    (
        "routers of a ring",
        RING,
        FailureKind::Routers,
        "fail 1.1.1.1 lost 0 gone 0 dearer 0 moved 0 loops 0
fail 2.2.2.2 lost 0 gone 3 dearer 0 moved 0 loops 0
fail 3.3.3.3 lost 3 gone 3 dearer 0 moved 0 loops 0
fail 4.4.4.4 lost 0 gone 3 dearer 0 moved 0 loops 0
",
    ),
    (
        "parallel links",
        PARALLEL,
        FailureKind::Links,
        "cut 1.1.1.1 2.2.2.2 10.0.12.1 lost 0 gone 2 dearer 0 moved 1 loops 0
cut 1.1.1.1 2.2.2.2 10.0.12.5 lost 0 gone 2 dearer 0 moved 1 loops 0
",
    ),
    (
        "links that cannot be cut alone",
        UNCLEAR,
        FailureKind::Links,
        "cut 1.1.1.1 2.2.2.2 10.0.12.1 refused UnclearEnd
cut 1.1.1.1 2.2.2.2 10.0.12.5 refused UnclearEnd
",
    ),
    (
        "a network",
        LAN,
        FailureKind::Networks,
        "fail-net 0.0.0.0 10.0.0.1 lost 2 gone 3 dearer 0 moved 0 loops 0
",
    ),
    // A router that is left without links has no router-LSA any more. The stub link of 3.3.3.3 has
    // the address of its interface, so it goes with the link.
    (
        "loops that stay",
        LOOPED,
        FailureKind::Links,
        "cut 1.1.1.1 2.2.2.2 lost 6 gone 0 dearer 0 moved 0 loops 0
cut 1.1.1.1 3.3.3.3 lost 0 gone 3 dearer 0 moved 0 loops 0
cut 1.1.1.1 4.4.4.4 lost 0 gone 0 dearer 0 moved 0 loops 1
",
    ),
];

/// The failures of all kinds, in all areas and within one.
const FAILURES: &[(&str, Option<AreaId>, &str)] = &[
    (
        TWO_AREAS,
        None,
        "cut 1.1.1.1 2.2.2.2
cut 1.1.1.1 3.3.3.3
fail 1.1.1.1
fail 2.2.2.2
fail 3.3.3.3
fail 4.4.4.4
",
    ),
    (
        TWO_AREAS,
        Some(AreaId(1)),
        "cut 1.1.1.1 3.3.3.3
fail 1.1.1.1
fail 3.3.3.3
",
    ),
    (
        LAN,
        None,
        "fail-net 0.0.0.0 10.0.0.1
fail 1.1.1.1
fail 2.2.2.2
fail 3.3.3.3
",
    ),
    (LAN, Some(AreaId(1)), ""),
];

/// The database that a text describes.
fn network(alloc: Global, text: &str) -> Result<Database, Fail> {
    Ok(Database::load(alloc, &dump_of_text(alloc, text)?)?)
}

/// Adds the line of a failure.
fn push_line(text: &mut String, line: &FailureLine) -> Result<(), Fail> {
    let edit = line.edit;
    match line.outcome {
        Outcome::Counted(counts) => {
            let (lost, gone, dearer) = (counts.lost, counts.gone, counts.dearer);
            let (moved, loops) = (counts.moved, counts.loops);
            write!(text, "{edit} lost {lost} gone {gone} dearer {dearer} ")?;
            write!(text, "moved {moved} loops {loops}\n")?;
        }
        Outcome::Refused(fault) => write!(text, "{edit} refused {fault}\n")?,
    }
    Ok(())
}

/// The lines of the failures of a kind in a network.
fn swept(alloc: Global, text: &str, kind: FailureKind) -> Result<String, Fail> {
    let database = network(alloc, text)?;
    let mut lines = String::new(alloc);
    for line in &sweep(alloc, &database, kind, None, &mut Meter::new())? {
        push_line(&mut lines, line)?;
    }
    Ok(lines)
}

/// The failures of all kinds in a network.
fn listed(alloc: Global, text: &str, within: Option<AreaId>) -> Result<String, Fail> {
    let database = network(alloc, text)?;
    let mut lines = String::new(alloc);
    for edit in &failures(alloc, &database, FailureKind::All, within)? {
        write!(lines, "{edit}\n")?;
    }
    Ok(lines)
}

#[test]
fn each_failure_counts_by_itself(rt: HostRuntime) -> Result<(), Fail> {
    for (name, text, kind, wanted) in CASES {
        let found = swept(rt.alloc(), text, *kind)?;
        assert_eq!(rt; found.as_str(), *wanted, "{name}");
    }
    Ok(())
}

#[test]
fn failures_are_listed_within_areas(rt: HostRuntime) -> Result<(), Fail> {
    for (text, within, wanted) in FAILURES {
        let found = listed(rt.alloc(), text, *within)?;
        assert_eq!(rt; found.as_str(), *wanted);
    }
    Ok(())
}
