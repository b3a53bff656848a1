//! Refused edits where no memory is left: what an edit is refused for comes before want of memory,
//! also a limit of LSAs.

use super::dumps::{Dump, bytes_of};
use super::nets::{edit_of, nets};
use edit_history::{EditFault, apply};
use lsdb::Database;
use std::alloc::Global;
use std::test::*;
use test_support::FailingAlloc;

/// Edits of `NETS`, and what each is refused for.
const REFUSED: &[(&str, EditFault)] = &[
    ("cost 0.0.0.7 9.9.9.9 5 0", EditFault::NoArea),
    ("cost 0.0.0.0 9.9.9.9 5 0", EditFault::NoRouter),
    ("cost 0.0.0.0 1.1.1.1 5 0", EditFault::NoLink),
    ("cost 0.0.0.0 1.1.1.1 0 0", EditFault::NoLink),
    ("cost 0.0.0.0 1.1.1.1 1 0", EditFault::ZeroCost),
    ("cost 0.0.0.0 1.1.1.1 4 0", EditFault::ZeroCost),
    ("drop-link 0.0.0.7 9.9.9.9 3", EditFault::NoArea),
    ("drop-link 0.0.0.0 9.9.9.9 3", EditFault::NoRouter),
    ("drop-link 0.0.0.0 1.1.1.1 5", EditFault::NoLink),
    ("drop-link 0.0.0.0 1.1.1.1 0", EditFault::NoLink),
    ("add-stub 0.0.0.7 9.9.9.9 10.99.0.0/16 0", EditFault::NoArea),
    (
        "add-stub 0.0.0.0 9.9.9.9 10.99.0.0/16 0",
        EditFault::NoRouter,
    ),
    ("fail-link 0.0.0.7 1.1.1.1 1.1.1.1", EditFault::NoArea),
    ("fail-link 0.0.0.0 9.9.9.9 9.9.9.9", EditFault::SameRouter),
    ("fail-link 0.0.0.0 9.9.9.9 1.1.1.1", EditFault::NoRouter),
    ("fail-link 0.0.0.0 1.1.1.1 9.9.9.9", EditFault::NoRouter),
    ("fail-link 0.0.0.0 1.1.1.1 3.3.3.3", EditFault::NoLink),
    ("fail-net 0.0.0.7 10.5.0.3", EditFault::NoArea),
    ("fail-net 0.0.0.0 10.5.0.1", EditFault::NoNetwork),
    ("fail-router 9.9.9.9", EditFault::NoRouter),
    ("summary 0.0.0.7 2.2.2.2 10.20.0.0/16 5", EditFault::NoArea),
    (
        "summary 0.0.0.0 1.1.1.1 10.20.0.0/16 5",
        EditFault::NoSummary,
    ),
    (
        "summary 0.0.0.0 2.2.2.2 10.99.0.0/16 5",
        EditFault::NoSummary,
    ),
    (
        "add-summary 0.0.0.7 9.9.9.9 10.20.0.0/16 7",
        EditFault::NoArea,
    ),
    (
        "add-summary 0.0.0.0 9.9.9.9 10.20.0.0/16 7",
        EditFault::NoRouter,
    ),
    (
        "add-summary 0.0.0.0 2.2.2.2 10.20.0.0/16 7",
        EditFault::KeyTaken,
    ),
    (
        "add-external 9.9.9.9 10.91.0.0/16 2 20 0.0.0.0 0",
        EditFault::NoRouter,
    ),
    (
        "add-external 2.2.2.2 10.91.0.0/16 2 20 0.0.0.0 0",
        EditFault::KeyTaken,
    ),
    ("drop-external 2.2.2.2 10.20.0.0/16", EditFault::NoExternal),
    ("drop-external 1.1.1.1 10.91.0.0/16", EditFault::NoExternal),
];

/// The limits of LSAs: edits of databases that are full, or have room for one LSA, and what each is
/// refused for.
const AT_LIMITS: &[(Dump, &str, EditFault)] = &[
    (Dump::Area(8191), ADD_SUMMARY, EditFault::OutOfMemory),
    (Dump::Area(8192), ADD_SUMMARY, EditFault::Full),
    (Dump::AsList(65_534), ADD_EXTERNAL, EditFault::OutOfMemory),
    (Dump::AsList(65_535), ADD_EXTERNAL, EditFault::Full),
];

const ADD_SUMMARY: &str = "add-summary 0.0.0.0 2.2.2.2 10.8.0.0/16 7";

const ADD_EXTERNAL: &str = "add-external 2.2.2.2 10.9.0.0/16 2 20 0.0.0.0 0";

/// Whether an edit is refused so where no growth is left, and changes nothing.
fn is_refused_so(alloc: Global, dump: &[u8], line: &str, fault: EditFault) -> Result<bool, Fail> {
    let edit = edit_of(line)?;
    let failing = FailingAlloc::new(alloc, u64::MAX);
    let mut database = Database::load(&failing, dump)?;
    failing.set_remaining(0);
    let refusal = apply(&mut database, &edit).err();
    failing.set_remaining(u64::MAX);
    Ok(refusal == Some(fault) && database.dump()?.as_slice() == dump)
}

#[test]
fn a_refusal_comes_before_want_of_memory(rt: HostRuntime) -> Result<(), Fail> {
    for (line, fault) in REFUSED {
        assert!(rt; is_refused_so(rt.alloc(), nets(), line, *fault)?, "{line}");
    }
    Ok(())
}

#[test]
fn a_limit_comes_before_want_of_memory(rt: HostRuntime) -> Result<(), Fail> {
    for (number, (dump, line, fault)) in AT_LIMITS.iter().enumerate() {
        let dump = bytes_of(rt.alloc(), *dump)?;
        assert!(rt;
            is_refused_so(rt.alloc(), &dump, line, *fault)?,
            "row {number}"
        );
    }
    Ok(())
}
