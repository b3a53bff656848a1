//! How a database differs from a list.

use super::pieces::{DUMP, FLUSHED_DUMP};
use lsdb::Database;
use lsdb_listing::{differences, read_list};
use std::alloc::Global;
use std::test::*;

/// The lines of the differences of the database of a dump from a list.
fn difference_lines(alloc: Global, dump: &[u8], list: &[u8]) -> Result<String, Fail> {
    let list = read_list(alloc, list)?;
    let database = Database::load(alloc, dump)?;
    let mut lines = String::new(alloc);
    for difference in &differences(alloc, &database, &list.headers)? {
        let line = format!(in alloc; "{difference}\n")?;
        lines.push_str(line.as_str())?;
    }
    Ok(lines)
}

/// Dumps of one summary-LSA, below MaxAge or at it, lists, and the lines of the differences.
const DIFFERENCES: &[(&str, &[u8], &[u8], &str)] = &[
    (
        "the same instance",
        DUMP,
        b"Summary Link States (Area 0.0.0.0)\n10.1.0.0 1.1.1.1 999 0x80000001 0x1136",
        "",
    ),
    (
        "LS sequence numbers are signed",
        DUMP,
        b"Summary Link States (Area 0.0.0.0)\n10.1.0.0 1.1.1.1 1 0x00000001 0x0001\n\
        10.1.0.0 1.1.1.1 1 0x80000000 0xffff\n",
        "Newer area 0.0.0.0 type 3 id 10.1.0.0 adv 1.1.1.1\n\
        Older area 0.0.0.0 type 3 id 10.1.0.0 adv 1.1.1.1\n",
    ),
    (
        "LS checksums decide between equal LS sequence numbers",
        DUMP,
        b"Area 0.0.0.0\n 0003 10.1.0.0 1.1.1.1 80000001 7 1135\n",
        "Older area 0.0.0.0 type 3 id 10.1.0.0 adv 1.1.1.1\n",
    ),
    (
        "what is missing, but for flushed LSAs",
        DUMP,
        b"Router Link States (Area 0.0.0.1)\n1.1.1.1 1.1.1.1 22 0x80000003 0x46bb 2\n\
        2.2.2.2 2.2.2.2 3600 0x80000003 0x7e46 2\n\
        AS External Link States\n10.90.0.0 3.3.3.3 33 0x80000001 0x92bb E2\n",
        "Missing area 0.0.0.1 type 1 id 1.1.1.1 adv 1.1.1.1\n\
        Missing type 5 id 10.90.0.0 adv 3.3.3.3\n",
    ),
    (
        "the bit DoNotAge does not count",
        DUMP,
        b"Router Link States (Area 0.0.0.1)\n1.1.1.1 1.1.1.1 36368 0x80000003 0x46bb 2\n\
        2.2.2.2 2.2.2.2 32769 0x80000003 0x7e46 2\n",
        "Missing area 0.0.0.1 type 1 id 2.2.2.2 adv 2.2.2.2\n",
    ),
    (
        "the same instance at MaxAge is missing",
        FLUSHED_DUMP,
        b"Summary Link States (Area 0.0.0.0)\n10.1.0.0 1.1.1.1 3599 0x80000001 0x1136\n\
        10.1.0.0 1.1.1.1 3600 0x80000001 0x1136\n10.1.0.0 1.1.1.1 7 0x80000001 0x1135\n",
        "Missing area 0.0.0.0 type 3 id 10.1.0.0 adv 1.1.1.1\n\
        Older area 0.0.0.0 type 3 id 10.1.0.0 adv 1.1.1.1\n",
    ),
];

#[test]
fn differences_of_databases_from_lists(rt: HostRuntime) -> Result<(), Fail> {
    for (name, dump, list, expected) in DIFFERENCES {
        let lines = difference_lines(rt.alloc(), dump, list)?;
        assert_eq!(rt; lines.as_str(), *expected, "{name}");
    }
    Ok(())
}
