//! The lines of a list beside a database.

use super::pieces::DUMP;
use lsdb::Database;
use lsdb_listing::{list_lines, read_list};
use std::alloc::Global;
use std::test::*;

/// The lines of a list.
fn lines_of(alloc: Global, list: &[u8]) -> Result<String, Fail> {
    let list = read_list(alloc, list)?;
    let database = Database::load(alloc, DUMP)?;
    Ok(list_lines(alloc, "r4.txt", &database, &list)?)
}

/// Lists, and their lines.
const LINES: &[(&str, &[u8], &str)] = &[
    (
        "a header that stands twice",
        b"Router Link States (Area 0.0.0.1)\n1.1.1.1 1.1.1.1 22 0x80000003 0x46bb 2\n\
        1.1.1.1 1.1.1.1 23 0x80000003 0x46bb 2\n",
        "r4.txt: Missing area 0.0.0.1 type 1 id 1.1.1.1 adv 1.1.1.1\n",
    ),
    (
        "findings before differences, and those in order",
        b"Global\n 0001 1.1.1.1 1.1.1.1 80000003 29 46bb\n 0005 10.90.0.0\n\
        Summary Link States (Area 0.0.0.0)\n10.1.0.0 1.1.1.1 1 0x80000002 0x1136\n\
        AS External Link States\n10.90.0.0 3.3.3.3 33 0x80000001 0x92bb E2\nmore\n",
        "r4.txt: NoArea type 1 id 1.1.1.1 adv 1.1.1.1\n\
        r4.txt: Unreadable 2\n\
        r4.txt: Missing type 5 id 10.90.0.0 adv 3.3.3.3\n\
        r4.txt: Newer area 0.0.0.0 type 3 id 10.1.0.0 adv 1.1.1.1\n",
    ),
    (
        "a list that is met",
        b"Area 0.0.0.0\n 0003 10.1.0.0 1.1.1.1 80000001 7 1136\n",
        "",
    ),
];

#[test]
fn lines_of_lists(rt: HostRuntime) -> Result<(), Fail> {
    for (name, list, expected) in LINES {
        let lines = lines_of(rt.alloc(), list)?;
        assert_eq!(rt; lines.as_str(), *expected, "{name}");
    }
    Ok(())
}
