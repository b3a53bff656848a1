//! Records: they report their edit, and go back and on without memory.

ghost use Rattle.lsdb.specs.Lists.{IsDatabase};
ghost use Rattle.lsdb.specs.Slots.{lists_of};
ghost use Rattle.edit_history.specs.Exchange.{CanUndo};

use super::nets::{edit_of, is_after, nets};
use edit_history::{Record, apply, inverses, replay, revert};
use lsa_codec::AreaId;
use lsdb::Database;
use std::alloc::{Allocator, Global};
use std::test::*;
use test_support::FailingAlloc;

/// Edits of `NETS`, how many LSAs each rewrites, removes or adds, and whether it changes the graph
/// of area 0.0.0.0, and that of area 0.0.0.1.
pub(super) const EDITS: &[(&str, usize, bool, bool)] = &[
    ("cost 0.0.0.0 1.1.1.1 3 7", 1, true, false),
    ("drop-link 0.0.0.0 2.2.2.2 1", 1, true, false),
    ("fail-link 0.0.0.0 1.1.1.1 2.2.2.2", 2, true, false),
    ("fail-link 0.0.0.0 2.2.2.2 1.1.1.1", 2, true, false),
    ("fail-net 0.0.0.0 10.5.0.3", 4, true, false),
    ("add-stub 0.0.0.0 1.1.1.1 10.7.0.0/16 0", 1, true, false),
    (
        "summary 0.0.0.0 2.2.2.2 10.20.0.0/16 16777215",
        1,
        false,
        false,
    ),
    ("add-summary 0.0.0.0 2.2.2.2 10.8.0.0/16 7", 1, false, false),
    ("add-summary 0.0.0.1 2.2.2.2 10.8.0.0/16 7", 1, false, false),
    (
        "add-external 2.2.2.2 10.9.0.0/16 2 20 0.0.0.0 0",
        1,
        false,
        false,
    ),
    ("drop-external 2.2.2.2 10.92.0.0/16", 1, false, false),
    ("fail-router 3.3.3.3", 3, true, false),
    ("fail-router 2.2.2.2", 6, true, true),
];

/// Whether a record of an edit takes it back, and carries it out again.
fn goes_and_comes<A: Allocator + Copy>(
    alloc: Global,
    database: &mut Database<A>,
    change: &mut Record<A>,
    line: &str,
) -> Result<bool, Fail>
    requires database { IsDatabase (lists_of database.old) }
    requires linked { CanUndo database.old change.old.swaps }
{
    inverses();
    revert(database, change);
    let is_back = is_after(alloc, database, &[])?;
    replay(database, change);
    Ok(is_back && is_after(alloc, database, &[line])?)
}

/// Whether the record of an edit reports it, how many LSAs it changed, and which graphs; and
/// whether the edit goes and comes where no growth is left.
fn takes_no_memory(
    alloc: Global,
    line: &str,
    changed: usize,
    backbone: bool,
    stub_area: bool,
) -> Result<bool, Fail> {
    let edit = edit_of(line)?;
    let failing = FailingAlloc::new(alloc, u64::MAX);
    let mut database = Database::load(&failing, nets())?;
    let mut record = apply(&mut database, &edit)?;
    failing.set_remaining(0);
    let is_reported = record.edit() == edit
        && record.len() == changed
        && record.touches(AreaId(0)) == backbone
        && record.touches(AreaId(1)) == stub_area;
    // That the edit left a database is what going and coming asks for.
    database.assert_valid();
    Ok(goes_and_comes(alloc, &mut database, &mut record, line)? && is_reported)
}

#[test]
fn a_record_reports_its_edit_and_takes_no_memory(rt: HostRuntime) -> Result<(), Fail> {
    for (line, changed, backbone, stub_area) in EDITS {
        let so = takes_no_memory(rt.alloc(), line, *changed, *backbone, *stub_area)?;
        assert!(rt; so, "{line}");
    }
    Ok(())
}
