//! Calls of a planner of which one edit is done and one undone.

use super::answers::{of_bytes, of_fault, of_made_table, of_routers, of_table, of_table_of};
use super::network::{OTHER, ROUTER, cost, database_of, no_link};
use super::outcomes::outcome_on;
use edit_history::EditFault;
use lsa_codec::RouterId;
use lsdb::Database;
use recalculate::Planner;
use std::alloc::{AllocError, Global};
use std::test::*;
use test_support::{Answer, CallOn, FailingAlloc, FallibleCall, Outcome, first_wrong};

/// What is called. Before a table after an edit, an undo or a redo there was a table, whose trees
/// are kept but for those of the area that is touched. After a refused edit all are kept. A second
/// table of the loaded database is made over a copy of it, where many edits are done.
#[derive(Clone, Copy)]
enum Call {
    Edit,
    Dump,
    DumpBase,
    Base,
    Routers,
    Table,
    TableAfterEdit,
    TableAfterUndo,
    TableAfterRedo,
    TableAfterRefusal,
    EditThenTable,
    BaseTable,
    BaselineTable,
    CopyForBaseTable,
    BaseTableOverCopy,
    BaseOfCopy,
    CachedTable,
}

const CALLS: &[Call] = &[
    Call::Edit,
    Call::Dump,
    Call::DumpBase,
    Call::Base,
    Call::Routers,
    Call::Table,
    Call::TableAfterEdit,
    Call::TableAfterUndo,
    Call::TableAfterRedo,
    Call::TableAfterRefusal,
    Call::EditThenTable,
    Call::BaseTable,
    Call::BaselineTable,
    Call::CopyForBaseTable,
    Call::BaseTableOverCopy,
    Call::BaseOfCopy,
    Call::CachedTable,
];

/// Makes a table of a router, whose trees are kept.
fn keep_trees(planner: &mut Planner<&FailingAlloc>, router: RouterId) -> Result<(), Fail> {
    let _table = planner.table(router)?;
    Ok(())
}

/// Carries edits out until they are many for the network, and makes a table of a router of the
/// loaded database. A second one makes a copy of that database.
fn ask_for_base(planner: &mut Planner<&FailingAlloc>, router: RouterId) -> Result<(), Fail> {
    planner.edit(&cost(13))?;
    planner.edit(&cost(14))?;
    let _table = planner.baseline_table(router)?;
    Ok(())
}

/// Makes an edit that is refused. One that is carried out is a failure.
fn refuse(planner: &mut Planner<&FailingAlloc>) -> Result<(), Fail> {
    match planner.edit(&no_link()) {
        Ok(()) => Err("an edit of no link")?,
        Err(_fault) => Ok(()),
    }
}

/// Carries two edits out and takes one back, and then what stands before a call.
fn prepare(planner: &mut Planner<&FailingAlloc>, call: Call) -> Result<(), Fail> {
    planner.edit(&cost(11))?;
    planner.edit(&cost(12))?;
    planner.undo(1)?;
    match call {
        Call::TableAfterEdit => {
            keep_trees(planner, ROUTER)?;
            planner.edit(&cost(13))?;
        }
        Call::TableAfterUndo => {
            keep_trees(planner, ROUTER)?;
            planner.undo(1)?;
        }
        Call::TableAfterRedo => {
            keep_trees(planner, ROUTER)?;
            planner.redo(1)?;
        }
        Call::TableAfterRefusal => {
            keep_trees(planner, ROUTER)?;
            refuse(planner)?;
        }
        Call::EditThenTable => keep_trees(planner, ROUTER)?,
        Call::CopyForBaseTable => ask_for_base(planner, OTHER)?,
        Call::BaseTableOverCopy | Call::BaseOfCopy => {
            ask_for_base(planner, ROUTER)?;
            ask_for_base(planner, OTHER)?;
        }
        _ => (),
    }
    Ok(())
}

/// The answer that an edit was carried out.
fn of_edit(alloc: Global, done: Result<(), EditFault>) -> Result<Answer, Fail> {
    match done {
        Ok(()) => Ok(Some(Vec::new(alloc))),
        Err(EditFault::OutOfMemory) => Ok(None),
        Err(fault) => Err(fault)?,
    }
}

/// The answer that is a database. There is ample memory for its dump, and from then on.
fn of_database(
    alloc: Global,
    failing: &FailingAlloc,
    database: Result<Database<&FailingAlloc>, AllocError>,
) -> Result<Answer, Fail> {
    let Ok(database) = database else {
        return Ok(None);
    };
    failing.set_remaining(u64::MAX);
    of_bytes(alloc, database.dump())
}

/// The answer that is a table. One that is not that of the planner's database alone is a failure.
fn of_table_now<'a>(
    alloc: Global,
    failing: &'a FailingAlloc,
    planner: &mut Planner<&'a FailingAlloc>,
) -> Result<Answer, Fail> {
    let answer = of_table(alloc, failing, planner.table(ROUTER))?;
    if answer.is_some() && answer != of_table_of(alloc, failing, planner.database())? {
        return Err("another table")?;
    }
    Ok(answer)
}

/// The answer that is a table after an edit: none where the edit is refused for want of memory.
/// There is ample memory for the table, which is that of the planner's database after a refusal
/// too.
fn of_edited_table<'a>(
    alloc: Global,
    failing: &'a FailingAlloc,
    planner: &mut Planner<&'a FailingAlloc>,
) -> Result<Answer, Fail> {
    let done = of_edit(alloc, planner.edit(&cost(7)))?;
    failing.set_remaining(u64::MAX);
    let table = of_table_now(alloc, failing, planner)?;
    Ok(done.and(table))
}

impl<'a> CallOn<'a, Planner<&'a FailingAlloc>> for Call {
    fn answer(
        &self,
        alloc: Global,
        failing: &'a FailingAlloc,
        planner: &mut Planner<&'a FailingAlloc>,
    ) -> Result<Answer, Fail> {
        match self {
            Call::Edit => of_edit(alloc, planner.edit(&cost(7))),
            Call::EditThenTable => of_edited_table(alloc, failing, planner),
            Call::Dump => of_bytes(alloc, planner.dump()),
            Call::DumpBase => of_bytes(alloc, planner.dump_base()),
            Call::Base | Call::BaseOfCopy => of_database(alloc, failing, planner.base()),
            Call::Routers => of_routers(alloc, planner.routers()),
            Call::BaseTable => of_table(alloc, failing, planner.base_table(ROUTER)),
            Call::BaselineTable | Call::CopyForBaseTable | Call::BaseTableOverCopy =>
                match planner.baseline_table(ROUTER) {
                    Ok(table) => of_made_table(alloc, failing, &table),
                    Err(fault) => of_fault(fault),
                },
            Call::CachedTable => match planner.cached_table(ROUTER) {
                Ok(table) => of_made_table(alloc, failing, &table),
                Err(fault) => of_fault(fault),
            },
            _ => of_table_now(alloc, failing, planner),
        }
    }
}

impl FallibleCall for Call {
    fn outcome(&self, alloc: Global, failing: &FailingAlloc, left: u64) -> Result<Outcome, Fail> {
        let mut planner = Planner::new(failing, database_of(failing)?);
        prepare(&mut planner, *self)?;
        outcome_on(alloc, failing, &mut planner, *self, left)
    }
}

#[test]
fn each_growth_of_a_call_refused(rt: HostRuntime) -> Result<(), Fail> {
    assert_eq!(rt; first_wrong(rt.alloc(), CALLS)?, None);
    Ok(())
}
