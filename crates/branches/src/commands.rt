//! The commands of a script, executed on one planner.

ghost use Rattle.std.specs.Prelude.{◌≡◌, ◌++◌, ◌≤◌, IfOk, OnOk, OnErr, IsOk, false, filter_map, length, option_map, option_to_list};
ghost use Rattle.std.specs.String.{string_bytes};
ghost use Rattle.lsdb.specs.Slots.{lists_of};
ghost use Rattle.edit_history.specs.Session.{accepted_or, state, edited, moved_on};
ghost use Rattle.routing_table.specs.Routers.{attached_routers};
ghost use Rattle.routing_table.specs.Tables.{table_in};
ghost use Rattle.branches.specs.Branches.{before_last};
ghost use Rattle.branches.specs.Replies.{reply_to, after, takes_memory, said_by, compare_reply, edit_reply, or_empty, table_reply, tables, router_text};

use crate::reply::{Refusal, Reply};
use edit_history::{EditFault, moves};
use edit_script::{Command, Edit};
use lsa_codec::RouterId;
use lsdb::Database;
use recalculate::{Planner, Table, TableFault};
use routing_table::{routers, routers_are_attached};
use std::alloc::{AllocError, Allocator};
use table_report::push_table;

/// Executes one command on a planner. `undo`, `redo` and `info` take no memory.
///
/// # Errors
///
/// Memory ran out. Then the session is as it was.
#[tactic(auto, using(crate::proofs::KeptBase::after_base))]
pub(crate) fn execute<A: Allocator + Copy>(
    alloc: A,
    planner: &mut Planner<A>,
    command: &Command,
) -> Result<Reply<A>, AllocError>
    ensures reply { IfOk result
        (λ reply. said_by reply ≡ reply_to planner.old.session command.now) }
    ensures session { OnOk result (planner.new.session ≡ after planner.old.session command.now) }
    ensures base { planner.new.session.base ≡ planner.old.session.base }
    ensures kept { OnErr result (planner.new.session ≡ planner.old.session) }
    ensures memory { takes_memory command.now ≡ false → IsOk result }
{
    match *command {
        Command::Edit(edit) => execute_edit(planner, &edit),
        Command::Undo(count) => Ok(match planner.undo(count) {
            Ok(()) => Reply::Done,
            Err(fault) => Reply::Refused(Refusal::Undo(fault)),
        }),
        Command::Redo(count) => Ok(match planner.redo(count) {
            Ok(()) => Reply::Done,
            Err(fault) => Reply::Refused(Refusal::Redo(fault)),
        }),
        Command::Table(router) => table(planner, router),
        Command::Tables => tables(alloc, planner),
        Command::Compare(router) => compare(alloc, planner, router),
        Command::Info => Ok(Reply::Info(planner.info())),
    }
}

/// Carries an edit out.
fn execute_edit<A: Allocator + Copy>(
    planner: &mut Planner<A>,
    edit: &Edit,
) -> Result<Reply<A>, AllocError>
    ensures reply { IfOk result
        (λ reply. said_by reply ≡ edit_reply (edited planner.old.session edit.now)) }
    ensures session { OnOk result
        (planner.new.session ≡ accepted_or planner.old.session
        (edited planner.old.session edit.now)) }
    ensures base { planner.new.session.base ≡ planner.old.session.base }
    ensures kept { OnErr result (planner.new.session ≡ planner.old.session) }
{
    match planner.edit(edit) {
        Ok(()) => Ok(Reply::Done),
        Err(EditFault::OutOfMemory) => Err(AllocError),
        Err(fault) => Ok(Reply::Refused(Refusal::Edit(fault))),
    }
}

/// A copy of the database before the last `count` done edits, which are taken back for it and
/// carried out again; `None` where fewer are done.
pub(crate) fn before_last<A: Allocator + Copy>(
    planner: &mut Planner<A>,
    count: u32,
) -> Result<Option<Database<A>>, AllocError>
    ensures database { IfOk result (λ database. option_map lists_of database
        ≡ before_last count planner.old.session) }
    ensures kept { planner.new.session ≡ planner.old.session }
{
    moves();
    match planner.undo(count) {
        Err(_) => Ok(None),
        Ok(()) => {
            let copy = planner.database().clone_of();
            redo_all(planner, count);
            Ok(Some(copy?))
        }
    }
}

/// Carries the first `count` undone edits out again.
fn redo_all<A: Allocator + Copy>(planner: &mut Planner<A>, count: u32)
    requires { count ≤ length planner.old.session.undone }
    ensures { planner.new.session ≡ moved_on count planner.old.session }
{
    // It is not refused: that many are undone.
    let _ = planner.redo(count);
}

/// The routing table of a router now, if it is attached to an area.
fn table_now<A: Allocator + Copy>(
    planner: &mut Planner<A>,
    router: RouterId,
) -> Result<Option<Table<A>>, AllocError>
    ensures table { IfOk result (λ table. table ≡ table_in (state planner.old.session) router) }
    ensures kept { planner.new.session ≡ planner.old.session }
{
    match planner.table(router) {
        Ok(table) => Ok(Some(table)),
        Err(TableFault::NoRouter) => Ok(None),
        Err(TableFault::OutOfMemory) => Err(AllocError),
    }
}

/// The refusal where a router is attached to no area.
const NO_ROUTER: Refusal = Refusal::Table(TableFault::NoRouter);

/// The reply to `table`. The planner keeps the table too, or it is one that it keeps of the loaded
/// database.
fn table<A: Allocator + Copy>(
    planner: &mut Planner<A>,
    router: RouterId,
) -> Result<Reply<A>, AllocError>
    ensures reply { IfOk result
        (λ reply. said_by reply ≡ table_reply (table_in (state planner.old.session) router)) }
    ensures kept { planner.new.session ≡ planner.old.session }
{
    match planner.cached_table(router) {
        Ok(table) => Ok(Reply::Table(table)),
        Err(TableFault::NoRouter) => Ok(Reply::Refused(NO_ROUTER)),
        Err(TableFault::OutOfMemory) => Err(AllocError),
    }
}

/// The reply to `tables`.
fn tables<A: Allocator + Copy>(alloc: A, planner: &mut Planner<A>) -> Result<Reply<A>, AllocError>
    ensures reply { IfOk result
        (λ reply. said_by reply ≡ tables
        (filter_map (table_in (state planner.old.session))
        (attached_routers (state planner.old.session)))) }
    ensures kept { planner.new.session ≡ planner.old.session }
{
    let routers = planner.routers()?;
    let tables = tables_of(alloc, planner, &routers)?;
    Ok(Reply::Tables(tables))
}

/// The routing tables of routers now, of those that are attached to an area.
fn tables_of<A: Allocator + Copy>(
    alloc: A,
    planner: &mut Planner<A>,
    routers: &[RouterId],
) -> Result<Vec<Table<A>, A>, AllocError>
    ensures tables { IfOk result
        (λ tables. tables.items ≡ filter_map (table_in (state planner.old.session)) routers.now) }
    ensures kept { planner.new.session ≡ planner.old.session }
{
    let mut tables = Vec::new(alloc);
    for router in routers {
        add_table(&mut tables, table_now(planner, *router)?)?;
    }
    Ok(tables)
}

/// Adds a table, if there is one.
fn add_table<A: Allocator + Copy>(
    tables: &mut Vec<Table<A>, A>,
    table: Option<Table<A>>,
) -> Result<(), AllocError>
    ensures { OnOk result (tables.new.items ≡ tables.old.items ++ option_to_list table) }
{
    if let Some(table) = table {
        tables.push(table)?;
    }
    Ok(())
}

/// The routers that are attached to areas of a database. Each of them has a routing table.
pub(crate) fn routers_with_table<A: Allocator + Copy>(
    database: &Database<A>,
) -> Result<Vec<RouterId, A>, AllocError>
    ensures routers { IfOk result
        (λ routers. routers.items ≡ attached_routers (lists_of database.now)) }
    ensures tables { IfOk result
        (λ routers. length (filter_map (table_in (lists_of database.now)) routers.items)
        ≡ length routers.items) }
{
    // By this law each of the routers is attached to an area of a valid database, so it has a
    // table; and this database is valid.
    routers_are_attached();
    database.assert_valid();
    routers(database.alloc(), database)
}

/// Adds the text of the routing table of a router now, if it is attached to an area. The table is
/// then dropped.
pub(crate) fn push_table_now<A: Allocator + Copy>(
    planner: &mut Planner<A>,
    router: RouterId,
    text: &mut String<A>,
) -> Result<(), AllocError>
    ensures text { OnOk result (string_bytes text.new
        ≡ string_bytes text.old ++ router_text (state planner.old.session) router) }
    ensures kept { planner.new.session ≡ planner.old.session }
{
    match table_now(planner, router)? {
        Some(table) => push_table(text, &table),
        None => Ok(()),
    }
}

/// The reply to `compare`.
fn compare<A: Allocator + Copy>(
    alloc: A,
    planner: &mut Planner<A>,
    router: RouterId,
) -> Result<Reply<A>, AllocError>
    ensures reply { IfOk result
        (λ reply. said_by reply ≡ compare_reply router (table_in planner.old.session.base router)
        (table_in (state planner.old.session) router)) }
    ensures kept { planner.new.session ≡ planner.old.session }
{
    let before = match planner.baseline_table(router) {
        Ok(table) => table,
        Err(TableFault::NoRouter) => return Ok(Reply::Refused(NO_ROUTER)),
        Err(TableFault::OutOfMemory) => return Err(AllocError),
    };
    if planner.is_unchanged(router) {
        return Ok(Reply::Unchanged {
            router,
            table: before,
        });
    }
    let now = match table_now(planner, router)? {
        Some(table) => table,
        None => Table::empty(alloc, router),
    };
    Ok(Reply::Compare {
        router,
        before,
        now,
    })
}
