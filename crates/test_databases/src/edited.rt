//! Databases after edits, with their histories.

ghost use Rattle.std.specs.Prelude.{◌≡◌, ◌≢◌, ◌≤◌, ◌↔◌, length, true, All, Ok, Err, IsOk, IfOk, IfErr, OnOk, OnErr};
ghost use Rattle.lsdb.specs.Slots.{lists_of};
ghost use Rattle.edit_history.specs.Effect.{effect};
ghost use Rattle.edit_history.specs.Journal.{Links};
ghost use Rattle.edit_history.specs.Session.{Session, session_of, state};
ghost use Rattle.test_databases.specs.Edited.{with_edit, movable, moved, IsSessionOf, HasSame};

use crate::lines::edit_of;
use crate::sections::have_same;
use edit_history::{EditFault, History, apply};
use edit_script::Edit;
use lsdb::{Database, Section};
use std::alloc::{Allocator, Global};
use std::test::Fail;

/// Carries an edit out, and adds its record after those of the edits that are done. The undone ones
/// are dropped.
///
/// # Errors
///
/// The edit is refused, or memory ran out: then nothing has changed.
pub fn apply_and_push<A: Allocator + Copy>(
    database: &mut Database<A>,
    history: &mut History<A>,
    edit: &Edit,
) -> Result<(), EditFault>
    requires { Links database.old history.old.lists }
    ensures linked { Links database.new history.new.lists }
    ensures effect { OnOk result
        (effect (lists_of database.old) edit.now ≡ Ok (lists_of database.new)) }
    ensures session { OnOk result (session_of database.new history.new.lists
        ≡ with_edit (session_of database.old history.old.lists) edit.now) }
    ensures refused { IfErr result (λ fault. fault ≢ EditFault.OutOfMemory
        → effect (lists_of database.old) edit.now ≡ Err fault) }
    ensures kept { OnErr result
        ((history.new.lists ≡ history.old.lists) × (database.new ≡ database.old)) }
{
    history.reserve()?;
    let record = apply(database, edit)?;
    history.push(record);
    // The edit's link to the history requires that it left a valid database.
    database.assert_valid();
    Ok(())
}

/// The database of a dump after the edits that lines mean, in order, and their history.
///
/// # Errors
///
/// The dump is refused, a line means no edit, an edit is refused, or memory ran out.
pub fn edited<A: Allocator + Copy>(
    alloc: A,
    dump: &[u8],
    lines: &[&str],
) -> Result<(Database<A>, History<A>), Fail>
    ensures linked { IfOk result (λ edited. Links edited.0 edited.1.lists) }
    ensures session { IfOk result
        (λ edited. IsSessionOf dump.now lines.now (session_of edited.0 edited.1.lists)) }
{
    let mut database = Database::load(alloc, dump)?;
    let mut history = History::new(alloc);
    // The database's link to the empty history requires that it is valid.
    database.assert_valid();
    for line in lines {
        let edit = edit_of(line)?;
        apply_and_push(&mut database, &mut history, &edit)?;
    }
    Ok((database, history))
}

/// Which way edits move.
#[derive(Clone, Copy)]
pub enum Way {
    /// Done edits are taken back, the last one first.
    Back,
    /// Undone edits are carried out again, the next one first.
    On,
}

/// Moves one edit.
fn move_one<A: Allocator + Copy>(
    database: &mut Database<A>,
    history: &mut History<A>,
    way: Way,
) -> Result<(), Fail>
    requires { Links database.old history.old.lists }
    ensures linked { Links database.new history.new.lists }
    ensures ok { IsOk result ↔ (1 ≤ length (movable way history.old.lists)) }
    ensures session { OnOk result (session_of database.new history.new.lists
        ≡ moved way 1 (session_of database.old history.old.lists)) }
    ensures err { OnErr result
        ((history.new.lists ≡ history.old.lists) × (database.new ≡ database.old)) }
{
    match way {
        Way::Back => Ok(history.undo(database, 1)?),
        Way::On => Ok(history.redo(database, 1)?),
    }
}

/// Moves `count` edits, one at a time.
///
/// # Errors
///
/// There are fewer. Then all of them are moved.
pub fn move_by<A: Allocator + Copy>(
    database: &mut Database<A>,
    history: &mut History<A>,
    way: Way,
    count: usize,
) -> Result<(), Fail>
    requires { Links database.old history.old.lists }
    ensures linked { Links database.new history.new.lists }
    ensures ok { IsOk result ↔ (count ≤ length (movable way history.old.lists)) }
    ensures session { session_of database.new history.new.lists
        ≡ moved way count (session_of database.old history.old.lists) }
{
    for _step in 0..count {
        move_one(database, history, way)?;
    }
    Ok(())
}

/// Whether a database has, in each of these sections, the LSAs that a dump has after the edits that
/// lines mean.
///
/// # Errors
///
/// Those of [`edited`].
pub fn is_after<A: Allocator + Copy>(
    alloc: Global,
    database: &Database<A>,
    dump: &[u8],
    lines: &[&str],
    sections: &[Section],
) -> Result<bool, Fail>
    ensures { IfOk result (λ same. (s : Session) × (IsSessionOf dump.now lines.now s
        × ((same ≡ true) ↔ All (HasSame (lists_of database.now) (state s)) sections.now))) }
{
    let (other, _history) = edited(alloc, dump, lines)?;
    Ok(have_same(database, &other, sections))
}
