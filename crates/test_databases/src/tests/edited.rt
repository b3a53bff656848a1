//! Edits, undo and redo, as the tests call them: these have no clauses but the one that undo and
//! redo ask for, so that the prover reads no more in each test.

ghost use Rattle.std.specs.Prelude.{IfOk};
ghost use Rattle.edit_history.specs.Journal.{Links};

use crate::edited::{self, Way};
use edit_history::{EditFault, History};
use edit_script::Edit;
use lsdb::Database;
use std::alloc::Allocator;
use std::test::Fail;

/// Carries an edit out, and keeps its record.
pub(super) fn apply_and_push<A: Allocator + Copy>(
    database: &mut Database<A>,
    history: &mut History<A>,
    edit: &Edit,
) -> Result<(), EditFault>
    requires { Links database.old history.old.lists }
    ensures { Links database.new history.new.lists }
{
    edited::apply_and_push(database, history, edit)
}

/// The database of a dump after the edits of lines, and their history.
pub(super) fn edited<A: Allocator + Copy>(
    alloc: A,
    dump: &[u8],
    lines: &[&str],
) -> Result<(Database<A>, History<A>), Fail>
    ensures { IfOk result (λ edited. Links edited.0 edited.1.lists) }
{
    edited::edited(alloc, dump, lines)
}

/// Moves edits, one at a time.
pub(super) fn move_by<A: Allocator + Copy>(
    database: &mut Database<A>,
    history: &mut History<A>,
    way: Way,
    count: usize,
) -> Result<(), Fail>
    requires { Links database.old history.old.lists }
    ensures { Links database.new history.new.lists }
{
    edited::move_by(database, history, way, count)
}
