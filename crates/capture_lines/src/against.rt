//! The lines of a database beside the lists of other routers.

ghost use Rattle.std.specs.Prelude.{IfOk, map};
ghost use Rattle.std.specs.List.{zip};
ghost use Rattle.std.specs.String.{string_bytes};
ghost use Rattle.lsdb.specs.Slots.{lists_of};
ghost use Rattle.capture_lines.specs.Reports.{HaveListTexts};

use lsdb::Database;
use lsdb_listing::{PrintedList, list_lines};
use std::alloc::{AllocError, Allocator};

/// The lines of the differences between lists and a database, and of what cannot be compared.
pub(crate) fn against_lines<A: Allocator + Copy>(
    alloc: A,
    names: &[&str],
    lists: &[PrintedList<A>],
    database: &Database<A>,
) -> Result<String<A>, AllocError>
    ensures { IfOk result (λ lines. HaveListTexts (lists_of database.now)
        (zip (map (λ name. name.now) names.now) lists.now) (string_bytes lines)) }
{
    let mut lines = String::new(alloc);
    for (name, list) in names.iter().zip(lists) {
        let found = list_lines(alloc, *name, database, list)?;
        lines.push_str(found.as_str())?;
    }
    Ok(lines)
}
