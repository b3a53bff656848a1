//! The database that was loaded.

ghost use Rattle.std.specs.Prelude.{◌≡◌, ◌<◌, IfOk};
ghost use Rattle.lsdb.specs.Slots.{lists_of};
ghost use Rattle.branches.specs.Branches.{sessions_of};

use branches::Branches;
use lsdb::Database;
use std::alloc::{AllocError, Allocator};

/// A copy of the database that the session of a branch began at. All sessions stay.
///
/// # Errors
///
/// Memory ran out.
pub fn loaded_of<A: Allocator + Copy>(
    branches: &mut Branches<A>,
    branch: u8,
) -> Result<Database<A>, AllocError>
    requires { branch < 8 }
    ensures database { IfOk result
        (λ database. lists_of database ≡ (sessions_of branches.old branch).base) }
    ensures kept { sessions_of branches.new ≡ sessions_of branches.old }
{
    branches.prepare(branch)?;
    let planner = branches.planner(branch);
    // For the number of edits: there are at most 10,000.
    let _ = planner.records();
    let done = planner.done() as u32;
    match branches.before_last(branch, done)? {
        Some(loaded) => Ok(loaded),
        None => unreachable!(),
    }
}
