//! What may loop while routers change over the last edits.

ghost use Rattle.std.specs.Prelude.{◌≡◌, ◌<◌, IfOk, option_map};
ghost use Rattle.edit_history.specs.Session.{state};
ghost use Rattle.branches.specs.Branches.{before_last, sessions_of};
ghost use Rattle.study_answers.specs.Microloops.{AreMicroloops};

use branches::Branches;
use loop_report::{PrefixLoop, joint_loops};
use spf::Meter;
use std::alloc::{AllocError, Allocator};

/// What may loop while routers change over the last edits of a branch; `None` where fewer are done.
/// All sessions stay.
///
/// # Errors
///
/// Memory ran out.
pub fn microloops_of<A: Allocator + Copy>(
    alloc: A,
    branches: &mut Branches<A>,
    branch: u8,
    count: u32,
) -> Result<Option<Vec<PrefixLoop<A>, A>>, AllocError>
    requires { branch < 8 }
    ensures loops { IfOk result (λ loops. AreMicroloops
        (state (sessions_of branches.old branch))
        (before_last count (sessions_of branches.old branch))
        (option_map (λ found. found.items) loops)) }
    ensures kept { sessions_of branches.new ≡ sessions_of branches.old }
{
    let Some(before) = branches.before_last(branch, count)? else {
        return Ok(None);
    };
    branches.prepare(branch)?;
    let now = branches.planner(branch).database();
    let loops = joint_loops(alloc, &before, now, &mut Meter::new())?;
    Ok(Some(loops))
}
