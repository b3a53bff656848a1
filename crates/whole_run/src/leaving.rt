//! What a run leaves: the dump and the session of branch 0, where they are asked for.

ghost use Rattle.std.specs.Prelude.{◌≡◌, true, IfOk};
ghost use Rattle.lsdb.specs.Text.{text};
ghost use Rattle.edit_history.specs.Session.{state};
ghost use Rattle.saved_sessions.specs.Saved.{saved_text};
ghost use Rattle.branches.specs.Branches.{sessions_of};
ghost use Rattle.whole_run.specs.steps.Leaving.{HasTexts};

use branches::Branches;
use std::alloc::{AllocError, Allocator, Global};

/// The texts that a run is asked for beside its replies.
#[derive(Clone, Copy, Debug, PartialEq, Eq)]
pub(crate) struct Wanted {
    /// Whether the dump of branch 0 is written.
    pub(crate) dump: bool,
    /// Whether the session of branch 0 is saved.
    pub(crate) session: bool,
}

/// The texts of what a script leaves. One that is not wanted is empty.
#[derive(Drop)]
pub(crate) struct Left<A: Allocator = Global> {
    /// The dump of branch 0.
    pub(crate) dump: Vec<u8, A>,
    /// The session of branch 0, as it is saved.
    pub(crate) session: Vec<u8, A>,
}

/// The dump of branch 0, where it is wanted.
fn dump_left<A: Allocator + Copy>(
    alloc: A,
    branches: &mut Branches<A>,
    is_wanted: bool,
) -> Result<Vec<u8, A>, AllocError>
    ensures dump { is_wanted ≡ true → IfOk result
        (λ dump. dump.items ≡ text (state (sessions_of branches.old 0))) }
    ensures kept { branches.new ≡ branches.old }
{
    if is_wanted {
        branches.dump(0)
    } else {
        Ok(Vec::new(alloc))
    }
}

/// The session of branch 0 as it is saved, where it is wanted.
fn session_left<A: Allocator + Copy>(
    alloc: A,
    branches: &mut Branches<A>,
    is_wanted: bool,
) -> Result<Vec<u8, A>, AllocError>
    ensures session { is_wanted ≡ true → IfOk result
        (λ bytes. bytes.items ≡ saved_text (sessions_of branches.old 0)) }
    ensures kept { branches.new ≡ branches.old }
{
    if is_wanted {
        branches.save()
    } else {
        Ok(Vec::new(alloc))
    }
}

/// The texts of what the branches of a run are left with.
pub(crate) fn texts_left<A: Allocator + Copy>(
    alloc: A,
    branches: &mut Branches<A>,
    wanted: Wanted,
) -> Result<Left<A>, AllocError>
    ensures { IfOk result (λ left. HasTexts wanted left
        (text (state (sessions_of branches.old 0))) (saved_text (sessions_of branches.old 0))) }
{
    Ok(Left {
        dump: dump_left(alloc, branches, wanted.dump)?,
        session: session_left(alloc, branches, wanted.session)?,
    })
}
