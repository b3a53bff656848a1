//! What holds of the branches of a run.

ghost use Rattle.std.specs.Prelude.{◌≡◌, ℕ, List, Ok};
ghost use Rattle.edit_history.specs.Session.{NoneRefused, Session};
ghost use Rattle.saved_sessions.specs.Opening.{opened};
ghost use Rattle.saved_sessions.specs.Saved.{HasNoEvents};
ghost use Rattle.branches.specs.Branches.{Sessions, resumed};
ghost use Rattle.whole_run.specs.Run.{answers, sessions_after};
ghost use Rattle.whole_run.specs.Alone.{answers_in, lines_in, commands_in, after_all};

use branches::{branches_have_no_events, branches_refuse_no_edit};
use edit_script::reads_what_is_said;

/// However the lines of branches are interleaved, the lines of one branch are answered as they are
/// without the others, and its session is the one that its own commands lead to from where the
/// branch was.
pub fn branches_are_apart()
    ensures answers { (all : Sessions) (lines : List (List ℕ)) (branch : ℕ)
        → answers_in branch all lines ≡ answers all (lines_in branch lines) }
    ensures session { (all : Sessions) (lines : List (List ℕ)) (branch : ℕ)
        → sessions_after all lines branch ≡ after_all (all branch) (commands_in branch lines) }
{}

/// Whatever lines are carried out on an opened dump, no edit of a branch is refused on the way:
/// each done edit is accepted after those before it, from the base on, and each undone one after
/// these. So it is in each branch at each moment of a run.
pub fn runs_refuse_no_edit()
    ensures { (dump : List ℕ) (s : Session) (lines : List (List ℕ)) (branch : ℕ)
        → opened dump ≡ Ok s → NoneRefused (sessions_after (resumed s) lines branch) }
{
    branches_refuse_no_edit();
}

/// Whatever lines are carried out on an opened dump, no edit of a branch is an event: `save` writes
/// bytes that open as the session that they were made of. So it is in each branch at each moment
/// of a run.
pub fn runs_have_no_events()
    ensures { (dump : List ℕ) (s : Session) (lines : List (List ℕ)) (branch : ℕ)
        → opened dump ≡ Ok s → HasNoEvents (sessions_after (resumed s) lines branch) }
{
    branches_have_no_events();
    reads_what_is_said();
}
