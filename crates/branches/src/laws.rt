//! What holds of the commands.

ghost use Rattle.std.specs.Prelude.{◌≡◌, ℕ, List, Ok, true};
ghost use Rattle.lsdb.specs.Lists.{Lists};
ghost use Rattle.edit_script.specs.declared.command.Command.{Command};
ghost use Rattle.edit_history.specs.Session.{NoneRefused, Session};
ghost use Rattle.edit_script.specs.Spelling.{IsInRange};
ghost use Rattle.saved_sessions.specs.Opening.{opened};
ghost use Rattle.saved_sessions.specs.Saved.{HasNoEvents};
ghost use Rattle.branches.specs.Branches.{Sessions, all_begin, resumed, with_session};
ghost use Rattle.branches.specs.Replies.{reply_to, after, is_refusal};

use edit_history::no_edit_is_refused;
use saved_sessions::{opened_sessions_have_no_events, opened_sessions_refuse_no_edit};

/// A refused command leaves the session as it was: its database, and the edits done and undone.
pub fn refused_commands_change_nothing()
    ensures { (s : Session) (c : Command) → is_refusal (reply_to s c) ≡ true → after s c ≡ s }
{}

/// No edit of a branch is refused on the way: each done edit is accepted after those before it,
/// from the base on, and each undone one after these. This holds in each branch where branches
/// begin at a database or an opened session, and it stays so in each with every command.
pub fn branches_refuse_no_edit()
    ensures begin { (base : Lists) (branch : ℕ) → NoneRefused (all_begin base branch) }
    ensures resumed { (bytes : List ℕ) (s : Session) (branch : ℕ) → opened bytes ≡ Ok s
        → NoneRefused (resumed s branch) }
    ensures command { (s : Session) (c : Command) → NoneRefused s → NoneRefused (after s c) }
    ensures step { (all : Sessions) (branch : ℕ) (c : Command)
        → ((other : ℕ) → NoneRefused (all other))
        → (other : ℕ) → NoneRefused (with_session branch (after (all branch) c) all other) }
{
    no_edit_is_refused();
    opened_sessions_refuse_no_edit();
}

/// No edit of a branch is an event, so that its session is saved as bytes that open again. This
/// holds in each branch where branches begin at a database or an opened session, and it stays so
/// in each with every command that a line of a script means.
pub fn branches_have_no_events()
    ensures begin { (base : Lists) (branch : ℕ) → HasNoEvents (all_begin base branch) }
    ensures resumed { (bytes : List ℕ) (s : Session) (branch : ℕ) → opened bytes ≡ Ok s
        → HasNoEvents (resumed s branch) }
    ensures command { (s : Session) (c : Command) → IsInRange c → HasNoEvents s
        → HasNoEvents (after s c) }
    ensures step { (all : Sessions) (branch : ℕ) (c : Command) → IsInRange c
        → ((other : ℕ) → HasNoEvents (all other))
        → (other : ℕ) → HasNoEvents (with_session branch (after (all branch) c) all other) }
{
    opened_sessions_have_no_events();
}
