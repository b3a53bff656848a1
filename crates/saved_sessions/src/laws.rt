//! Laws of saved sessions, and of the lines of their edits.

ghost use Rattle.std.specs.Prelude.{◌≡◌, ◌≤◌, ◌+◌, ◌*◌, ◌++◌, ℕ, List, Some, Ok, length, drop};
ghost use Rattle.edit_script.specs.declared.edit.Edit.{Edit};
ghost use Rattle.edit_script.specs.Spelling.{IsScripted};
ghost use Rattle.lsdb.specs.Limits.{longest_dump, longest_session};
ghost use Rattle.lsdb.specs.Lists.{Lists, IsDatabase};
ghost use Rattle.lsdb.specs.Text.{text};
ghost use Rattle.edit_history.specs.Session.{NoneRefused, Session, start};
ghost use Rattle.saved_sessions.specs.Lines.{line_of, longest_line, edit_line};
ghost use Rattle.saved_sessions.specs.Opening.{opened};
ghost use Rattle.saved_sessions.specs.Saved.{CanBeSaved, HasNoEvents, saved_text};
ghost use Rattle.saved_sessions.specs.Text.{session_text, IsHistory};

use edit_history::no_edit_is_refused;
use edit_script::{reads_back, reads_what_is_said, spelled_on_one_line};
use lsdb::{base_laws, text_laws};

/// Laws of the line of an edit: it is read as that edit, whatever follows it, and nothing else is
/// read as an edit.
///
/// The function does nothing: its contract is the law.
pub fn line_laws()
    ensures again { (edit : Edit) (rest : List ℕ) → IsScripted edit
        → edit_line (line_of edit ++ rest) ≡ Some (edit, length (line_of edit)) }
    ensures spelled { (bytes : List ℕ) (edit : Edit) (byte_count : ℕ)
        → edit_line bytes ≡ Some (edit, byte_count)
        → IsScripted edit × (byte_count ≡ length (line_of edit))
        × (bytes ≡ line_of edit ++ drop byte_count bytes) }
    ensures short { (edit : Edit) → IsScripted edit
        → length (line_of edit) ≤ longest_line }
{
    reads_back();
    reads_what_is_said();
    spelled_on_one_line();
}

/// Different sessions have different dumps, and the dump of a session with few edits is short.
///
/// The function does nothing: its contract is the law.
pub fn session_laws()
    ensures one_text { (a b : Lists) (done undone again back : List Edit)
        → IsDatabase a → IsDatabase b → IsHistory done undone → IsHistory again back
        → length (session_text a done undone) ≤ longest_session
        → session_text a done undone ≡ session_text b again back
        → (a ≡ b) × (done ≡ again) × (undone ≡ back) }
    ensures short { (base : Lists) (done undone : List Edit) → IsDatabase base
        → IsHistory done undone
        → length (session_text base done undone)
        ≤ longest_dump + 4 + longest_line * (length done + length undone) }
{
    base_laws();
    line_laws();
}

/// A session that is saved is opened again as it was, and so is the dump of a database. Different
/// sessions are saved as different bytes.
///
/// The function does nothing: its contract is the law.
pub fn sessions_open_again()
    ensures session { (s : Session) → CanBeSaved s → opened (saved_text s) ≡ Ok s }
    ensures dump { (db : Lists) → IsDatabase db → opened (text db) ≡ Ok (start db) }
    ensures one_text { (s t : Session) → CanBeSaved s → CanBeSaved t
        → saved_text s ≡ saved_text t → s ≡ t }
{
    base_laws();
    text_laws();
    line_laws();
    session_laws();
}

/// No edit of an opened session is refused on the way: each done edit is accepted after those
/// before it, from the base on, and each undone one after these.
///
/// The function does nothing: its contract is the law.
pub fn opened_sessions_refuse_no_edit()
    ensures { (bytes : List ℕ) (s : Session) → opened bytes ≡ Ok s → NoneRefused s }
{
    no_edit_is_refused();
    line_laws();
}

/// No edit of an opened session is an event: each is what a line of a script means.
///
/// The function does nothing: its contract is the law.
pub fn opened_sessions_have_no_events()
    ensures { (bytes : List ℕ) (s : Session) → opened bytes ≡ Ok s → HasNoEvents s }
{
    line_laws();
}
