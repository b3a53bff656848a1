//! What holds of the lines of failures.

ghost use Rattle.std.specs.Prelude.{◌≡◌, ◌++◌, List};
ghost use Rattle.lsdb.specs.Lists.{Lists};
ghost use Rattle.edit_script.specs.declared.edit.Edit.{Edit};
ghost use Rattle.sweep_report.specs.declared.outcome.FailureLine.{FailureLine};
ghost use Rattle.sweep_report.specs.Sweeps.{AreLines};

/// The failures have one list of lines: each count is determined by the database and the edit.
pub fn lines_are_determined()
    ensures { (db : Lists) (edits : List Edit) (lines others : List FailureLine)
        → AreLines db edits lines → AreLines db edits others → lines ≡ others }
{}

/// The lines of some failures, and those of others after them, are the lines of all.
pub fn lines_join()
    ensures { (db : Lists) (edits more : List Edit) (lines others : List FailureLine)
        → AreLines db edits lines → AreLines db more others
        → AreLines db (edits ++ more) (lines ++ others) }
{}
