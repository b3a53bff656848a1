//! Laws of studies.

ghost use Rattle.std.specs.Prelude.{◌≡◌, ℕ, List, Option, Ok, Some, false};
ghost use Rattle.edit_script.specs.declared.command.Command.{Command as AnyCommand};
ghost use Rattle.edit_script.specs.Line.{meaning as plan_meaning};
ghost use Rattle.branches.specs.Branches.{stepped};
ghost use Rattle.branches.specs.Replies.{reply_text, reply_to};
ghost use Rattle.study_answers.specs.Answers.{AnswerValue};
ghost use Rattle.study_session.specs.Studies.{Study};
ghost use Rattle.study_session.specs.Lines.{IsAnswerTo, after_line};

use crate::format::Format;
use edit_script::reads_what_is_said;
use study_script::plan_lines_mean_the_same;

/// A line that `ospf-plan` takes has the reply that it gives, unless edits say what they changed or
/// documents are wanted, and leaves the sessions that it leaves.
///
/// The function does nothing: its contract is the law.
pub fn plan_lines_are_answered_alike()
    ensures text { (s : Study) (line : List ℕ) (branch : ℕ) (c : AnyCommand) (answer : AnswerValue)
        → s.is_verbose ≡ false → s.format ≡ Format.Text → plan_meaning line ≡ Ok (branch, c)
        → IsAnswerTo s line (Some answer)
        → answer.text ≡ reply_text branch (reply_to (s.sessions branch) c) }
    ensures sessions { (s : Study) (line : List ℕ) (branch : ℕ) (c : AnyCommand)
        → plan_meaning line ≡ Ok (branch, c)
        → (after_line s line).sessions ≡ stepped branch c s.sessions }
{
    plan_lines_mean_the_same();
    reads_what_is_said();
}
