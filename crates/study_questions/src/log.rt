//! The edits that are done.

ghost use Rattle.std.specs.Prelude.{◌≡◌, ◌++◌, IfOk, OnOk};
ghost use Rattle.edit_history.specs.Session.{edits_of};
ghost use Rattle.saved_sessions.specs.Lines.{lines_of};
ghost use Rattle.study_questions.specs.OwnAnswers.{log_answer};

use crate::text::{head, push_number_after};
use edit_history::Record;
use recalculate::Planner;
use saved_sessions::put_line;
use std::alloc::{AllocError, Allocator};
use study_answers::Answer;
use study_text::push_word;
use study_words::SeeWord;

/// Adds the lines of the edits of records.
fn push_edits<A: Allocator + Copy>(
    alloc: A,
    text: &mut Vec<u8, A>,
    records: &[Record<A>],
) -> Result<(), AllocError>
    ensures { OnOk result
        (text.new.items ≡ text.old.items ++ lines_of (edits_of records.now)) }
{
    for record in records {
        put_line(alloc, text, &record.edit())?;
    }
    Ok(())
}

/// The records of the edits that are done.
#[tactic(auto, using(crate::proofs::Logged::enough, crate::proofs::Logged::first_done))]
pub fn done_records<A: Allocator + Copy>(planner: &Planner<A>) -> &[Record<A>]
    ensures { edits_of result.now ≡ planner.now.session.done }
{
    &planner.records()[..planner.done()]
}

/// The answer to `log`.
#[tactic(auto, unfolding(crate::specs::OwnAnswers::log_answer))]
pub(crate) fn log<A: Allocator + Copy>(
    alloc: A,
    branch: u8,
    planner: &Planner<A>,
) -> Result<Answer<A>, AllocError>
    ensures { IfOk result (λ answer. answer ≡ log_answer branch planner.now.session) }
{
    let mut text = head(alloc, branch, SeeWord::Log)?;
    push_number_after(&mut text, planner.done() as u64)?;
    push_word(&mut text, "\n")?;
    push_edits(alloc, &mut text, done_records(planner))?;
    Ok(Answer::accepted(alloc, text))
}
