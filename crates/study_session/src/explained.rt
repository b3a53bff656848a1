//! What is said of a line that is refused.

ghost use Rattle.std.specs.Prelude.{◌≡◌, ◌<◌, IfOk};
ghost use Rattle.branches.specs.Branches.{sessions_of};
ghost use Rattle.branches.specs.Replies.{refusal_texts, said_by};
ghost use Rattle.study_script.specs.Expected.{expected};
ghost use Rattle.refusal_hints.specs.CommandHints.{command_hint};
ghost use Rattle.refusal_hints.specs.ExpectationHints.{expectation_hint};
ghost use Rattle.refusal_hints.specs.QuestionHints.{question_hint};
ghost use Rattle.study_session.specs.Contexts.{context_of, situation};
ghost use Rattle.study_session.specs.Explained.{command_explained, edit_fault, explained, refused_with, with_hint};

use crate::context::Context;
use crate::document::refused_document;
use crate::format::Format;
use branches::{Branches, Refusal, Reply};
use edit_history::EditFault;
use edit_script::Command;
use recalculate::Planner;
use refusal_hints::{Hint, command_hint, expectation_hint, push_hint, question_hint};
use std::alloc::{AllocError, Allocator};
use study_answers::{Answer, Outcome};
use study_script::{Condition, Question};

/// The answer to a line that is refused, with the word at fault and what would have been right.
#[tactic(auto, unfolding(crate::specs::Explained::with_hint))]
pub(crate) fn with_hint<A: Allocator + Copy>(
    mut answer: Answer<A>,
    hint: &Hint<'_, A>,
) -> Result<Answer<A>, AllocError>
    ensures { IfOk result (λ it. it ≡ with_hint hint.now answer) }
{
    push_hint(&mut answer.error, hint)?;
    Ok(answer)
}

/// The same in the form of the answers, for a code and its name.
#[tactic(auto, unfolding(crate::specs::Explained::refused_with, crate::specs::Explained::with_hint))]
pub(crate) fn refused_with<A: Allocator + Copy>(
    context: &Context<'_, '_, A>,
    texts: (&str, &str),
    answer: Answer<A>,
    hint: &Hint<'_, A>,
) -> Result<Answer<A>, AllocError>
    ensures { IfOk result (λ it. it
        ≡ refused_with (context_of context.now) (texts.entry.0.now, texts.entry.1.now) hint.now
        answer) }
{
    let mut answer = with_hint(answer, hint)?;
    match context.format {
        Format::Text => Ok(answer),
        Format::Json => {
            answer.text = refused_document(context, texts, hint)?;
            Ok(answer)
        }
    }
}

/// The reason of a refusal, where an edit is refused.
fn edit_fault(why: Refusal) -> Option<EditFault>
    ensures { result ≡ edit_fault why }
{
    match why {
        Refusal::Edit(fault) => Some(fault),
        Refusal::Undo(_) | Refusal::Redo(_) | Refusal::Table(_) => None,
    }
}

/// The answer to a command that is refused where the branch has this planner, with a hint.
fn command_refused<A: Allocator + Copy>(
    context: &Context<'_, '_, A>,
    planner: &Planner<A>,
    command: &Command,
    why: Refusal,
    answer: Answer<A>,
) -> Result<Answer<A>, AllocError>
    ensures { IfOk result (λ it. it ≡ refused_with (context_of context.now) (refusal_texts why)
        (command_hint (situation (context_of context.now) planner.now.session)
        (context_of context.now).words command.now (edit_fault why)) answer) }
{
    let situation = context.situation(planner);
    let fault = edit_fault(why);
    let hint = command_hint(context.alloc, &situation, context.line, command, fault)?;
    refused_with(context, why.texts(), answer, &hint)
}

/// The answer to a command, where it is refused, with a hint. All sessions stay.
#[tactic(auto, unfolding(crate::specs::Explained::command_explained))]
pub(crate) fn command_explained<A: Allocator + Copy>(
    branches: &mut Branches<A>,
    context: &Context<'_, '_, A>,
    command: &Command,
    reply: &Reply<A>,
    answer: Answer<A>,
) -> Result<Answer<A>, AllocError>
    requires { context.now.branch < 8 }
    ensures answer { IfOk result (λ it. it ≡ command_explained (context_of context.now)
        (sessions_of branches.old context.now.branch) command.now (said_by reply.now) answer) }
    ensures kept { sessions_of branches.new ≡ sessions_of branches.old }
{
    let Reply::Refused(why) = reply else {
        return Ok(answer);
    };
    branches.prepare(context.branch)?;
    let planner = branches.planner(context.branch);
    command_refused(context, planner, command, *why, answer)
}

/// The answer to a question, where it is refused, with a hint. All sessions stay.
#[tactic(auto, unfolding(crate::specs::Explained::explained))]
pub(crate) fn question_explained<A: Allocator + Copy>(
    branches: &mut Branches<A>,
    context: &Context<'_, '_, A>,
    question: &Question,
    answer: Answer<A>,
) -> Result<Answer<A>, AllocError>
    requires { context.now.branch < 8 }
    ensures answer { IfOk result (λ it. it ≡ explained (question_hint
        (situation (context_of context.now) (sessions_of branches.old context.now.branch))
        (context_of context.now).words question.now) answer) }
    ensures kept { sessions_of branches.new ≡ sessions_of branches.old }
{
    match answer.outcome {
        Outcome::Accepted | Outcome::Failed => Ok(answer),
        Outcome::Refused => {
            branches.prepare(context.branch)?;
            let situation = context.situation(branches.planner(context.branch));
            let hint = question_hint(context.alloc, &situation, context.line, question)?;
            with_hint(answer, &hint)
        }
    }
}

/// The answer to an expectation, where it is refused, with a hint. All sessions stay.
#[tactic(auto, unfolding(crate::specs::Explained::explained))]
pub(crate) fn expectation_explained<A: Allocator + Copy>(
    branches: &mut Branches<A>,
    context: &Context<'_, '_, A>,
    condition: &Condition<A>,
    answer: Answer<A>,
) -> Result<Answer<A>, AllocError>
    requires { context.now.branch < 8 }
    ensures answer { IfOk result (λ it. it ≡ explained (expectation_hint
        (situation (context_of context.now) (sessions_of branches.old context.now.branch))
        (context_of context.now).lookup (context_of context.now).words
        (expected condition.now)) answer) }
    ensures kept { sessions_of branches.new ≡ sessions_of branches.old }
{
    match answer.outcome {
        Outcome::Accepted | Outcome::Failed => Ok(answer),
        Outcome::Refused => {
            branches.prepare(context.branch)?;
            let situation = context.situation(branches.planner(context.branch));
            let (names, line) = (context.names, context.line);
            let hint = expectation_hint(context.alloc, &situation, names, line, condition)?;
            with_hint(answer, &hint)
        }
    }
}
