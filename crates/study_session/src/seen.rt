//! What questions are answered.

ghost use Rattle.std.specs.Prelude.{◌≡◌, ◌<◌, IfOk};
ghost use Rattle.branches.specs.Branches.{sessions_of};
ghost use Rattle.document_answers.specs.Documented.{documented};
ghost use Rattle.refusal_hints.specs.QuestionHints.{question_hint};
ghost use Rattle.study_answers.specs.Answers.{refused_answer};
ghost use Rattle.study_session.specs.Contexts.{context_of, situation};
ghost use Rattle.study_session.specs.Explained.{refused_with};
ghost use Rattle.study_session.specs.Seen.{IsSeenAs, IsSeenDocument, IsSeenText, documented_answer};

use crate::context::Context;
use crate::document::document;
use crate::explained::{question_explained, refused_with};
use crate::format::Format;
use branches::Branches;
use document_answers::{Documented, question_document};
use recalculate::Planner;
use refusal_hints::question_hint;
use std::alloc::{AllocError, Allocator};
use study_answers::Answer;
use study_questions::question;
use study_script::Question;

/// Answers a question with a text.
fn seen_text<A: Allocator + Copy>(
    branches: &mut Branches<A>,
    context: &Context<'_, '_, A>,
    asked: &Question,
) -> Result<Answer<A>, AllocError>
    requires { context.now.branch < 8 }
    ensures answer { IfOk result (IsSeenText (context_of context.now)
        (sessions_of branches.old context.now.branch) asked.now) }
    ensures kept { sessions_of branches.new ≡ sessions_of branches.old }
{
    let (baseline, names, branch) = (context.baseline, context.names, context.branch);
    let answer = question(context.alloc, branches, baseline, names, branch, asked)?;
    question_explained(branches, context, asked, answer)
}

/// The answer to a question that is refused where the branch has this planner, for a code and its
/// name.
fn refused_at<A: Allocator + Copy>(
    context: &Context<'_, '_, A>,
    planner: &Planner<A>,
    asked: &Question,
    texts: (&str, &str),
) -> Result<Answer<A>, AllocError>
    ensures { IfOk result (λ answer. answer
        ≡ refused_with (context_of context.now) (texts.entry.0.now, texts.entry.1.now)
        (question_hint (situation (context_of context.now) planner.now.session)
        (context_of context.now).words asked.now)
        (refused_answer context.now.branch (texts.entry.0.now, texts.entry.1.now))) }
{
    let answer = Answer::refused(context.alloc, context.branch, texts.0, texts.1)?;
    let situation = context.situation(planner);
    let hint = question_hint(context.alloc, &situation, context.line, asked)?;
    refused_with(context, texts, answer, &hint)
}

/// The answer to a question that is refused, for a code and its name. All sessions stay.
fn refused<A: Allocator + Copy>(
    branches: &mut Branches<A>,
    context: &Context<'_, '_, A>,
    asked: &Question,
    texts: (&str, &str),
) -> Result<Answer<A>, AllocError>
    requires { context.now.branch < 8 }
    ensures answer { IfOk result (λ answer. answer
        ≡ refused_with (context_of context.now) (texts.entry.0.now, texts.entry.1.now)
        (question_hint
        (situation (context_of context.now) (sessions_of branches.old context.now.branch))
        (context_of context.now).words asked.now)
        (refused_answer context.now.branch (texts.entry.0.now, texts.entry.1.now))) }
    ensures kept { sessions_of branches.new ≡ sessions_of branches.old }
{
    branches.prepare(context.branch)?;
    let planner = branches.planner(context.branch);
    refused_at(context, planner, asked, texts)
}

/// The answer to a question, by what its document says. All sessions stay.
#[tactic(auto, unfolding(crate::specs::Seen::documented_answer))]
fn documented_answer<A: Allocator + Copy>(
    branches: &mut Branches<A>,
    context: &Context<'_, '_, A>,
    asked: &Question,
    given: &Documented<A>,
) -> Result<Answer<A>, AllocError>
    requires { context.now.branch < 8 }
    ensures answer { IfOk result (λ answer. answer ≡ documented_answer (context_of context.now)
        (sessions_of branches.old context.now.branch) asked.now (documented given.now)) }
    ensures kept { sessions_of branches.new ≡ sessions_of branches.old }
{
    match given {
        Documented::Members(members) => {
            let text = document(context, "reply", members)?;
            Ok(Answer::accepted(context.alloc, text))
        }
        Documented::NoRouter => refused(branches, context, asked, ("N1", "NoRouter")),
        Documented::TooFewDone => refused(branches, context, asked, ("U1", "NothingToUndo")),
        Documented::NoArea => refused(branches, context, asked, ("E1", "NoArea")),
    }
}

/// Answers a question with a document.
fn seen_document<A: Allocator + Copy>(
    branches: &mut Branches<A>,
    context: &Context<'_, '_, A>,
    asked: &Question,
) -> Result<Answer<A>, AllocError>
    requires { context.now.branch < 8 }
    ensures answer { IfOk result (IsSeenDocument (context_of context.now)
        (sessions_of branches.old context.now.branch) asked.now) }
    ensures kept { sessions_of branches.new ≡ sessions_of branches.old }
{
    let (baseline, names, branch) = (context.baseline, context.names, context.branch);
    let given = question_document(context.alloc, branches, baseline, names, branch, asked)?;
    documented_answer(branches, context, asked, &given)
}

/// Answers a question. All sessions stay.
pub(crate) fn seen<A: Allocator + Copy>(
    branches: &mut Branches<A>,
    context: &Context<'_, '_, A>,
    asked: &Question,
) -> Result<Answer<A>, AllocError>
    requires { context.now.branch < 8 }
    ensures answer { IfOk result (IsSeenAs (context_of context.now)
        (sessions_of branches.old context.now.branch) context.now.format asked.now) }
    ensures kept { sessions_of branches.new ≡ sessions_of branches.old }
{
    match context.format {
        Format::Text => seen_text(branches, context, asked),
        Format::Json => seen_document(branches, context, asked),
    }
}
