//! Commands of `ospf-plan`.

ghost use Rattle.std.specs.Prelude.{◌≡◌, ◌++◌, ◌<◌, IfOk, OnOk, codes, option_map};
ghost use Rattle.lsdb.specs.Slots.{lists_of};
ghost use Rattle.edit_script.specs.declared.command.Command.TheVariants as command;
ghost use Rattle.network_names.specs.Names.{called};
ghost use Rattle.lsa_differences.specs.Differences.{differences};
ghost use Rattle.branches.specs.Branches.{sessions_of, stepped};
ghost use Rattle.branches.specs.Replies.{mark_of, said_by};
ghost use Rattle.study_session.specs.Contexts.{context_of};
ghost use Rattle.study_session.specs.Explained.{command_explained};
ghost use Rattle.study_session.specs.PlanAnswers.{answer_by, changed_answer, command_answer, differences_text, differing_answer, differing_text, plan_answer};
ghost use Rattle.study_session.specs.Formats.{front as front_of, in_format};

use crate::context::Context;
use crate::document::{front, said_document};
use crate::explained::command_explained;
use crate::format::Format;
use branches::{Branches, Reply, refused_commands_change_nothing, reply_text};
use edit_script::{Command, Edit};
use finding_json::push_differences;
use lsa_differences::{DifferenceLine, difference_lines};
use lsdb::Database;
use network_names::Names;
use std::alloc::{AllocError, Allocator};
use study_answers::{Answer, push_mark};
use study_text::{push_lines, push_number, push_word};

/// The answer to a command of `ospf-plan`, by its reply.
#[tactic(auto, unfolding(crate::specs::PlanAnswers::plan_answer))]
fn plan_answer<A: Allocator + Copy>(
    context: &Context<'_, '_, A>,
    reply: &Reply<A>,
) -> Result<Answer<A>, AllocError>
    ensures { IfOk result
        (λ answer. answer ≡ plan_answer (context_of context.now) (said_by reply.now)) }
{
    let (alloc, branch) = (context.alloc, context.branch);
    if let Reply::Refused(why) = reply {
        let (code, name) = why.texts();
        return Answer::refused(alloc, branch, code, name);
    }
    let text = match context.format {
        Format::Text => reply_text(alloc, branch, reply)?,
        Format::Json => said_document(context, reply)?,
    };
    Ok(Answer::accepted(alloc, text))
}

/// What stands in an answer before what an edit says that it changed.
fn done_front<A: Allocator + Copy>(context: &Context<'_, '_, A>) -> Result<Vec<u8, A>, AllocError>
    ensures { IfOk result (λ text. text.items ≡ in_format context.now.format
        (mark_of context.now.branch ++ codes "ok")
        (front_of (context_of context.now) (codes "ok"))) }
{
    match context.format {
        Format::Text => {
            let mut text = Vec::new(context.alloc);
            push_mark(&mut text, context.branch)?;
            push_word(&mut text, "ok")?;
            Ok(text)
        }
        Format::Json => front(context, "ok"),
    }
}

/// The answer to an edit that says what it changed, by its reply. What is said ends the line.
#[tactic(auto, unfolding(crate::specs::PlanAnswers::changed_answer))]
fn changed_answer<A: Allocator + Copy>(
    context: &Context<'_, '_, A>,
    change: &[u8],
    reply: &Reply<A>,
) -> Result<Answer<A>, AllocError>
    ensures { IfOk result
        (λ answer. answer ≡ changed_answer (context_of context.now) change.now
        (said_by reply.now)) }
{
    if let Reply::Done = reply {
        let mut text = done_front(context)?;
        text.extend_from_slice(change)?;
        return Ok(Answer::accepted(context.alloc, text));
    }
    plan_answer(context, reply)
}

/// The answer to a command by its reply, and by what an edit says that it changed, if it does.
#[tactic(auto, unfolding(crate::specs::PlanAnswers::answer_by))]
fn answer_by<A: Allocator + Copy>(
    context: &Context<'_, '_, A>,
    change: Option<Vec<u8, A>>,
    reply: &Reply<A>,
) -> Result<Answer<A>, AllocError>
    ensures { IfOk result (λ answer. answer ≡ answer_by (context_of context.now)
        (option_map (λ text. text.items) change) (said_by reply.now)) }
{
    match change {
        Some(change) => changed_answer(context, &change, reply),
        None => plan_answer(context, reply),
    }
}

/// The answer to a command that was carried out, with a hint where it is refused. All sessions
/// stay.
fn replied<A: Allocator + Copy>(
    branches: &mut Branches<A>,
    context: &Context<'_, '_, A>,
    command: &Command,
    change: Option<Vec<u8, A>>,
    reply: &Reply<A>,
) -> Result<Answer<A>, AllocError>
    requires { context.now.branch < 8 }
    ensures answer { IfOk result (λ answer. answer ≡ command_explained (context_of context.now)
        (sessions_of branches.old context.now.branch) command.now (said_by reply.now)
        (answer_by (context_of context.now) (option_map (λ text. text.items) change)
        (said_by reply.now))) }
    ensures kept { sessions_of branches.new ≡ sessions_of branches.old }
{
    let answer = answer_by(context, change, reply)?;
    command_explained(branches, context, command, reply, answer)
}

/// Carries out a command of `ospf-plan` in a branch. An edit may say what it changed.
pub(crate) fn plan<A: Allocator + Copy>(
    branches: &mut Branches<A>,
    context: &Context<'_, '_, A>,
    command: &Command,
    change: Option<Vec<u8, A>>,
) -> Result<Answer<A>, AllocError>
    requires { context.now.branch < 8 }
    ensures answer { IfOk result (λ answer. answer ≡ command_answer (context_of context.now)
        (sessions_of branches.old context.now.branch) command.now
        (option_map (λ text. text.items) change)) }
    ensures sessions { OnOk result (sessions_of branches.new
        ≡ stepped context.now.branch command.now (sessions_of branches.old)) }
{
    let reply = branches.step(context.branch, command)?;
    refused_commands_change_nothing();
    replied(branches, context, command, change, &reply)
}

/// Adds ` N`, and a line for each thing that differs.
fn push_differing<A: Allocator + Copy>(
    text: &mut Vec<u8, A>,
    names: &Names<'_, A>,
    lines: &[DifferenceLine],
) -> Result<(), AllocError>
    ensures { OnOk result (text.new.items
        ≡ text.old.items ++ differences_text (called names.now) lines.now) }
{
    push_word(text, " ")?;
    push_number(text, lines.len() as u64)?;
    push_word(text, "\n")?;
    push_lines(text, names, lines)
}

/// How a database differs from that before an edit.
#[tactic(auto, unfolding(crate::specs::PlanAnswers::differing_text))]
fn differing_text<A: Allocator + Copy>(
    context: &Context<'_, '_, A>,
    before: &Database<A>,
    now: &Database<A>,
) -> Result<Vec<u8, A>, AllocError>
    ensures { IfOk result (λ text. text.items ≡ differing_text (context_of context.now)
        (differences (lists_of before.now) (lists_of now.now))) }
{
    let lines = difference_lines(context.alloc, before, now)?;
    let mut text = Vec::new(context.alloc);
    match context.format {
        Format::Text => push_differing(&mut text, context.names, &lines)?,
        Format::Json => push_differences(&mut text, &lines)?,
    }
    Ok(text)
}

/// Carries out an edit in a branch, and says how the database differs from that before it.
pub(crate) fn differing<A: Allocator + Copy>(
    branches: &mut Branches<A>,
    context: &Context<'_, '_, A>,
    edit: Edit,
) -> Result<Answer<A>, AllocError>
    requires { context.now.branch < 8 }
    ensures answer { IfOk result (λ answer. answer ≡ differing_answer (context_of context.now)
        (sessions_of branches.old context.now.branch) (command.Edit edit)) }
    ensures sessions { OnOk result (sessions_of branches.new
        ≡ stepped context.now.branch (command.Edit edit) (sessions_of branches.old)) }
{
    let command = Command::Edit(edit);
    branches.prepare(context.branch)?;
    let before = branches.planner(context.branch).database().clone_of()?;
    let reply = branches.step(context.branch, &command)?;
    branches.prepare(context.branch)?;
    let now = branches.planner(context.branch).database();
    let change = differing_text(context, &before, now)?;
    refused_commands_change_nothing();
    replied(branches, context, &command, Some(change), &reply)
}
