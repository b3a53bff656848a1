//! Documents that answer lines, after their places.

ghost use Rattle.std.specs.Prelude.{◌≡◌, ◌++◌, IfOk, OnOk, codes};
ghost use Rattle.branches.specs.Replies.{said_by};
ghost use Rattle.network_names.specs.Names.{names_of, stands_for};
ghost use Rattle.edit_script.specs.Words.{words};
ghost use Rattle.study_arguments.specs.Fault.{fault_at};
ghost use Rattle.study_hints.specs.Hints.{command_at, hint};
ghost use Rattle.study_hints.specs.Escaped.{escaped};
ghost use Rattle.json.specs.Json.{string};
ghost use Rattle.study_json.specs.Fields.{more_text};
ghost use Rattle.study_documents.specs.Documents.{next_text};
ghost use Rattle.study_documents.specs.Outcomes.{fault_reply};
ghost use Rattle.study_arguments.specs.Fault.{code_of, name_of};
ghost use Rattle.study_session.specs.Contexts.{context_of};
ghost use Rattle.study_session.specs.Formats.{document, front, refused_document};
ghost use Rattle.study_session.specs.PlanAnswers.{became, said_fields};

use crate::context::Context;
use branches::Reply;
use network_names::Names;
use refusal_hints::Hint;
use std::alloc::{AllocError, Allocator};
use study_arguments::Fault;
use study_documents::{
    push_compare, push_fault, push_faulty, push_front, push_hint, push_info, push_listing,
    push_table, route_changes,
};
use study_hints::{push_escaped, push_fault_hint};
use study_text::push_word;

/// What stands before the members of a reply: the branch, the word, and what became of the line.
pub(crate) fn front<A: Allocator + Copy>(
    context: &Context<'_, '_, A>,
    became: &str,
) -> Result<Vec<u8, A>, AllocError>
    ensures { IfOk result (λ text. text.items ≡ front (context_of context.now) became.now) }
{
    let mut text = Vec::new(context.alloc);
    push_front(&mut text, context.branch, context.word(), became)?;
    Ok(text)
}

/// The same with the members of a reply after it.
pub(crate) fn document<A: Allocator + Copy>(
    context: &Context<'_, '_, A>,
    became: &str,
    members: &[u8],
) -> Result<Vec<u8, A>, AllocError>
    ensures { IfOk result (λ text. text.items
        ≡ front (context_of context.now) became.now ++ members.now) }
{
    let mut text = front(context, became)?;
    text.extend_from_slice(members)?;
    Ok(text)
}

/// The document of a line that is refused, for a code and its name, with a hint.
pub(crate) fn refused_document<A: Allocator + Copy>(
    context: &Context<'_, '_, A>,
    texts: (&str, &str),
    hint: &Hint<'_, A>,
) -> Result<Vec<u8, A>, AllocError>
    ensures { IfOk result (λ text. text.items
        ≡ refused_document (context_of context.now) (texts.entry.0.now, texts.entry.1.now)
        hint.now) }
{
    let (code, name) = texts;
    let mut at = Vec::new(context.alloc);
    push_escaped(&mut at, hint.word)?;
    let mut text = front(context, "refused")?;
    push_fault(&mut text, code, name)?;
    push_hint(&mut text, &at, &hint.text)?;
    Ok(text)
}

/// What became of a command that is not refused.
fn became<A: Allocator>(reply: &Reply<A>) -> &'static str
    ensures { result.now ≡ became (said_by reply.now) }
{
    match reply {
        Reply::Done => "ok",
        _ => "reply",
    }
}

/// Adds the members of what a command asked for.
fn push_said<A: Allocator + Copy>(
    alloc: A,
    text: &mut Vec<u8, A>,
    reply: &Reply<A>,
) -> Result<(), AllocError>
    ensures { OnOk result
        (text.new.items ≡ text.old.items ++ more_text (said_fields (said_by reply.now))) }
{
    match reply {
        Reply::Done | Reply::Refused(_) => push_word(text, "}"),
        Reply::Table(table) => push_table(text, table),
        Reply::Tables(tables) => push_listing(text, "tables", tables),
        Reply::Compare {
            router,
            before,
            now,
        } => push_compare(text, *router, &route_changes(alloc, before, now)?),
        Reply::Unchanged { router, table } => {
            push_compare(text, *router, &route_changes(alloc, table, table)?)
        }
        Reply::Info(info) => push_info(text, info),
    }
}

/// The document of a command that is not refused.
pub(crate) fn said_document<A: Allocator + Copy>(
    context: &Context<'_, '_, A>,
    reply: &Reply<A>,
) -> Result<Vec<u8, A>, AllocError>
    ensures { IfOk result (λ text. text.items ≡ document (context_of context.now)
        (became (said_by reply.now)) (said_fields (said_by reply.now))) }
{
    let mut text = front(context, became(reply))?;
    push_said(context.alloc, &mut text, reply)?;
    Ok(text)
}

/// The document of a line that has a fault.
pub(crate) fn fault_document<A: Allocator + Copy>(
    alloc: A,
    names: &Names<'_, A>,
    line: &[u8],
    fault: &Fault<'_>,
) -> Result<Vec<u8, A>, AllocError>
    ensures { IfOk result (λ text. text.items
        ≡ next_text (codes "answer") (string (codes "fault")) ++ more_text (fault_reply
        (code_of (fault_at fault.now).0, name_of (fault_at fault.now).0)
        (escaped (fault_at fault.now).1) (hint (stands_for names.now) (names_of names.now)
        (command_at (words line.now)) (fault_at fault.now)))) }
{
    let known = names.all(alloc)?;
    let (mut at, mut hint) = (Vec::new(alloc), Vec::new(alloc));
    push_escaped(&mut at, fault.word)?;
    push_fault_hint(&mut hint, names, &known, line, fault)?;
    let mut text = Vec::new(alloc);
    push_faulty(&mut text)?;
    push_fault(&mut text, fault.kind.code(), fault.kind.name())?;
    push_hint(&mut text, &at, &hint)?;
    Ok(text)
}
