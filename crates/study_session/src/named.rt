//! Commands of `ospf-plan` in whose lines names stand.

ghost use Rattle.std.specs.Prelude.{◌≡◌, ◌<◌, IfOk, IfSome, OnOk, Some, option_map};
ghost use Rattle.edit_history.specs.Session.{state};
ghost use Rattle.link_report.specs.Links.{link_at};
ghost use Rattle.branches.specs.Branches.{sessions_of};
ghost use Rattle.study_answers.specs.Answers.{refused_answer};
ghost use Rattle.refusal_hints.specs.CommandHints.{many_links_hint};
ghost use Rattle.study_session.specs.Contexts.{context_of, situation};
ghost use Rattle.study_session.specs.Explained.{refused_with};
ghost use Rattle.study_session.specs.NamedCommands.{link_answer, link_change, link_stepped, many_links, named_answer, named_number, named_stepped, number_found, one_of};

use crate::context::Context;
use crate::explained::refused_with;
use crate::link_edit::{LinkEdit, link_change};
use crate::plan::{differing, plan};
use crate::way::{Way, way_of};
use branches::Branches;
use link_report::{link_line_at, link_numbers, router_lsa_of_any_age};
use lsa_codec::{AreaId, RouterId};
use recalculate::Planner;
use refusal_hints::many_links_hint;
use std::alloc::{AllocError, Allocator};
use study_answers::Answer;
use study_arguments::LinkName;
use study_script::NamedCommand;

/// The edits that may be done at a time.
const MOST_EDITS: usize = 10_000;

/// The one number of some, 0 where there is none, and `None` where there are several.
fn one_of(numbers: &[u16]) -> Option<u16>
    ensures { result ≡ one_of numbers.now }
{
    match numbers {
        [] => Some(0),
        [number] => Some(*number),
        _ => None,
    }
}

/// The number of the link that a word names, 0 where there is none, and `None` where there are
/// several. Where no edit may be done any more, none is looked up.
#[tactic(auto, unfolding(crate::specs::NamedCommands::number_found))]
fn number_found<A: Allocator + Copy>(
    alloc: A,
    planner: &Planner<A>,
    area: AreaId,
    router: RouterId,
    name: LinkName,
) -> Result<Option<u16>, AllocError>
    ensures { IfOk result
        (λ number. number ≡ number_found planner.now.session area router name) }
{
    if planner.done() >= MOST_EDITS {
        return Ok(Some(0));
    }
    let Some(lsa) = router_lsa_of_any_age(planner.database(), area, router) else {
        return Ok(Some(0));
    };
    let numbers = link_numbers(alloc, &lsa, &name)?;
    Ok(one_of(&numbers))
}

/// The number of the link that is named, 0 where there is none, and `None` where there are several.
#[tactic(auto, unfolding(crate::specs::NamedCommands::named_number))]
fn named_number<A: Allocator + Copy>(
    alloc: A,
    planner: &Planner<A>,
    area: AreaId,
    router: RouterId,
    name: LinkName,
) -> Result<Option<u16>, AllocError>
    ensures { IfOk result
        (λ number. number ≡ named_number planner.now.session area router name) }
{
    match name {
        LinkName::Number(number) => Ok(Some(number)),
        LinkName::Address(_) => number_found(alloc, planner, area, router, name),
        LinkName::Prefix(_) => number_found(alloc, planner, area, router, name),
    }
}

/// The number of the link that is named, 0 where there is none, and what is said of its edit;
/// `None` where several links are named.
fn found<A: Allocator + Copy>(
    context: &Context<'_, '_, A>,
    planner: &Planner<A>,
    place: &(AreaId, RouterId, LinkName),
    edit: LinkEdit,
) -> Result<Option<(u16, Vec<u8, A>)>, AllocError>
    ensures number { IfOk result (λ found. option_map (λ f. f.0) found
        ≡ named_number planner.now.session place.now.0 place.now.1 place.now.2) }
    ensures change { IfOk result (λ found. IfSome found (λ f. f.1.items
        ≡ link_change (context_of context.now) edit
        (link_at (state planner.now.session) place.now.0 place.now.1 f.0))) }
{
    let alloc = context.alloc;
    let (area, router, name) = *place;
    let Some(number) = named_number(alloc, planner, area, router, name)? else {
        return Ok(None);
    };
    let line = link_line_at(alloc, planner.database(), area, router, number)?;
    let change = link_change(context, edit, line.as_ref())?;
    Ok(Some((number, change)))
}

/// The answer to an edit of a link where several links are named, with their numbers.
fn many_links<A: Allocator + Copy>(
    context: &Context<'_, '_, A>,
    planner: &Planner<A>,
    place: &(AreaId, RouterId, LinkName),
) -> Result<Answer<A>, AllocError>
    ensures { IfOk result (λ answer. answer ≡ refused_with (context_of context.now) many_links
        (many_links_hint (situation (context_of context.now) planner.now.session)
        (context_of context.now).words place.now.0 place.now.1 place.now.2)
        (refused_answer context.now.branch many_links)) }
{
    let (alloc, texts) = (context.alloc, ("E14", "ManyLinks"));
    let answer = Answer::refused(alloc, context.branch, texts.0, texts.1)?;
    let situation = context.situation(planner);
    let hint = many_links_hint(alloc, &situation, context.names, context.line, *place)?;
    refused_with(context, texts, answer, &hint)
}

/// Carries out an edit of a link that is named, and says what it changed; refused where several
/// links are named.
fn edit_link<A: Allocator + Copy>(
    branches: &mut Branches<A>,
    context: &Context<'_, '_, A>,
    place: (AreaId, RouterId, LinkName),
    edit: LinkEdit,
) -> Result<Answer<A>, AllocError>
    requires { context.now.branch < 8 }
    ensures answer { IfOk result (λ answer. answer ≡ link_answer (context_of context.now)
        (sessions_of branches.old context.now.branch) place.0 place.1 place.2 edit
        (named_number (sessions_of branches.old context.now.branch) place.0 place.1 place.2)) }
    ensures sessions { OnOk result (sessions_of branches.new
        ≡ link_stepped context.now.branch place.0 place.1 edit
        (named_number (sessions_of branches.old context.now.branch) place.0 place.1 place.2)
        (sessions_of branches.old)) }
{
    let (area, router, _) = place;
    branches.prepare(context.branch)?;
    let planner = branches.planner(context.branch);
    match found(context, planner, &place, edit)? {
        Some((number, change)) => {
            let command = edit.command(area, router, number);
            plan(branches, context, &command, Some(change))
        }
        None => many_links(context, planner, &place),
    }
}

/// Carries out a command of `ospf-plan`, in whose line names may stand.
pub(crate) fn named<A: Allocator + Copy>(
    branches: &mut Branches<A>,
    context: &Context<'_, '_, A>,
    command: &NamedCommand,
) -> Result<Answer<A>, AllocError>
    requires { context.now.branch < 8 }
    ensures answer { IfOk result (λ answer. answer ≡ named_answer (context_of context.now)
        (sessions_of branches.old context.now.branch) command.now) }
    ensures sessions { OnOk result (sessions_of branches.new
        ≡ named_stepped context.now.branch command.now (sessions_of branches.old)) }
{
    match way_of(context.is_verbose, command) {
        Way::Plain(command) => plan(branches, context, &command, None),
        Way::Link(area, router, link, edit) => {
            edit_link(branches, context, (area, router, link), edit)
        }
        Way::Differing(edit) => differing(branches, context, edit),
    }
}
