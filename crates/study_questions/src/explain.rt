//! The answer about why a route is what it is.
#![tactic(auto, unfolding(crate::specs::ExplainAnswers::IsExplainAnswer))]

ghost use Rattle.std.specs.Prelude.{◌≡◌, IfOk};
ghost use Rattle.network_names.specs.Names.{called};
ghost use Rattle.lsdb.specs.Slots.{lists_of};
ghost use Rattle.study_questions.specs.ExplainAnswers.{IsExplainAnswer, IsExplained, explain_reply};

use crate::text::{head, push_number_after, push_router_after};
use explanation::{Explanation, push_explanation};
use lsa_codec::{Prefix, RouterId};
use lsdb::Database;
use network_names::Names;
use route_candidates::RouterView;
use route_report::route_of;
use spf::Meter;
use std::alloc::{AllocError, Allocator};
use study_answers::{Answer, is_attached, no_router};
use study_text::{push_prefix, push_word};
use study_words::SeeWord;

/// The text of `explain`.
fn explain_reply<A: Allocator + Copy>(
    alloc: A,
    names: &Names<'_, A>,
    branch: u8,
    router: RouterId,
    net: Prefix,
    explanation: &Explanation<A>,
) -> Result<Vec<u8, A>, AllocError>
    ensures { IfOk result (λ text. text.items
        ≡ explain_reply (called names.now) branch router net explanation.now) }
{
    let mut text = head(alloc, branch, SeeWord::Explain)?;
    push_router_after(&mut text, names, Some(router))?;
    push_word(&mut text, " ")?;
    push_prefix(&mut text, net)?;
    push_number_after(&mut text, explanation.line_count()? as u64)?;
    push_word(&mut text, "\n")?;
    push_explanation(&mut text, names, explanation)?;
    Ok(text)
}

/// Why a router's route to a prefix is what it is.
///
/// # Errors
///
/// Memory ran out.
pub fn explained<A: Allocator + Copy>(
    alloc: A,
    database: &Database<A>,
    router: RouterId,
    net: Prefix,
) -> Result<Explanation<A>, AllocError>
    ensures { IfOk result (IsExplained (lists_of database.now) router net) }
{
    let mut meter = Meter::new();
    let route = route_of(alloc, database, router, net, &mut meter)?;
    let view = RouterView::of(alloc, database, router, &mut meter)?;
    Explanation::of(alloc, &view, net, route)
}

/// The answer to `explain`.
pub(crate) fn explain_answer<A: Allocator + Copy>(
    alloc: A,
    names: &Names<'_, A>,
    branch: u8,
    database: &Database<A>,
    router: RouterId,
    net: Prefix,
) -> Result<Answer<A>, AllocError>
    ensures { IfOk result
        (IsExplainAnswer (called names.now) branch (lists_of database.now) router net) }
{
    if !is_attached(alloc, database, router)? {
        return no_router(alloc, branch);
    }
    let explanation = explained(alloc, database, router, net)?;
    let text = explain_reply(alloc, names, branch, router, net, &explanation)?;
    Ok(Answer::accepted(alloc, text))
}
