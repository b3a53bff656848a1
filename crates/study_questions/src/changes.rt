//! Answers about what differs from the baseline.
#![tactic(auto, unfolding(crate::specs::ChangeAnswers::changes_of, crate::specs::ChangeAnswers::changes_answer, crate::specs::ChangeAnswers::differences_answer))]

ghost use Rattle.std.specs.Prelude.{◌≡◌, ◌∷◌, [], None, Some, IfOk};
ghost use Rattle.network_names.specs.Names.{called};
ghost use Rattle.lsdb.specs.Slots.{lists_of};
ghost use Rattle.comparison.specs.Named.{changes_for};
ghost use Rattle.study_answers.specs.Missing.{beside};
ghost use Rattle.study_questions.specs.ChangeAnswers.{changes_answer, changes_of, changes_reply, differences_answer};
ghost use Rattle.study_questions.specs.steps.Missing.{missing_answer};

use crate::listing::listed;
use crate::text::{head, push_number_after, push_router_after};
use change_lines::{ChangeLine, Changes, push_counts};
use change_report::{lines_of_changes, router_changes};
use comparison::Comparison;
use lsa_codec::RouterId;
use lsa_differences::difference_lines;
use lsdb::Database;
use network_names::Names;
use spf::Meter;
use std::alloc::{AllocError, Allocator};
use study_answers::{Answer, Missing, is_known, no_router};
use study_text::{push_lines, push_word};
use study_words::SeeWord;

/// The text of `changes`.
fn changes_reply<A: Allocator + Copy>(
    alloc: A,
    names: &Names<'_, A>,
    branch: u8,
    router: Option<RouterId>,
    changes: &Changes<A>,
    lines: &[ChangeLine<A>],
) -> Result<Vec<u8, A>, AllocError>
    ensures { IfOk result (λ text. text.items
        ≡ changes_reply (called names.now) branch router changes.now lines.now) }
{
    let mut text = head(alloc, branch, SeeWord::Changes)?;
    push_router_after(&mut text, names, router)?;
    push_number_after(&mut text, changes.names.len() as u64)?;
    push_counts(&mut text, changes)?;
    push_word(&mut text, "\n")?;
    push_lines(&mut text, names, lines)?;
    Ok(text)
}

/// The answer to `changes` of one router. Of all tables only those of this router are calculated.
fn changes_of_router<A: Allocator + Copy>(
    alloc: A,
    names: &Names<'_, A>,
    branch: u8,
    baseline: &Database<A>,
    database: &Database<A>,
    router: RouterId,
) -> Result<Answer<A>, AllocError>
    ensures { IfOk result (λ answer. answer ≡ changes_of (called names.now) branch
        (lists_of baseline.now) (lists_of database.now) (Some router)
        (changes_for (beside (lists_of baseline.now) (lists_of database.now)) (router ∷ []))) }
{
    let mut meter = Meter::new();
    let (changes, lines) = router_changes(alloc, baseline, database, router, &mut meter)?;
    let text = changes_reply(alloc, names, branch, Some(router), &changes, &lines)?;
    Ok(Answer::accepted(alloc, text))
}

/// The answer to `changes` of all routers, by what differs.
fn changes_of<A: Allocator + Copy>(
    alloc: A,
    names: &Names<'_, A>,
    branch: u8,
    both: &Comparison<'_, A>,
    changes: &Changes<A>,
) -> Result<Answer<A>, AllocError>
    ensures { IfOk result (λ answer. answer ≡ changes_of (called names.now) branch
        both.now.baseline both.now.present None changes.now) }
{
    let lines = lines_of_changes(alloc, both, &changes.names)?;
    let text = changes_reply(alloc, names, branch, None, changes, &lines)?;
    Ok(Answer::accepted(alloc, text))
}

/// The answer to `changes`.
pub(crate) fn changes_answer<A: Allocator + Copy>(
    alloc: A,
    names: &Names<'_, A>,
    branch: u8,
    baseline: &Database<A>,
    database: &Database<A>,
    router: Option<RouterId>,
) -> Result<Answer<A>, AllocError>
    ensures { IfOk result (λ answer. answer ≡ changes_answer (called names.now) branch
        (lists_of baseline.now) (lists_of database.now) router) }
{
    if let Some(one) = router {
        if !is_known(alloc, baseline, database, one)? {
            return no_router(alloc, branch);
        }
        return changes_of_router(alloc, names, branch, baseline, database, one);
    }
    let both = Comparison::of(alloc, baseline, database, &mut Meter::new())?;
    let changes = both.changes(alloc)?;
    changes_of(alloc, names, branch, &both, &changes)
}

/// The answer to `differences`.
pub(crate) fn differences_answer<A: Allocator + Copy>(
    alloc: A,
    names: &Names<'_, A>,
    branch: u8,
    baseline: &Database<A>,
    database: &Database<A>,
) -> Result<Answer<A>, AllocError>
    ensures { IfOk result (λ answer. answer ≡ differences_answer (called names.now) branch
        (lists_of baseline.now) (lists_of database.now)) }
{
    let lines = difference_lines(alloc, baseline, database)?;
    listed(alloc, names, branch, SeeWord::Differences, &lines)
}

/// The answer to `lost` or `gone`.
pub(crate) fn missing_answer<A: Allocator + Copy>(
    alloc: A,
    names: &Names<'_, A>,
    branch: u8,
    baseline: &Database<A>,
    database: &Database<A>,
    missing: Missing,
) -> Result<Answer<A>, AllocError>
    ensures { IfOk result (λ answer. answer ≡ missing_answer (called names.now) branch missing
        (lists_of baseline.now) (lists_of database.now)) }
{
    let both = Comparison::of(alloc, baseline, database, &mut Meter::new())?;
    let lines = missing.lines(alloc, &both)?;
    listed(alloc, names, branch, missing.word(), &lines)
}
