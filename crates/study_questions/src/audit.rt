//! The answer about what the answers may not be trusted for.
#![tactic(auto, unfolding(crate::specs::AuditAnswers::findings_answer, crate::specs::AuditAnswers::places_answer, crate::specs::AuditAnswers::audit_answer))]

ghost use Rattle.std.specs.Prelude.{◌≡◌, ◌++◌, ◌<◌, IfOk};
ghost use Rattle.network_names.specs.Names.{called};
ghost use Rattle.lsdb.specs.Slots.{lists_of};
ghost use Rattle.edit_history.specs.Session.{state};
ghost use Rattle.branches.specs.Branches.{sessions_of};
ghost use Rattle.study_questions.specs.AuditAnswers.{audit_answer, findings_answer, findings_reply, places_answer, places_reply};

use crate::listing::push_counted;
use crate::text::{head, push_number_after};
use audit_places::Place;
use audit_report::{Audit, audit_of, places_of};
use branches::Branches;
use lsdb::Database;
use network_names::Names;
use std::alloc::{AllocError, Allocator};
use study_answers::{Answer, loaded_of};
use study_text::{push_lines, push_word};
use study_words::{AuditKind, SeeWord, Word};

/// The text of `audit`.
fn findings_reply<A: Allocator + Copy>(
    alloc: A,
    names: &Names<'_, A>,
    branch: u8,
    audit: &Audit<A>,
) -> Result<Vec<u8, A>, AllocError>
    ensures { IfOk result
        (λ text. text.items ≡ findings_reply (called names.now) branch audit.now) }
{
    let (findings, wrong) = (audit.findings(), audit.wrong(alloc)?);
    let mut text = head(alloc, branch, SeeWord::Audit)?;
    push_number_after(&mut text, findings.len() as u64)?;
    push_word(&mut text, " wrong")?;
    push_number_after(&mut text, wrong.len() as u64)?;
    push_word(&mut text, "\n")?;
    push_lines(&mut text, names, findings)?;
    Ok(text)
}

/// The text of `audit` with a kind.
fn places_reply<A: Allocator + Copy>(
    alloc: A,
    names: &Names<'_, A>,
    branch: u8,
    kind: AuditKind,
    places: &[Place<A>],
) -> Result<Vec<u8, A>, AllocError>
    ensures { IfOk result
        (λ text. text.items ≡ places_reply (called names.now) branch kind places.now) }
{
    let mut text = head(alloc, branch, SeeWord::Audit)?;
    push_word(&mut text, " ")?;
    push_word(&mut text, kind.text())?;
    push_counted(&mut text, names, places)?;
    Ok(text)
}

/// The answer to `audit` without a kind, in a database that was loaded as another one.
fn findings_answer<A: Allocator + Copy>(
    alloc: A,
    names: &Names<'_, A>,
    branch: u8,
    loaded: &Database<A>,
    now: &Database<A>,
) -> Result<Answer<A>, AllocError>
    ensures { IfOk result (λ answer. answer
        ≡ findings_answer (called names.now) branch (lists_of loaded.now) (lists_of now.now)) }
{
    let audit = audit_of(alloc, loaded, now)?;
    let text = findings_reply(alloc, names, branch, &audit)?;
    Ok(Answer::accepted(alloc, text))
}

/// The answer to `audit` with a kind.
fn places_answer<A: Allocator + Copy>(
    alloc: A,
    names: &Names<'_, A>,
    branch: u8,
    kind: AuditKind,
    loaded: &Database<A>,
    now: &Database<A>,
) -> Result<Answer<A>, AllocError>
    ensures { IfOk result (λ answer. answer ≡ places_answer (called names.now) branch kind
        (lists_of loaded.now) (lists_of now.now)) }
{
    let places = places_of(alloc, loaded, now, kind)?;
    let text = places_reply(alloc, names, branch, kind, &places)?;
    Ok(Answer::accepted(alloc, text))
}

/// The answer to `audit`, with a kind or without one.
fn audit_answer<A: Allocator + Copy>(
    alloc: A,
    names: &Names<'_, A>,
    branch: u8,
    kind: Option<AuditKind>,
    loaded: &Database<A>,
    now: &Database<A>,
) -> Result<Answer<A>, AllocError>
    ensures { IfOk result (λ answer. answer ≡ audit_answer (called names.now) branch
        (lists_of loaded.now) (lists_of now.now) kind) }
{
    match kind {
        Some(kind) => places_answer(alloc, names, branch, kind, loaded, now),
        None => findings_answer(alloc, names, branch, loaded, now),
    }
}

/// The answer to `audit` in a branch. All sessions stay.
pub(crate) fn audit<A: Allocator + Copy>(
    alloc: A,
    names: &Names<'_, A>,
    branches: &mut Branches<A>,
    branch: u8,
    kind: Option<AuditKind>,
) -> Result<Answer<A>, AllocError>
    requires { branch < 8 }
    ensures answer { IfOk result (λ answer. answer ≡ audit_answer (called names.now) branch
        (sessions_of branches.old branch).base (state (sessions_of branches.old branch)) kind) }
    ensures kept { sessions_of branches.new ≡ sessions_of branches.old }
{
    let loaded = loaded_of(branches, branch)?;
    branches.prepare(branch)?;
    let now = branches.planner(branch).database();
    audit_answer(alloc, names, branch, kind, &loaded, now)
}
