//! The document about what the answers may not be trusted for.
#![tactic(auto, unfolding(crate::specs::AuditDocuments::IsAuditDocument))]

ghost use Rattle.std.specs.Prelude.{◌<◌, ◌≡◌, IfOk, None, Some};
ghost use Rattle.lsdb.specs.Slots.{lists_of};
ghost use Rattle.edit_history.specs.Session.{state};
ghost use Rattle.branches.specs.Branches.{sessions_of};
ghost use Rattle.document_answers.specs.AuditDocuments.{IsAuditDocument};
ghost use Rattle.document_answers.specs.Documented.{documented};

use crate::documented::Documented;
use audit_report::{audit_of, places_of};
use branches::Branches;
use finding_json::{push_findings, push_places};
use lsdb::Database;
use std::alloc::{AllocError, Allocator};
use study_answers::loaded_of;
use study_words::AuditKind;

/// The document of `audit` without a kind.
fn findings_document<A: Allocator + Copy>(
    alloc: A,
    loaded: &Database<A>,
    now: &Database<A>,
) -> Result<Documented<A>, AllocError>
    ensures { IfOk result (λ given. IsAuditDocument (lists_of loaded.now) (lists_of now.now)
        None (documented given)) }
{
    let audit = audit_of(alloc, loaded, now)?;
    let mut text = Vec::new(alloc);
    push_findings(&mut text, &audit)?;
    Ok(Documented::Members(text))
}

/// The document of `audit` with a kind.
fn places_document<A: Allocator + Copy>(
    alloc: A,
    loaded: &Database<A>,
    now: &Database<A>,
    kind: AuditKind,
) -> Result<Documented<A>, AllocError>
    ensures { IfOk result (λ given. IsAuditDocument (lists_of loaded.now) (lists_of now.now)
        (Some kind) (documented given)) }
{
    let places = places_of(alloc, loaded, now, kind)?;
    let mut text = Vec::new(alloc);
    push_places(&mut text, kind, &places)?;
    Ok(Documented::Members(text))
}

/// The document of `audit`, with a kind or without one.
fn audit_by<A: Allocator + Copy>(
    alloc: A,
    loaded: &Database<A>,
    now: &Database<A>,
    kind: Option<AuditKind>,
) -> Result<Documented<A>, AllocError>
    ensures { IfOk result (λ given. IsAuditDocument (lists_of loaded.now) (lists_of now.now)
        kind (documented given)) }
{
    match kind {
        Some(kind) => places_document(alloc, loaded, now, kind),
        None => findings_document(alloc, loaded, now),
    }
}

/// The document of `audit` in a branch. All sessions stay.
pub(crate) fn audit_document<A: Allocator + Copy>(
    alloc: A,
    branches: &mut Branches<A>,
    branch: u8,
    kind: Option<AuditKind>,
) -> Result<Documented<A>, AllocError>
    requires { branch < 8 }
    ensures kept { sessions_of branches.new ≡ sessions_of branches.old }
    ensures document { IfOk result (λ given. IsAuditDocument
        (sessions_of branches.old branch).base (state (sessions_of branches.old branch)) kind
        (documented given)) }
{
    let loaded = loaded_of(branches, branch)?;
    branches.prepare(branch)?;
    let now = branches.planner(branch).database();
    audit_by(alloc, &loaded, now, kind)
}
