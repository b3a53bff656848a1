//! Documents about what differs from the baseline.
#![tactic(auto, unfolding(crate::specs::ChangeDocuments::IsChangesDocument, crate::specs::ChangeDocuments::IsDifferencesDocument, crate::specs::ChangeDocuments::IsMissingDocument))]

ghost use Rattle.std.specs.Prelude.{◌∷◌, [], None, Some, IfOk};
ghost use Rattle.lsdb.specs.Slots.{lists_of};
ghost use Rattle.comparison.specs.Named.{changes_for};
ghost use Rattle.study_answers.specs.Missing.{beside};
ghost use Rattle.document_answers.specs.ChangeDocuments.{IsChangesDocument, IsDifferencesDocument, IsMissingDocument, changes_members};
ghost use Rattle.document_answers.specs.Documented.{HasMembers, documented};

use crate::documented::Documented;
use change_lines::Changes;
use change_report::{lines_of_changes, router_changes};
use comparison::Comparison;
use finding_json::push_differences;
use lsa_codec::RouterId;
use lsa_differences::difference_lines;
use lsdb::Database;
use spf::Meter;
use std::alloc::{AllocError, Allocator};
use study_answers::{Missing, is_known};
use study_documents::{push_changes, push_listing};

/// The document of `changes` of one router. Of all tables only those of this router are calculated.
fn changes_of_router<A: Allocator + Copy>(
    alloc: A,
    baseline: &Database<A>,
    database: &Database<A>,
    router: RouterId,
) -> Result<Documented<A>, AllocError>
    ensures { IfOk result (λ given. HasMembers (changes_members (lists_of baseline.now)
        (lists_of database.now) (Some router)
        (changes_for (beside (lists_of baseline.now) (lists_of database.now)) (router ∷ [])))
        (documented given)) }
{
    let mut meter = Meter::new();
    let (changes, lines) = router_changes(alloc, baseline, database, router, &mut meter)?;
    let mut text = Vec::new(alloc);
    push_changes(&mut text, Some(router), &changes, &lines)?;
    Ok(Documented::Members(text))
}

/// The document of `changes` of all routers, by what differs.
fn changes_by<A: Allocator + Copy>(
    alloc: A,
    both: &Comparison<'_, A>,
    changes: &Changes<A>,
) -> Result<Documented<A>, AllocError>
    ensures { IfOk result (λ given. HasMembers (changes_members both.now.baseline
        both.now.present None changes.now) (documented given)) }
{
    let lines = lines_of_changes(alloc, both, &changes.names)?;
    let mut text = Vec::new(alloc);
    push_changes(&mut text, None, changes, &lines)?;
    Ok(Documented::Members(text))
}

/// The document of `changes`.
pub(crate) fn changes_document<A: Allocator + Copy>(
    alloc: A,
    baseline: &Database<A>,
    database: &Database<A>,
    router: Option<RouterId>,
) -> Result<Documented<A>, AllocError>
    ensures { IfOk result (λ given. IsChangesDocument (lists_of baseline.now)
        (lists_of database.now) router (documented given)) }
{
    if let Some(one) = router {
        if !is_known(alloc, baseline, database, one)? {
            return Ok(Documented::NoRouter);
        }
        return changes_of_router(alloc, baseline, database, one);
    }
    let both = Comparison::of(alloc, baseline, database, &mut Meter::new())?;
    let changes = both.changes(alloc)?;
    changes_by(alloc, &both, &changes)
}

/// The document of `differences`.
pub(crate) fn differences_document<A: Allocator + Copy>(
    alloc: A,
    baseline: &Database<A>,
    database: &Database<A>,
) -> Result<Documented<A>, AllocError>
    ensures { IfOk result (λ given. IsDifferencesDocument (lists_of baseline.now)
        (lists_of database.now) (documented given)) }
{
    let lines = difference_lines(alloc, baseline, database)?;
    let mut text = Vec::new(alloc);
    push_differences(&mut text, &lines)?;
    Ok(Documented::Members(text))
}

/// The document of `lost` or `gone`.
pub(crate) fn missing_document<A: Allocator + Copy>(
    alloc: A,
    baseline: &Database<A>,
    database: &Database<A>,
    missing: Missing,
) -> Result<Documented<A>, AllocError>
    ensures { IfOk result (λ given. IsMissingDocument (lists_of baseline.now)
        (lists_of database.now) missing (documented given)) }
{
    let both = Comparison::of(alloc, baseline, database, &mut Meter::new())?;
    let lines = missing.lines(alloc, &both)?;
    let mut text = Vec::new(alloc);
    push_listing(&mut text, "pairs", &lines)?;
    Ok(Documented::Members(text))
}
