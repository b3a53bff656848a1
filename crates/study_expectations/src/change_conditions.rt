//! Conditions about what differs from the baseline.
#![tactic(auto, unfolding(crate::specs::ChangeVerdicts::changes_beside, crate::specs::ChangeVerdicts::pairs_verdict, crate::specs::ChangeVerdicts::changes_verdict, crate::specs::ChangeVerdicts::same_verdict, crate::specs::ChangeVerdicts::few_verdict))]

ghost use Rattle.std.specs.Prelude.{◌≡◌, ◌∷◌, [], IfOk};
ghost use Rattle.network_names.specs.Names.{called};
ghost use Rattle.lsdb.specs.Slots.{lists_of};
ghost use Rattle.comparison.specs.Named.{all_changes, changes_for};
ghost use Rattle.study_script.specs.Expected.{pairs_allowed};
ghost use Rattle.study_answers.specs.Missing.{beside, missing_pairs, missing_text};
ghost use Rattle.study_expectations.specs.ChangeVerdicts.{changes_beside, changes_verdict, few_verdict, is_known_if_named, pairs_verdict, same_verdict};
ghost use Rattle.study_expectations.specs.Verdicts.{is_none};
ghost use Rattle.study_expectations.specs.steps.Verdicts.{verdict_of};

use crate::verdict::Verdict;
use change_lines::{Changes, Pair, push_changes_found};
use change_report::{are_allowed, are_few, push_found};
use comparison::{Comparison, RouterComparison};
use lsa_codec::RouterId;
use lsdb::Database;
use network_names::Names;
use spf::Meter;
use std::alloc::{AllocError, Allocator};
use study_answers::{Missing, is_known};
use study_script::Allowed;

/// What is found of pairs that are lost or gone.
fn found_pairs<A: Allocator + Copy>(
    alloc: A,
    names: &Names<'_, A>,
    word: &str,
    allowed: &Allowed<A>,
    pairs: &[Pair],
) -> Result<Verdict<A>, AllocError>
    ensures { IfOk result (λ verdict. verdict_of verdict
        ≡ pairs_verdict (called names.now) word.now (pairs_allowed allowed.now) pairs.now) }
{
    let holds = are_allowed(allowed, pairs);
    let mut text = Vec::new(alloc);
    push_found(alloc, &mut text, names, word, allowed, pairs)?;
    Ok(Verdict::Found { holds, text })
}

/// `lost` or `gone`: what is found of it.
pub(crate) fn pairs<A: Allocator + Copy>(
    alloc: A,
    names: &Names<'_, A>,
    baseline: &Database<A>,
    database: &Database<A>,
    which: Missing,
    allowed: &Allowed<A>,
) -> Result<Verdict<A>, AllocError>
    ensures { IfOk result (λ verdict. verdict_of verdict
        ≡ pairs_verdict (called names.now) (missing_text which) (pairs_allowed allowed.now)
        (missing_pairs which (beside (lists_of baseline.now) (lists_of database.now)))) }
{
    let both = Comparison::of(alloc, baseline, database, &mut Meter::new())?;
    let found = which.pairs(alloc, &both)?;
    found_pairs(alloc, names, which.text(), allowed, &found)
}

/// What is found of changes.
fn changes<A: Allocator + Copy>(
    alloc: A,
    names: &Names<'_, A>,
    holds: bool,
    changes: &Changes<A>,
) -> Result<Verdict<A>, AllocError>
    ensures { IfOk result (λ verdict. verdict_of verdict
        ≡ changes_verdict (called names.now) holds changes.now) }
{
    let mut text = Vec::new(alloc);
    push_changes_found(&mut text, names, &changes.names)?;
    Ok(Verdict::Found { holds, text })
}

/// Whether a router, if one is named, is attached in a database or in the baseline.
fn is_known_if_named<A: Allocator + Copy>(
    alloc: A,
    baseline: &Database<A>,
    database: &Database<A>,
    router: Option<RouterId>,
) -> Result<bool, AllocError>
    ensures { IfOk result (λ known. known
        ≡ is_known_if_named (lists_of baseline.now) (lists_of database.now) router) }
{
    match router {
        Some(router) => is_known(alloc, baseline, database, router),
        None => Ok(true),
    }
}

/// What differs for a router. Of all tables only those of this router are calculated.
fn router_changes<A: Allocator + Copy>(
    alloc: A,
    baseline: &Database<A>,
    database: &Database<A>,
    router: RouterId,
) -> Result<Changes<A>, AllocError>
    ensures { IfOk result (λ found. found ≡ changes_for
        (beside (lists_of baseline.now) (lists_of database.now)) (router ∷ [])) }
{
    let one = RouterComparison::of(alloc, baseline, database, router, &mut Meter::new())?;
    one.changes(alloc)
}

/// What differs for all routers.
fn all_changes<A: Allocator + Copy>(
    alloc: A,
    baseline: &Database<A>,
    database: &Database<A>,
) -> Result<Changes<A>, AllocError>
    ensures { IfOk result (λ found. found
        ≡ all_changes (beside (lists_of baseline.now) (lists_of database.now))) }
{
    let both = Comparison::of(alloc, baseline, database, &mut Meter::new())?;
    both.changes(alloc)
}

/// What differs, for a router or for all.
fn changes_beside<A: Allocator + Copy>(
    alloc: A,
    baseline: &Database<A>,
    database: &Database<A>,
    router: Option<RouterId>,
) -> Result<Changes<A>, AllocError>
    ensures { IfOk result (λ found. found
        ≡ changes_beside (lists_of baseline.now) (lists_of database.now) router) }
{
    match router {
        Some(router) => router_changes(alloc, baseline, database, router),
        None => all_changes(alloc, baseline, database),
    }
}

/// Whether nothing differs.
fn are_none<A: Allocator + Copy>(changes: &Changes<A>) -> bool
    ensures { result ≡ is_none changes.now.names }
{
    changes.names.is_empty()
}

/// `same`: what is found of it.
pub(crate) fn same<A: Allocator + Copy>(
    alloc: A,
    names: &Names<'_, A>,
    baseline: &Database<A>,
    database: &Database<A>,
    router: Option<RouterId>,
) -> Result<Verdict<A>, AllocError>
    ensures { IfOk result (λ verdict. verdict_of verdict ≡ same_verdict (called names.now)
        (lists_of baseline.now) (lists_of database.now) router) }
{
    if !is_known_if_named(alloc, baseline, database, router)? {
        return Ok(Verdict::NoRouter);
    }
    let found = changes_beside(alloc, baseline, database, router)?;
    changes(alloc, names, are_none(&found), &found)
}

/// `changes`: what is found of it.
pub(crate) fn few<A: Allocator + Copy>(
    alloc: A,
    names: &Names<'_, A>,
    baseline: &Database<A>,
    database: &Database<A>,
    most: u32,
) -> Result<Verdict<A>, AllocError>
    ensures { IfOk result (λ verdict. verdict_of verdict ≡ few_verdict (called names.now)
        (lists_of baseline.now) (lists_of database.now) most) }
{
    let found = changes_beside(alloc, baseline, database, None)?;
    changes(alloc, names, are_few(most, &found), &found)
}
