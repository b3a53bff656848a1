//! Conditions about what the answers may not be trusted for.
#![tactic(auto, unfolding(crate::specs::AuditVerdicts::clean_verdict, crate::specs::AuditVerdicts::listed_verdict))]

ghost use Rattle.std.specs.Prelude.{◌≡◌, ◌<◌, IfOk};
ghost use Rattle.edit_history.specs.Session.{state};
ghost use Rattle.branches.specs.Branches.{sessions_of};
ghost use Rattle.study_expectations.specs.AuditVerdicts.{clean_of, clean_verdict, listed_of, listed_verdict, wrong_kinds};
ghost use Rattle.study_expectations.specs.steps.Verdicts.{verdict_of};

use crate::verdict::Verdict;
use audit_report::{KindCount, audit_of, push_unlisted_found, push_wrong_found, unlisted};
use branches::Branches;
use network_names::Names;
use std::alloc::{AllocError, Allocator};
use study_answers::loaded_of;
use study_words::AuditKind;

/// The kinds of findings that can make a table wrong, in a branch. All sessions stay.
fn wrong_kinds<A: Allocator + Copy>(
    alloc: A,
    branches: &mut Branches<A>,
    branch: u8,
) -> Result<Vec<KindCount, A>, AllocError>
    requires { branch < 8 }
    ensures counts { IfOk result (λ counts. counts.items
        ≡ wrong_kinds (sessions_of branches.old branch).base
        (state (sessions_of branches.old branch))) }
    ensures kept { sessions_of branches.new ≡ sessions_of branches.old }
{
    let loaded = loaded_of(branches, branch)?;
    branches.prepare(branch)?;
    let now = branches.planner(branch).database();
    let audit = audit_of(alloc, &loaded, now)?;
    audit.wrong(alloc)
}

/// What is found of `audit clean`, by the kinds that can make a table wrong.
fn clean_of<A: Allocator + Copy>(
    alloc: A,
    names: &Names<'_, A>,
    counts: &[KindCount],
) -> Result<Verdict<A>, AllocError>
    ensures { IfOk result (λ verdict. verdict_of verdict ≡ clean_of counts.now) }
{
    let mut text = Vec::new(alloc);
    push_wrong_found(&mut text, names, counts)?;
    Ok(Verdict::Found {
        holds: counts.is_empty(),
        text,
    })
}

/// `audit clean`: what is found of it. All sessions stay.
pub(crate) fn clean_audit<A: Allocator + Copy>(
    alloc: A,
    branches: &mut Branches<A>,
    names: &Names<'_, A>,
    branch: u8,
) -> Result<Verdict<A>, AllocError>
    requires { branch < 8 }
    ensures verdict { IfOk result (λ verdict. verdict_of verdict
        ≡ clean_verdict (sessions_of branches.old branch).base
        (state (sessions_of branches.old branch))) }
    ensures kept { sessions_of branches.new ≡ sessions_of branches.old }
{
    let counts = wrong_kinds(alloc, branches, branch)?;
    clean_of(alloc, names, &counts)
}

/// What is found of `audit only`, with the kinds that are listed, by those that can make a table
/// wrong.
fn listed_of<A: Allocator + Copy>(
    alloc: A,
    names: &Names<'_, A>,
    kinds: &[AuditKind],
    counts: &[KindCount],
) -> Result<Verdict<A>, AllocError>
    ensures { IfOk result
        (λ verdict. verdict_of verdict ≡ listed_of kinds.now counts.now) }
{
    let others = unlisted(alloc, kinds, counts)?;
    let mut text = Vec::new(alloc);
    push_unlisted_found(&mut text, names, counts, &others)?;
    Ok(Verdict::Found {
        holds: others.is_empty(),
        text,
    })
}

/// `audit only`, with the kinds that are listed: what is found of it. All sessions stay.
pub(crate) fn only_findings<A: Allocator + Copy>(
    alloc: A,
    branches: &mut Branches<A>,
    names: &Names<'_, A>,
    branch: u8,
    kinds: &[AuditKind],
) -> Result<Verdict<A>, AllocError>
    requires { branch < 8 }
    ensures verdict { IfOk result (λ verdict. verdict_of verdict
        ≡ listed_verdict (sessions_of branches.old branch).base
        (state (sessions_of branches.old branch)) kinds.now) }
    ensures kept { sessions_of branches.new ≡ sessions_of branches.old }
{
    let counts = wrong_kinds(alloc, branches, branch)?;
    listed_of(alloc, names, kinds, &counts)
}
