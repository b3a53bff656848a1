//! Audits.

ghost use Rattle.std.specs.Prelude.{◌≡◌, [], ◌∷◌, ◌++◌, IfOk, OnOk, filter};
ghost use Rattle.lsdb.specs.Slots.{lists_of};
ghost use Rattle.audit_report.specs.Expected.{wrong_counts};
ghost use Rattle.audit_report.specs.Findings.{audit, finding, found_among, is_found};

use crate::counts::KindCount;
use crate::finding::Finding;
use crate::places::places_of;
use lsdb::Database;
use std::alloc::{AllocError, Allocator, Global};
use std::marker::Model;
use study_words::{AuditKind, Word};

/// The kinds that have a place, in order. Contracts see them as this list.
#[derive(Drop)]
pub struct Audit<A: Allocator = Global> {
    findings: Vec<Finding<A>, A>,
}

impl<A: Allocator> Model for Audit<A> {
    ghost use Rattle.std.specs.Prelude.{List};
    ghost use Rattle.audit_report.specs.Findings.{FindingValue};

    ghost Value = { List FindingValue };

    ghost view = { λ a. a.findings.items };
}

impl<A: Allocator + Copy> Audit<A> {
    /// The kinds, each with its places.
    pub fn findings(&self) -> &[Finding<A>]
        ensures { result.now ≡ self.now }
    {
        self.findings.as_slice()
    }

    /// The kinds that can make a table wrong, each with the number of its places.
    ///
    /// # Errors
    ///
    /// Memory ran out.
    pub fn wrong(&self, alloc: A) -> Result<Vec<KindCount, A>, AllocError>
        ensures { IfOk result (λ counts. counts.items ≡ wrong_counts self.now) }
    {
        self.findings
            .iter()
            .filter(|finding| finding.is_wrong())
            .map(|finding| finding.count())
            .collect(alloc)
    }
}

impl<A: Allocator + Copy> Finding<A> {
    /// The findings of a kind, in a database that was loaded as another one.
    fn of(
        alloc: A,
        loaded: &Database<A>,
        now: &Database<A>,
        kind: AuditKind,
    ) -> Result<Finding<A>, AllocError>
        ensures { IfOk result
            (λ found. found ≡ finding (lists_of loaded.now) (lists_of now.now) kind) }
    {
        let places = places_of(alloc, loaded, now, kind)?;
        Ok(Finding { kind, places })
    }
}

/// Adds the findings of a kind, if there are any.
fn push_if_found<A: Allocator + Copy>(
    findings: &mut Vec<Finding<A>, A>,
    found: Finding<A>,
) -> Result<(), AllocError>
    ensures { OnOk result
        (findings.new.items ≡ findings.old.items ++ filter is_found (found ∷ [])) }
{
    if !found.places.is_empty() {
        findings.push(found)?;
    }
    Ok(())
}

/// The findings of those of some kinds that have a place, in their order.
fn found_among<A: Allocator + Copy>(
    alloc: A,
    loaded: &Database<A>,
    now: &Database<A>,
    kinds: &[AuditKind],
) -> Result<Vec<Finding<A>, A>, AllocError>
    ensures { IfOk result (λ findings. findings.items
        ≡ found_among (lists_of loaded.now) (lists_of now.now) kinds.now) }
{
    let mut findings = Vec::new(alloc);
    for kind in kinds {
        push_if_found(&mut findings, Finding::of(alloc, loaded, now, *kind)?)?;
    }
    Ok(findings)
}

/// The audit of a database that was loaded as another one, which is the same as long as nothing was
/// edited: the kinds that have a place.
///
/// # Errors
///
/// Memory ran out.
pub fn audit_of<A: Allocator + Copy>(
    alloc: A,
    loaded: &Database<A>,
    now: &Database<A>,
) -> Result<Audit<A>, AllocError>
    ensures { IfOk result
        (λ found. found ≡ audit (lists_of loaded.now) (lists_of now.now)) }
{
    let findings = found_among(alloc, loaded, now, AuditKind::all())?;
    Ok(Audit { findings })
}
