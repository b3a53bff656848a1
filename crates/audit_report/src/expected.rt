//! What is expected of an audit, and what is found.

ghost use Rattle.std.specs.Prelude.{◌≡◌, ◌++◌, IfOk, OnOk};
ghost use Rattle.audit_report.specs.Expected.{counts_text, is_listed, unlisted, unlisted_found, wrong_found};

use crate::counts::KindCount;
use network_names::Names;
use std::alloc::{AllocError, Allocator};
use study_text::{push_joined_or, push_number_after};
use study_words::{AuditKind, Word};

/// Whether a kind is among some.
fn is_listed(kinds: &[AuditKind], kind: AuditKind) -> bool
    ensures { result ≡ is_listed kinds.now kind }
{
    kinds
        .iter()
        .any(|listed| kind.is_text(listed.text().as_bytes()))
}

/// The counts of kinds that are not among some. `audit only KIND..` holds where there is none among
/// those of class `wrong`.
///
/// # Errors
///
/// Memory ran out.
pub fn unlisted<A: Allocator + Copy>(
    alloc: A,
    kinds: &[AuditKind],
    counts: &[KindCount],
) -> Result<Vec<KindCount, A>, AllocError>
    ensures { IfOk result (λ others. others.items ≡ unlisted kinds.now counts.now) }
{
    counts
        .iter()
        .copied()
        .filter(|one| !is_listed(kinds, one.kind))
        .collect(alloc)
}

/// Adds kinds with their counts after a colon; nothing where there is none.
fn push_counts<A: Allocator + Copy>(
    text: &mut Vec<u8, A>,
    names: &Names<'_, A>,
    counts: &[KindCount],
) -> Result<(), AllocError>
    ensures { OnOk result (text.new.items ≡ text.old.items ++ counts_text counts.now) }
{
    push_joined_or(text, names, "", ": ", ", ", counts)
}

/// Adds how many kinds can make a table wrong, and these, as `wrong 2: nssa 1, split-area 3`.
///
/// # Errors
///
/// Memory ran out. A part of the text may have been added.
pub fn push_wrong_found<A: Allocator + Copy>(
    text: &mut Vec<u8, A>,
    names: &Names<'_, A>,
    counts: &[KindCount],
) -> Result<(), AllocError>
    ensures { OnOk result (text.new.items ≡ text.old.items ++ wrong_found counts.now) }
{
    push_number_after(text, "wrong ", counts.len() as u64)?;
    push_counts(text, names, counts)
}

/// Adds how many kinds can make a table wrong, how many of them are not listed, and these, as
/// `wrong 2, not listed 1: nssa 1`.
///
/// # Errors
///
/// Memory ran out. A part of the text may have been added.
pub fn push_unlisted_found<A: Allocator + Copy>(
    text: &mut Vec<u8, A>,
    names: &Names<'_, A>,
    counts: &[KindCount],
    others: &[KindCount],
) -> Result<(), AllocError>
    ensures { OnOk result
        (text.new.items ≡ text.old.items ++ unlisted_found counts.now others.now) }
{
    push_number_after(text, "wrong ", counts.len() as u64)?;
    push_number_after(text, ", not listed ", others.len() as u64)?;
    push_counts(text, names, others)
}
