//! The rows of which a walk has other columns and not the bytes.

ghost use Rattle.std.specs.Prelude.{◌≡◌, ◌++◌, IfOk, OnOk, not, map, filter};
ghost use Rattle.std.specs.BTreeSet.{IsFromIterResult, IsOrdered, contains};
ghost use Rattle.std.specs.List.{filter_map};
ghost use Rattle.findings.specs.Order.{reported_cmp};
ghost use Rattle.snmp_walk.specs.Missing.{column_row, bytes_row, missing_row, AreMissing};

use crate::parsed_object::ParsedObject;
use findings::{Finding, Part, ReportedLsa, UnusedReason};
use std::alloc::{AllocError, Allocator};
use std::collections::BTreeSet;

/// The row of a column other than the bytes.
fn column_row<A: Allocator + Copy>(parsed: &ParsedObject<A>) -> Option<ReportedLsa>
    ensures { result ≡ column_row parsed.now }
{
    match parsed {
        ParsedObject::Row(row) => Some(*row),
        _ => None,
    }
}

/// The row whose bytes are there, whether they are an LSA or not.
fn bytes_row<A: Allocator + Copy>(parsed: &ParsedObject<A>) -> Option<ReportedLsa>
    ensures { result ≡ bytes_row parsed.now }
{
    match parsed {
        ParsedObject::Lsa(row, _) => Some(*row),
        ParsedObject::Finding(Finding::Unused(row, _)) => Some(*row),
        _ => None,
    }
}

/// The rows that have other columns.
fn columns_of<A: Allocator + Copy>(
    alloc: A,
    parsed: &[ParsedObject<A>],
) -> Result<BTreeSet<ReportedLsa, A>, AllocError>
    ensures { IfOk result
        (λ rows. IsFromIterResult reported_cmp (filter_map column_row parsed.now) rows) }
{
    parsed
        .iter()
        .filter_map(|object| column_row(object))
        .collect(alloc)
}

/// The rows whose bytes are there.
fn bytes_of<A: Allocator + Copy>(
    alloc: A,
    parsed: &[ParsedObject<A>],
) -> Result<BTreeSet<ReportedLsa, A>, AllocError>
    ensures { IfOk result
        (λ rows. IsFromIterResult reported_cmp (filter_map bytes_row parsed.now) rows) }
{
    parsed
        .iter()
        .filter_map(|object| bytes_row(object))
        .collect(alloc)
}

/// The rows that are not among others.
fn without<A: Allocator + Copy>(
    alloc: A,
    rows: &BTreeSet<ReportedLsa, A>,
    others: &BTreeSet<ReportedLsa, A>,
) -> Result<Vec<ReportedLsa, A>, AllocError>
    ensures { IfOk result (λ left. left.items
        ≡ filter (λ row. not (contains reported_cmp others.now row)) rows.now.keys) }
{
    rows.iter()
        .copied()
        .filter(|row| !others.contains(row))
        .collect(alloc)
}

/// The rows that have other columns and no bytes, each once, in order.
pub(crate) fn rows_missing<A: Allocator + Copy>(
    alloc: A,
    parsed: &[ParsedObject<A>],
) -> Result<Vec<ReportedLsa, A>, AllocError>
    ensures { IfOk result (λ rows. AreMissing
        (filter_map column_row parsed.now)
        (filter_map bytes_row parsed.now) rows.items) }
{
    let columns = columns_of(alloc, parsed)?;
    let bytes = bytes_of(alloc, parsed)?;
    without(alloc, &columns, &bytes)
}

/// Adds the rows to what a walk contains.
pub(crate) fn put_missing<A: Allocator + Copy>(
    parts: &mut Vec<Part<A>, A>,
    rows: &[ReportedLsa],
) -> Result<(), AllocError>
    ensures { OnOk result (parts.new.items ≡ parts.old.items ++ map missing_row rows.now) }
{
    for row in rows {
        parts.push(Part::Finding(Finding::Unused(*row, UnusedReason::Missing)))?;
    }
    Ok(())
}
