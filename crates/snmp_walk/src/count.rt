//! The LSAs that a walk has, and the numbers of them that its router counts.

ghost use Rattle.std.specs.Prelude.{◌≡◌, ◌+◌, ◌<◌, ◌^◌, ◌++◌, ℕ, Some, IfOk, OnOk, map};
ghost use Rattle.std.specs.BTreeMap.{get, Updates};
ghost use Rattle.std.specs.BTreeSet.{IsFromIterResult};
ghost use Rattle.std.specs.List.{filter_map};
ghost use Rattle.std.specs.Ordering.{nat_cmp};
ghost use Rattle.findings.specs.Order.{reported_cmp};
ghost use Rattle.snmp_walk.specs.Counts.{AreFewer, AreRows, counted_as, counted_number, fewer_by, fewer_part, fewer_than, row_of};
ghost use Rattle.snmp_walk.specs.steps.Numbers.{AreMore, AreNumbers, number_in};

use crate::parsed_object::ParsedObject;
use findings::{Finding, Part, ReportedLsa};
use lsa_codec::{AreaId, EXTERNAL_LSA};
use std::alloc::{AllocError, Allocator};
use std::collections::{BTreeMap, BTreeSet};

/// What no area has as its number: AS-external-LSAs.
const EXTERNALS: u64 = 4_294_967_296;

/// The number of rows of each area, and of AS-external-LSAs.
type Numbers<A> = BTreeMap<u64, usize, A>;

/// A number for what a router counts: the LSAs of an area, or, where there is none, those that are
/// AS-external.
fn counted_number(area: Option<AreaId>) -> u64
    ensures { result ≡ counted_number area }
{
    match area {
        Some(area) => u64::from(area.0),
        None => EXTERNALS,
    }
}

/// What counts the LSA of a row, if something does.
fn counted_as(row: ReportedLsa) -> Option<u64>
    ensures { result ≡ counted_as row }
{
    match row.area {
        None if row.key.kind != EXTERNAL_LSA => None,
        area => Some(counted_number(area)),
    }
}

/// The row of an object, if it is a column of one.
fn row_of<A: Allocator + Copy>(parsed: &ParsedObject<A>) -> Option<ReportedLsa>
    ensures { result ≡ row_of parsed.now }
{
    match parsed {
        ParsedObject::Lsa(row, _) => Some(*row),
        ParsedObject::Row(row) => Some(*row),
        ParsedObject::Finding(Finding::Unused(row, _)) => Some(*row),
        _ => None,
    }
}

/// The rows of a walk, as a set.
fn set_of_rows<A: Allocator + Copy>(
    alloc: A,
    parsed: &[ParsedObject<A>],
) -> Result<BTreeSet<ReportedLsa, A>, AllocError>
    ensures { IfOk result
        (λ rows. IsFromIterResult reported_cmp (filter_map row_of parsed.now) rows) }
{
    parsed.iter().filter_map(|one| row_of(one)).collect(alloc)
}

/// The rows of a set, in order.
fn in_order<A: Allocator + Copy>(
    alloc: A,
    rows: &BTreeSet<ReportedLsa, A>,
) -> Result<Vec<ReportedLsa, A>, AllocError>
    ensures { IfOk result (λ once. once.items ≡ rows.now.keys) }
{
    rows.iter().copied().collect(alloc)
}

/// The rows of a walk, each once, in order.
fn rows_of<A: Allocator + Copy>(
    alloc: A,
    parsed: &[ParsedObject<A>],
) -> Result<Vec<ReportedLsa, A>, AllocError>
    ensures { IfOk result (λ rows. AreRows (filter_map row_of parsed.now) rows.items) }
{
    let rows = set_of_rows(alloc, parsed)?;
    in_order(alloc, &rows)
}

/// The number of rows that are counted so.
fn number_of<A: Allocator + Copy>(numbers: &Numbers<A>, counted: u64) -> usize
    ensures { result ≡ number_in (get nat_cmp numbers.now counted) }
{
    match numbers.get(&counted) {
        Some(number) => *number,
        None => 0,
    }
}

/// Counts a row.
fn put_one<A: Allocator + Copy>(numbers: &mut Numbers<A>, counted: u64) -> Result<(), AllocError>
    requires { number_in (get nat_cmp numbers.old counted) + 1 < 2 ^ 64 }
    ensures { OnOk result (Updates nat_cmp numbers.old numbers.new counted
        (Some (number_in (get nat_cmp numbers.old counted) + 1))) }
{
    let number = number_of(numbers, counted);
    numbers.insert(counted, number + 1)?;
    Ok(())
}

/// Counts a row, if something counts it.
fn put_row<A: Allocator + Copy>(
    numbers: &mut Numbers<A>,
    row: ReportedLsa,
) -> Result<(), AllocError>
    requires { (counted : ℕ) → number_in (get nat_cmp numbers.old counted) + 1 < 2 ^ 64 }
    ensures { OnOk result (AreMore numbers.old row numbers.new) }
{
    match counted_as(row) {
        Some(counted) => put_one(numbers, counted),
        None => Ok(()),
    }
}

/// The numbers of these rows.
fn numbers_of<A: Allocator + Copy>(alloc: A, rows: &[ReportedLsa]) -> Result<Numbers<A>, AllocError>
    ensures { IfOk result (AreNumbers rows.now) }
{
    let mut numbers = BTreeMap::new(alloc);
    for row in rows {
        put_row(&mut numbers, *row)?;
    }
    Ok(numbers)
}

/// The finding that a walk has fewer LSAs than its router counts, if it has.
fn fewer_than(area: Option<AreaId>, found: usize, count: u32) -> Option<Finding>
    ensures { result ≡ fewer_than area found count }
{
    if found < count as usize {
        Some(Finding::Fewer(area, found, count))
    } else {
        None
    }
}

/// The finding about a count, if there are fewer LSAs.
fn fewer_by<A: Allocator + Copy>(numbers: &Numbers<A>, parsed: &ParsedObject<A>) -> Option<Finding>
    ensures { result ≡ fewer_by (λ counted. number_in (get nat_cmp numbers.now counted))
        parsed.now }
{
    match parsed {
        ParsedObject::Count(area, count) => {
            let found = number_of(numbers, counted_number(*area));
            fewer_than(*area, found, *count)
        }
        _ => None,
    }
}

/// The findings about these objects.
fn findings_by<A: Allocator + Copy>(
    alloc: A,
    numbers: &Numbers<A>,
    parsed: &[ParsedObject<A>],
) -> Result<Vec<Finding, A>, AllocError>
    ensures { IfOk result (λ findings. findings.items
        ≡ filter_map (fewer_by (λ counted. number_in (get nat_cmp numbers.now counted)))
        parsed.now) }
{
    parsed
        .iter()
        .filter_map(|object| fewer_by(numbers, object))
        .collect(alloc)
}

/// The findings about counts above the number of LSAs that a walk has, in its order.
pub(crate) fn fewer_in<A: Allocator + Copy>(
    alloc: A,
    parsed: &[ParsedObject<A>],
) -> Result<Vec<Finding, A>, AllocError>
    ensures { IfOk result (λ findings. AreFewer parsed.now findings.items) }
{
    let rows = rows_of(alloc, parsed)?;
    let numbers = numbers_of(alloc, &rows)?;
    findings_by(alloc, &numbers, parsed)
}

/// Adds the findings to what a walk contains.
pub(crate) fn put_fewer<A: Allocator + Copy>(
    parts: &mut Vec<Part<A>, A>,
    findings: &[Finding],
) -> Result<(), AllocError>
    ensures { OnOk result (parts.new.items ≡ parts.old.items ++ map fewer_part findings.now) }
{
    for finding in findings {
        parts.push(Part::Finding(*finding))?;
    }
    Ok(())
}
