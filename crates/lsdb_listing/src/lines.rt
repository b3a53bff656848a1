//! What a list shows, in lines.

ghost use Rattle.std.specs.Prelude.{◌≡◌, ◌++◌, List, IfOk, OnOk, flat_map};
ghost use Rattle.std.specs.String.{string_bytes};
ghost use Rattle.findings.specs.Lines.{finding_lines};
ghost use Rattle.lsdb.specs.Slots.{lists_of};
ghost use Rattle.lsdb_listing.specs.declared.difference.Difference.{Difference as AnyDifference};
ghost use Rattle.lsdb_listing.specs.Once.{AreOnce};
ghost use Rattle.lsdb_listing.specs.Texts.{difference_line, AreLines};

use crate::difference::{Difference, differences};
use crate::list::PrintedList;
use crate::once::each_once;
use findings::{Finding, finding_lines};
use lsdb::Database;
use std::alloc::{AllocError, Allocator};

/// Adds the lines of differences.
fn push_differences<A: Allocator + Copy>(
    text: &mut String<A>,
    name: &str,
    found: &[Difference],
) -> Result<(), AllocError>
    ensures { OnOk result (string_bytes text.new
        ≡ string_bytes text.old ++ flat_map (difference_line name.now) found.now) }
{
    for difference in found {
        write!(text, "{name}: {difference}\n")?;
    }
    Ok(())
}

/// The lines of the findings of a list, and of the differences from it, each difference once.
fn lines_of<A: Allocator + Copy>(
    alloc: A,
    name: &str,
    found: Vec<Difference, A>,
    findings: &[Finding],
) -> Result<String<A>, AllocError>
    ensures { IfOk result (λ text. (once : List AnyDifference) × (AreOnce found.items once
        × (string_bytes text ≡ finding_lines name.now findings.now
        ++ flat_map (difference_line name.now) once))) }
{
    let once = each_once(alloc, found)?;
    let mut text = finding_lines(alloc, name, findings)?;
    push_differences(&mut text, name, &once)?;
    Ok(text)
}

/// The lines that report on a list beside a database, each after the name of the list: what cannot
/// be compared, and then how the database differs from the headers, as
/// [`differences`](crate::differences) answers it. Each difference stands once, however often the
/// list has the header; as `r4.txt: Missing area 0.0.0.1 type 1 id 4.4.4.4 adv 4.4.4.4`. It takes
/// the time of a sort.
///
/// # Errors
///
/// Memory ran out.
pub fn list_lines<A: Allocator + Copy>(
    alloc: A,
    name: &str,
    database: &Database<A>,
    list: &PrintedList<A>,
) -> Result<String<A>, AllocError>
    ensures { IfOk result (λ text. AreLines name.now (lists_of database.now)
        list.now.headers.items list.now.findings.items (string_bytes text)) }
{
    let found = differences(alloc, database, &list.headers)?;
    lines_of(alloc, name, found, &list.findings)
}
