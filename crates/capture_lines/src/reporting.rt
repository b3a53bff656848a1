//! All lines of a run.

ghost use Rattle.std.specs.Prelude.{IfOk, map};
ghost use Rattle.std.specs.List.{zip};
ghost use Rattle.std.specs.String.{string_bytes};
ghost use Rattle.lsdb.specs.Slots.{lists_of};
ghost use Rattle.capture_lines.specs.Reports.{AreReported};

use crate::against::against_lines;
use crate::network::network_findings;
use crate::report::Report;
use capture_report::NetworkDump;
use lsdb_listing::PrintedList;
use std::alloc::{AllocError, Allocator};

/// What findings in all files together are found in.
const DATABASE: &str = "database";

/// The lines of a run over files of these names, in their order, whose database is compared with
/// the lists of these names: what each file contains; and notices and warnings, those in each file,
/// those in all files together, and those beside the lists.
///
/// # Errors
///
/// Memory ran out.
pub fn reported<A: Allocator + Copy>(
    alloc: A,
    made: &NetworkDump<A>,
    names: &[&str],
    list_names: &[&str],
    lists: &[PrintedList<A>],
) -> Result<Report<A>, AllocError>
    ensures { IfOk result (λ report. AreReported made.now.files.items (lists_of made.now.database)
        (zip (map (λ name. name.now) names.now) made.now.files.items)
        (zip (map (λ name. name.now) list_names.now) lists.now)
        (string_bytes report.files) (string_bytes report.notices)
        (string_bytes report.warnings)) }
{
    let mut report = Report::of_files(alloc, names, &made.files)?;
    let found = network_findings(alloc, &made.files, &made.database)?;
    report.put(alloc, DATABASE, &found)?;
    let listed = against_lines(alloc, list_names, lists, &made.database)?;
    report.warnings.push_str(listed.as_str())?;
    Ok(report)
}
