//! The findings in all files together.

ghost use Rattle.std.specs.Prelude.{IfOk};
ghost use Rattle.lsdb.specs.Slots.{lists_of};
ghost use Rattle.capture_lines.specs.Reports.{AreNetworkFindings};

use capture_report::{area_findings, database_findings, header_findings};
use findings::Finding;
use lsdb::Database;
use network_files::ParsedFile;
use profile_findings::summary_findings;
use std::alloc::{AllocError, Allocator};

/// The findings in all files together: about the kinds of areas, about LSAs that headers name, and
/// about what the database lacks, or has out of the planner's profile, by its own LSAs.
pub(crate) fn network_findings<A: Allocator + Copy>(
    alloc: A,
    files: &[ParsedFile<A>],
    database: &Database<A>,
) -> Result<Vec<Finding, A>, AllocError>
    ensures { IfOk result
        (λ found. AreNetworkFindings files.now (lists_of database.now) found.items) }
{
    let mut found = area_findings(alloc, database, files)?;
    found.append(&mut header_findings(alloc, files)?)?;
    found.append(&mut database_findings(alloc, database)?)?;
    found.append(&mut summary_findings(alloc, database)?)?;
    Ok(found)
}
