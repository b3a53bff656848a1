//! The findings about the kinds of areas.

ghost use Rattle.std.specs.Prelude.{IfOk};
ghost use Rattle.lsdb.specs.Slots.{lists_of};
ghost use Rattle.capture_report.specs.AreaFindings.{AreAreaFindings};

use crate::both_kinds::contradictions;
use crate::each::put_each;
use crate::no_kind::areas_without_kind;
use findings::Finding;
use lsdb::Database;
use network_files::ParsedFile;
use std::alloc::{AllocError, Allocator};

/// The areas that the files report both as stub areas and as others, and after these the areas of a
/// database of which no file reports the kind; both in rising order, each once.
///
/// The database that these files make has the first ones as stub areas, except the backbone, which
/// is always ordinary (RFC 2328, 3.6), and the others as ordinary areas, though they may be stub
/// areas. The backbone is not among the others: it is never a stub area.
///
/// # Errors
///
/// Memory ran out.
pub fn area_findings<A: Allocator + Copy>(
    alloc: A,
    database: &Database<A>,
    files: &[ParsedFile<A>],
) -> Result<Vec<Finding, A>, AllocError>
    ensures { IfOk result
        (λ findings. AreAreaFindings (lists_of database.now) files.now findings.items) }
{
    let both = contradictions(alloc, files)?;
    let neither = areas_without_kind(alloc, database, files)?;
    let mut findings = Vec::new(alloc);
    put_each(&mut findings, &both, |area| Finding::BothKinds(area))?;
    put_each(&mut findings, &neither, |area| Finding::NoKind(area))?;
    Ok(findings)
}
