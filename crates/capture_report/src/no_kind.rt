//! Areas of which no file reports the kind.

ghost use Rattle.std.specs.Prelude.{◌≡◌, ◌&&◌, IfOk, filter, not};
ghost use Rattle.std.specs.BTreeSet.{contains};
ghost use Rattle.lsa_codec.specs.Areas.{is_backbone};
ghost use Rattle.lsa_codec.specs.Order.{area_cmp};
ghost use Rattle.lsdb.specs.Slots.{lists_of};
ghost use Rattle.network_files.specs.Dumps.{areas_of};
ghost use Rattle.capture_report.specs.NoKind.{areas_in, ids_of, without_kind};

use crate::areas::{areas_in, areas_of_kinds};
use crate::sets::set_of;
use lsa_codec::AreaId;
use lsdb::Database;
use network_files::{ParsedFile, areas_of};
use std::alloc::{AllocError, Allocator};
use std::collections::BTreeSet;

/// The areas whose kind the files report, one for each report.
fn kind_areas<A: Allocator + Copy>(
    alloc: A,
    files: &[ParsedFile<A>],
) -> Result<Vec<AreaId, A>, AllocError>
    ensures { IfOk result (λ ids. ids.items ≡ ids_of (areas_of files.now)) }
{
    let areas = areas_of(alloc, files)?;
    areas_of_kinds(alloc, &areas)
}

/// The areas except the backbone that are not among others, in the same order.
fn without<A: Allocator + Copy>(
    alloc: A,
    ids: &[AreaId],
    others: &BTreeSet<AreaId, A>,
) -> Result<Vec<AreaId, A>, AllocError>
    ensures { IfOk result (λ left. left.items
        ≡ filter (λ id. not (is_backbone id) && not (contains area_cmp others.now id)) ids.now) }
{
    ids.iter()
        .copied()
        .filter(|id| id.0 != AreaId::BACKBONE.0 && !others.contains(id))
        .collect(alloc)
}

/// The areas of a database of which no file reports the kind, in rising order. The database that
/// these files make has them as ordinary areas, though they may be stub areas. The backbone is not
/// among them: it is never a stub area (RFC 2328, 3.6).
///
/// # Errors
///
/// Memory ran out.
pub(crate) fn areas_without_kind<A: Allocator + Copy>(
    alloc: A,
    database: &Database<A>,
    files: &[ParsedFile<A>],
) -> Result<Vec<AreaId, A>, AllocError>
    ensures { IfOk result (λ ids. ids.items
        ≡ without_kind (areas_of files.now) (areas_in (lists_of database.now))) }
{
    let ids = areas_in(alloc, database)?;
    let kinds = set_of(alloc, &kind_areas(alloc, files)?)?;
    without(alloc, &ids, &kinds)
}
