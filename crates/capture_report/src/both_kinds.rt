//! Areas of which files report two kinds.

ghost use Rattle.std.specs.Prelude.{◌≡◌, IfOk, true, false, filter};
ghost use Rattle.std.specs.BTreeSet.{IsFromIterResult, contains};
ghost use Rattle.std.specs.List.{filter_map};
ghost use Rattle.lsa_codec.specs.Order.{area_cmp};
ghost use Rattle.network_files.specs.Dumps.{areas_of};
ghost use Rattle.capture_report.specs.Contradictions.{AreContradictions, reported_id};

use lsa_codec::AreaId;
use lsa_instances::AreaReport;
use network_files::{ParsedFile, areas_of};
use std::alloc::{AllocError, Allocator};
use std::collections::BTreeSet;

/// The area, if this reports it as a stub area, or, where `is_stub` is false, as another one.
fn reported_id(is_stub: bool, area: AreaReport) -> Option<AreaId>
    ensures { result ≡ reported_id is_stub area }
{
    if area.kind.is_stub() == is_stub {
        Some(area.id)
    } else {
        None
    }
}

/// The areas that are reported as stub areas, or, where `is_stub` is false, as others.
fn reported_ids<A: Allocator + Copy>(
    alloc: A,
    is_stub: bool,
    areas: &[AreaReport],
) -> Result<BTreeSet<AreaId, A>, AllocError>
    ensures { IfOk result (λ ids.
        IsFromIterResult area_cmp (filter_map (reported_id is_stub) areas.now) ids) }
{
    areas
        .iter()
        .filter_map(|area| reported_id(is_stub, *area))
        .collect(alloc)
}

/// The areas that are in both sets.
fn in_both<A: Allocator + Copy>(
    alloc: A,
    ids: &BTreeSet<AreaId, A>,
    others: &BTreeSet<AreaId, A>,
) -> Result<Vec<AreaId, A>, AllocError>
    ensures { IfOk result (λ both.
        both.items ≡ filter (contains area_cmp others.now) ids.now.keys) }
{
    ids.iter()
        .copied()
        .filter(|id| others.contains(id))
        .collect(alloc)
}

/// The areas that are reported both as stub areas and as others.
fn both_reported<A: Allocator + Copy>(
    alloc: A,
    areas: &[AreaReport],
) -> Result<Vec<AreaId, A>, AllocError>
    ensures { IfOk result (λ both. AreContradictions areas.now both.items) }
{
    let stubs = reported_ids(alloc, true, areas)?;
    let others = reported_ids(alloc, false, areas)?;
    in_both(alloc, &stubs, &others)
}

/// The areas that the files report both as stub areas and as others, each once, in rising order.
/// The dump has them as stub areas, except the backbone, which is always ordinary (RFC 2328, 3.6).
///
/// # Errors
///
/// Memory ran out.
pub(crate) fn contradictions<A: Allocator + Copy>(
    alloc: A,
    files: &[ParsedFile<A>],
) -> Result<Vec<AreaId, A>, AllocError>
    ensures { IfOk result (λ both. AreContradictions (areas_of files.now) both.items) }
{
    let areas = areas_of(alloc, files)?;
    both_reported(alloc, &areas)
}
