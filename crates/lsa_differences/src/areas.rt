//! Areas that differ.

ghost use Rattle.std.specs.Prelude.{◌≡◌, [], ◌∷◌, ◌++◌, IfOk, OnOk, map};
ghost use Rattle.lsa_codec.specs.Order.{area_cmp};
ghost use Rattle.lsdb.specs.Slots.{lists_of};
ghost use Rattle.area_graph.specs.Rising.{rising};
ghost use Rattle.link_report.specs.Areas.{area_ids};
ghost use Rattle.lsa_differences.specs.declared.line.DifferenceLine.TheVariants as variant;
ghost use Rattle.lsa_differences.specs.Differences.{area_changes, kind_changes};

use crate::line::{AreaChange, DifferenceLine};
use link_report::{area_ids, rising};
use lsa_codec::AreaId;
use lsdb::Database;
use std::alloc::{AllocError, Allocator};

/// The areas of two databases, in rising order of their IDs.
pub(crate) fn areas_of_both<A: Allocator + Copy>(
    alloc: A,
    before: &Database<A>,
    now: &Database<A>,
) -> Result<Vec<AreaId, A>, AllocError>
    ensures { IfOk result (λ areas. areas.items ≡ rising area_cmp
        (area_ids (lists_of before.now) ++ area_ids (lists_of now.now))) }
{
    let mut areas = area_ids(alloc, before)?;
    let mut more = area_ids(alloc, now)?;
    areas.append(&mut more)?;
    rising(alloc, &areas)
}

/// Adds how an area differs.
fn push_change<A: Allocator + Copy>(
    lines: &mut Vec<DifferenceLine, A>,
    area: AreaId,
    change: AreaChange,
) -> Result<(), AllocError>
    ensures { OnOk result
        (lines.new.items ≡ lines.old.items ++ variant.Area area change ∷ []) }
{
    lines.push(DifferenceLine::Area(area, change))?;
    Ok(())
}

/// Adds that an area is of another kind than it was, if it is.
fn push_kind<A: Allocator + Copy>(
    lines: &mut Vec<DifferenceLine, A>,
    area: AreaId,
    before: bool,
    now: bool,
) -> Result<(), AllocError>
    ensures { OnOk result (lines.new.items
        ≡ lines.old.items ++ map (variant.Area area) (kind_changes before now)) }
{
    if before == now {
        return Ok(());
    }
    push_change(lines, area, AreaChange::Kind(now))
}

/// Adds how an area differs, where it was a stub area or not, and is one now or not.
pub(crate) fn push_area<A: Allocator + Copy>(
    lines: &mut Vec<DifferenceLine, A>,
    area: AreaId,
    before: Option<bool>,
    now: Option<bool>,
) -> Result<(), AllocError>
    ensures { OnOk result (lines.new.items
        ≡ lines.old.items ++ map (variant.Area area) (area_changes before now)) }
{
    match (before, now) {
        (None, None) => Ok(()),
        (None, Some(now)) => push_change(lines, area, AreaChange::New(now)),
        (Some(before), None) => push_change(lines, area, AreaChange::Gone(before)),
        (Some(before), Some(now)) => push_kind(lines, area, before, now),
    }
}
