//! The summary-LSAs whose metrics follow from the database get the metrics that their originators
//! announce (RFC 2328, 12.4.3): those of the backbone first, and then those of the other areas by
//! the database with the refreshed backbone.

ghost use Rattle.std.specs.Prelude.{◌≡◌, ◌++◌, IsSome, IfOk, IfErr, OnOk, OnErr, option_to_list};
ghost use Rattle.lsdb.specs.declared.section.Section.TheVariants.{Area};
ghost use Rattle.lsdb.specs.Slots.{item_at, slot_at, slots_in, head_or_none, lists_of};
ghost use Rattle.edit_script.specs.declared.edit.Edit.TheVariants.{Refresh};
ghost use Rattle.summary_metrics.specs.SummaryMetrics.{AreOf};
ghost use Rattle.summary_metrics.specs.Refreshed.{is_not_backbone};
ghost use Rattle.edit_history.specs.declared.fault.EditFault.TheVariants.{OutOfMemory};
ghost use Rattle.edit_history.specs.Rules.{section_name};
ghost use Rattle.edit_history.specs.Refreshing.{metric_fate, pass_fates};
ghost use Rattle.edit_history.specs.Exchange.{CanDo, done_slots};
ghost use Rattle.edit_history.specs.steps.Plans.{IsPlan, slot_swap, section_swaps, swaps_from};
ghost use Rattle.edit_history.specs.steps.Passing.{chosen};

use crate::fault::EditFault;
use crate::swap::{Swap, do_swaps, undo_swaps};
use lsa_codec::AreaId;
use lsdb::{Database, Section, SlotId};
use std::alloc::Allocator;
use summary_metrics::SummaryMetrics;

/// The areas of one pass.
#[derive(Clone, Copy)]
enum Pass {
    /// The backbone.
    Backbone,
    /// All areas but the backbone.
    OtherAreas,
}

impl Pass {
    /// Whether an area is among them.
    fn has(self, area: AreaId) -> bool
        ensures { result ≡ chosen self area }
    {
        match self {
            Pass::Backbone => area == AreaId::BACKBONE,
            Pass::OtherAreas => area != AreaId::BACKBONE,
        }
    }
}

/// Adds the swap of a slot of an area, if the LSA there should have another metric. The only error
/// is that memory ran out.
fn add_metric_swap<A: Allocator + Copy>(
    database: &Database<A>,
    slot: SlotId,
    area: AreaId,
    known: &mut SummaryMetrics<A>,
    swaps: &mut Vec<Swap<A>, A>,
) -> Result<(), EditFault>
    requires { AreOf (lists_of database.now) known.old }
    ensures swaps { OnOk result
        (swaps.new.items ≡ swaps.old.items
        ++ option_to_list (slot_swap (metric_fate (lists_of database.now) area) slot (Area area)
        (slot_at database.now slot))) }
    ensures memory { IfErr result (λ fault. fault ≡ OutOfMemory) }
    ensures known { AreOf (lists_of database.now) known.new }
{
    let Some(lsa) = database.get(slot) else {
        return Ok(());
    };
    let alloc = database.alloc();
    let Some(metric) = known.stale_metric(alloc, database, area, lsa)? else {
        return Ok(());
    };
    let new = lsa.with_metric(alloc, metric)?;
    let swap = Swap::new(slot, Section::Area(area), lsa.key().kind, Some(new));
    if swaps.push(swap).is_err() {
        return Err(EditFault::OutOfMemory);
    }
    Ok(())
}

/// Adds the swaps of the slots of an area, by its number and its ID. The only error is that memory
/// ran out.
fn add_area_swaps<A: Allocator + Copy>(
    database: &Database<A>,
    number: usize,
    area: AreaId,
    known: &mut SummaryMetrics<A>,
    swaps: &mut Vec<Swap<A>, A>,
) -> Result<(), EditFault>
    requires number { IsSome (item_at database.now number) }
    requires known { AreOf (lists_of database.now) known.old }
    ensures swaps { OnOk result
        (swaps.new.items ≡ swaps.old.items
        ++ section_swaps (metric_fate (lists_of database.now) area) number (Area area) 0
        (slots_in database.now number)) }
    ensures memory { IfErr result (λ fault. fault ≡ OutOfMemory) }
    ensures known { AreOf (lists_of database.now) known.new }
{
    for index in 0..database.slot_count(number) {
        let slot = SlotId {
            section: number,
            index,
        };
        add_metric_swap(database, slot, area, known, swaps)?;
    }
    Ok(())
}

/// Adds the swaps of the slots of a section, by its number, if it is an area of the pass. The only
/// error is that memory ran out.
fn add_pass_swaps<A: Allocator + Copy>(
    database: &Database<A>,
    number: usize,
    pass: Pass,
    known: &mut SummaryMetrics<A>,
    swaps: &mut Vec<Swap<A>, A>,
) -> Result<(), EditFault>
    requires number { IsSome (item_at database.now number) }
    requires known { AreOf (lists_of database.now) known.old }
    ensures swaps { OnOk result
        (let head = head_or_none (item_at database.now number) in
        swaps.new.items ≡ swaps.old.items
        ++ section_swaps (pass_fates (chosen pass) (lists_of database.now) head) number
        (section_name head) 0 (slots_in database.now number)) }
    ensures memory { IfErr result (λ fault. fault ≡ OutOfMemory) }
    ensures known { AreOf (lists_of database.now) known.new }
{
    let Some((area, _)) = database.area_in(number) else {
        return Ok(());
    };
    if !pass.has(area) {
        return Ok(());
    }
    add_area_swaps(database, number, area, known, swaps)
}

/// The swaps of the LSAs that get another metric in a pass. The only error is that memory ran out.
fn metric_swaps<A: Allocator + Copy>(
    database: &Database<A>,
    pass: Pass,
    known: &mut SummaryMetrics<A>,
) -> Result<Vec<Swap<A>, A>, EditFault>
    requires { AreOf (lists_of database.now) known.old }
    ensures swaps { IfOk result (λ v. v.items
        ≡ swaps_from (pass_fates (chosen pass) (lists_of database.now)) 0 database.now) }
    ensures memory { IfErr result (λ fault. fault ≡ OutOfMemory) }
    ensures known { AreOf (lists_of database.now) known.new }
{
    let mut swaps = Vec::new(database.alloc());
    for number in 0..database.section_count() {
        add_pass_swaps(database, number, pass, known, &mut swaps)?;
    }
    Ok(swaps)
}

/// The swaps of the second pass. The swaps of the first pass are done for it, and undone again,
/// even where memory runs out, which is the only error.
fn other_swaps<A: Allocator + Copy>(
    database: &mut Database<A>,
    first: &mut [Swap<A>],
    known: &mut SummaryMetrics<A>,
) -> Result<Vec<Swap<A>, A>, EditFault>
    requires can { CanDo database.old first.old }
    requires known { AreOf (lists_of (done_slots database.old first.old)) known.old }
    ensures swaps { IfOk result (λ v. let d = done_slots database.old first.old in
        v.items ≡ swaps_from (pass_fates is_not_backbone (lists_of d)) 0 d) }
    ensures memory { IfErr result (λ fault. fault ≡ OutOfMemory) }
    ensures database { database.new ≡ database.old }
    ensures first { first.new ≡ first.old }
{
    // Its invariant is needed after each swap too.
    database.assert_valid();
    do_swaps(database, first);
    let others = metric_swaps(database, Pass::OtherAreas, known);
    undo_swaps(database, first);
    others
}

/// The summary-LSAs whose metrics follow from the database get the metrics that their originators
/// announce (RFC 2328, 12.4.3).
pub(crate) fn plan_refresh<A: Allocator + Copy>(
    database: &mut Database<A>,
) -> Result<Vec<Swap<A>, A>, EditFault>
    ensures plan { IsPlan database.old database.new Refresh (λ v. v.items) result }
    ensures kept { OnErr result (database.new ≡ database.old) }
{
    // Its invariant is needed after each swap too.
    database.assert_valid();
    let mut known = SummaryMetrics::new(database.alloc());
    let mut swaps = metric_swaps(database, Pass::Backbone, &mut known)?;
    known.invalidate_backbone();
    let mut others = other_swaps(database, &mut swaps, &mut known)?;
    swaps.append(&mut others)?;
    Ok(swaps)
}
