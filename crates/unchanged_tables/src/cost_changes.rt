//! Changes of one LSA that change the cost of one interface.

ghost use Rattle.std.specs.Prelude.{IfSome, Some};
ghost use Rattle.lsdb.specs.Lists.{IsDatabase};
ghost use Rattle.lsdb.specs.Slots.{lists_of, put};
ghost use Rattle.unchanged_tables.specs.CostChanges.{IsCostChange};

use area_graph::CostChange;
use lsa_codec::{AreaId, Lsa};
use lsdb::{Database, SlotId};
use std::alloc::Allocator;

/// A change of the cost of an interface in an area (RFC 2328, C.3).
#[derive(Clone, Copy, Debug)]
pub struct AreaChange {
    /// The area.
    pub area: AreaId,
    /// The change.
    pub change: CostChange,
}

/// The change of the cost of an interface that the change of one LSA makes, if it makes one and no
/// other. The database is the one after the change, and `before` is the LSA that was at the place.
/// `None` allows no conclusion. It takes no memory.
pub fn cost_change<A: Allocator + Copy>(
    database: &Database<A>,
    slot: SlotId,
    before: &Lsa<A>,
) -> Option<AreaChange>
    requires { IsDatabase (lists_of (put database.now slot (Some before.now))) }
    ensures { IfSome result (λ made. IsCostChange made.area made.change
        (lists_of (put database.now slot (Some before.now))) (lists_of database.now)) }
{
    // Its invariant is needed: the IDs of its areas differ.
    database.assert_valid();
    if slot.section >= database.area_count() {
        return None;
    }
    let (area, _is_stub) = database.area(slot.section);
    let Some(after) = database.get(slot) else {
        return None;
    };
    let Some(change) = CostChange::between(before, after) else {
        return None;
    };
    Some(AreaChange { area, change })
}
