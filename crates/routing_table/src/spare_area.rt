//! The graph of one area whose trees went, which waits for the next table.

ghost use Rattle.std.specs.Prelude.{◌≡◌, [], None, IfSome};
ghost use Rattle.std.specs.Map.{remove_entry};
ghost use Rattle.std.specs.Ordering.{eq_by_cmp};
ghost use Rattle.lsa_codec.specs.Order.{area_cmp};
ghost use Rattle.lsdb.specs.declared.section.Section.TheVariants.{Area};
ghost use Rattle.lsdb.specs.Lists.{Lists, lsas_of};
ghost use Rattle.area_graph.specs.CostChanges.{AreChanged};
ghost use Rattle.area_graph.specs.Graphs.{AreOfArea};
ghost use Rattle.routing_table.specs.AreaTrees.{IsAreaOf};
ghost use Rattle.routing_table.specs.AreasTrees.{AreOfDatabase, IsSpareOf};

use crate::area_trees::AreaTrees;
use crate::kept_trees::KeptTrees;
use area_graph::CostChange;
use lsa_codec::AreaId;
use std::alloc::Allocator;
use std::marker::Model;

/// An area, and its graph and stub links, without trees.
#[derive(Drop)]
pub(crate) struct SpareArea<A: Allocator> {
    area: AreaId,
    trees: AreaTrees<A>,
}

impl<A: Allocator> Model for SpareArea<A> {
    ghost use Rattle.lsa_codec.specs.declared.address.AreaId.{AreaId as AnyArea};
    ghost use Rattle.routing_table.specs.AreaTrees.{AreaTreesValue};

    ghost Value = { AnyArea × AreaTreesValue };

    ghost view = { λ s. (s.area, s.trees) };
}

impl<A: Allocator + Copy> KeptTrees<A> {
    /// Takes out the graph that is spare, if it is that of an area. It takes no memory.
    pub(crate) fn take_spare(&mut self, area: AreaId) -> Option<AreaTrees<A>>
        ensures areas { self.new.areas ≡ self.old.areas }
        ensures graphs { (db : Lists) → AreOfDatabase db self.old → AreOfDatabase db self.new }
        ensures area { IfSome result (λ trees. (db : Lists) → AreOfDatabase db self.old
            → IsAreaOf (lsas_of (Area area) db) trees) }
        ensures trees { IfSome result (λ trees. (db : Lists) → AreOfDatabase db self.old
            → trees.trees ≡ []) }
    {
        let spare = self.spare.take()?;
        if spare.area != area {
            self.spare = Some(spare);
            return None;
        }
        Some(spare.trees)
    }

    /// Takes the graph and the trees of an area out, where they are there, or else the graph that
    /// is spare, if it is that of the area. It takes no memory.
    fn take_area(&mut self, area: AreaId) -> Option<AreaTrees<A>>
        ensures areas { self.new.areas ≡ remove_entry (eq_by_cmp area_cmp area) self.old.areas }
        ensures area { IfSome result (λ trees. (db : Lists) → AreOfDatabase db self.old
            → IsAreaOf (lsas_of (Area area) db) trees) }
    {
        match self.areas.remove(&area) {
            Some(trees) => Some(trees),
            None => self.take_spare(area),
        }
    }

    /// Drops the trees of an area, where the cost of one interface was changed in it, and keeps its
    /// graph after the change as the spare one. Where the graph does not take the change, or is not
    /// there, none is spare. It takes no memory.
    pub fn change_area(&mut self, alloc: A, area: AreaId, change: CostChange)
        ensures areas { self.new.areas ≡ remove_entry (eq_by_cmp area_cmp area) self.old.areas }
        ensures spare { (olds news : Lists) → AreOfArea (lsas_of (Area area) news)
            → AreChanged change (lsas_of (Area area) olds) (lsas_of (Area area) news)
            → AreOfDatabase olds self.old → IfSome self.new.spare (IsSpareOf news) }
    {
        let changed = match self.take_area(area) {
            Some(trees) => trees.after_change(alloc, change),
            None => None,
        };
        self.spare = match changed {
            Some(trees) => Some(SpareArea { area, trees }),
            None => None,
        };
    }

    /// Drops the graph that is spare. It takes no memory.
    pub fn drop_spare(&mut self)
        ensures areas { self.new.areas ≡ self.old.areas }
        ensures spare { self.new.spare ≡ None }
    {
        self.spare = None;
    }
}
