//! What is kept of the database of a session, after a step of the session.

ghost use Rattle.std.specs.Prelude.{◌≡◌, None, IfSome, MatchOption, filter, not};
ghost use Rattle.std.specs.Map.{remove_entry};
ghost use Rattle.std.specs.Ordering.{eq_by_cmp};
ghost use Rattle.lsa_codec.specs.Order.{area_cmp};
ghost use Rattle.lsdb.specs.declared.section.Section.TheVariants.{AsWide};
ghost use Rattle.lsdb.specs.Lists.{IsDatabase, Lists, lsas_of};
ghost use Rattle.edit_history.specs.Session.{state};
ghost use Rattle.external_routes.specs.ExternalLsas.{AreListedOf};
ghost use Rattle.routing_table.specs.AreasTrees.{AreOfDatabase, IsSpareOf, routers_of};
ghost use Rattle.routing_table.specs.KeptTrees.{less_touched};
ghost use Rattle.unchanged_tables.specs.CostChanges.{IsCostChange};
ghost use Rattle.recalculate.specs.Planning.{IsCacheOf};
ghost use Rattle.recalculate.specs.Reached.{IsReached};
ghost use Rattle.edit_history.specs.Moving.{before, moved_touches};

use crate::study::Study;
use crate::table_cache::TableCache;
use edit_history::Moved;
use external_routes::ExternalLsas;
use routing_table::KeptTrees;
use std::alloc::Allocator;
use unchanged_tables::AreaChange;

impl<A: Allocator + Copy> TableCache<A> {
    /// Follows the last step of a session. The last table goes, and the trees of each area that the
    /// step touched, and the list of the AS-external-LSAs where it changed one. It takes no memory.
    pub(crate) fn follow(&mut self, study: &Study<A>, moved: Moved)
        ensures kept { routers_of self.new.trees ≡ less_touched
            (λ area. moved_touches moved area study.now) (routers_of self.old.trees) }
        ensures cache { IsCacheOf (state (before moved study.now)) self.old
            → IsCacheOf (state study.now) self.new }
        ensures table { self.new.table ≡ None }
    {
        self.last = None;
        drop_externals(&mut self.externals, study, moved);
        drop_trees(&mut self.trees, study, moved);
    }
}

/// Drops the trees of the area in which a change of a cost was made, and keeps its graph as the
/// spare one, after the change. Where no such change is known, no graph is spare. It takes no
/// memory.
fn keep_changed<A: Allocator + Copy>(trees: &mut KeptTrees<A>, alloc: A, change: Option<AreaChange>)
    ensures areas { MatchOption change (trees.new.areas ≡ trees.old.areas) (λ made.
        trees.new.areas ≡ remove_entry (eq_by_cmp area_cmp made.area) trees.old.areas) }
    ensures spare { (olds news : Lists) → IsDatabase news
        → IfSome change (λ made. IsCostChange made.area made.change olds news)
        → AreOfDatabase olds trees.old → IfSome trees.new.spare (IsSpareOf news) }
{
    match change {
        Some(made) => trees.change_area(alloc, made.area, made.change),
        None => trees.drop_spare(),
    }
}

/// Drops the trees of each area that the last step of a session touched. The graph of the area goes
/// with them, unless the step was one edit of the cost of one interface: then it is changed as the
/// step did, and kept as the spare one. It takes no memory.
fn drop_trees<A: Allocator + Copy>(trees: &mut KeptTrees<A>, study: &Study<A>, moved: Moved)
    ensures areas { trees.new.areas
        ≡ filter (λ area. not (moved_touches moved area.0 study.now)) trees.old.areas }
    ensures spare { AreOfDatabase (state (before moved study.now)) trees.old
        → IfSome trees.new.spare (IsSpareOf (state study.now)) }
    ensures reached { IsReached study.now }
{
    keep_changed(trees, study.database().alloc(), study.cost_change(moved));
    trees
        .areas
        .retain(|area, _trees| !study.touches(moved, *area));
}

/// Drops the list of the AS-external-LSAs where the last step of a session changed an LSA of AS
/// scope. It takes no memory.
fn drop_externals<A: Allocator + Copy>(
    externals: &mut Option<ExternalLsas<A>>,
    study: &Study<A>,
    moved: Moved,
)
    ensures { AreListedOf (lsas_of AsWide (state (before moved study.now))) externals.old
        → AreListedOf (lsas_of AsWide (state study.now)) externals.new }
{
    if study.changes_as_scope(moved) {
        *externals = None;
    }
}
