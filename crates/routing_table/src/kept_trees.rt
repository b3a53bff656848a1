//! The trees of all areas that are kept from table to table.

ghost use Rattle.std.specs.Prelude.{◌≡◌, ◌≢◌, true, false, [], Some, None, Contains, IsSome, IfSome, IsSomeAnd, MatchOption, IfOk, OnOk, OnErr, length, option_map};
ghost use Rattle.std.specs.Ordering.{eq_by_cmp};
ghost use Rattle.lsa_codec.specs.Order.{area_cmp};
ghost use Rattle.lsa_codec.specs.declared.address.AreaId.{AreaId as AnyArea};
ghost use Rattle.lsa_codec.specs.declared.address.RouterId.{RouterId as AnyRouter};
ghost use Rattle.lsdb.specs.declared.section.Section.TheVariants.{Area};
ghost use Rattle.lsdb.specs.Lists.{lsas_of};
ghost use Rattle.lsdb.specs.Slots.{lists_of};
ghost use Rattle.area_graph.specs.declared.vertex.Vertex.TheVariants.{Router};
ghost use Rattle.area_routes.specs.AreaResults.{area_result, results_of};
ghost use Rattle.area_routes.specs.Attached.{attached_areas, is_attached};
ghost use Rattle.routing_table.specs.AreaTrees.{IsAreaOf, graph_and_stubs, missing};
ghost use Rattle.routing_table.specs.AreasTrees.{AreOfDatabase, trees_at, trees_in};
ghost use Rattle.routing_table.specs.Counting.{counted_by, CountsAtMost};
ghost use Rattle.routing_table.specs.KeptTrees.{areas_without_tree, GainsOnly, IsWithin};

use crate::area_trees::AreaTrees;
use crate::spare_area::SpareArea;
use area_graph::{Graph, GraphFault};
use area_routes::{AreaResult, StubLinks, is_attached};
use lsa_codec::{AreaId, RouterId};
use lsdb::Database;
use spf::Meter;
use std::alloc::{AllocError, Allocator};
use std::collections::BTreeMap;
use std::marker::Model;

/// The graphs and trees that were calculated, by their areas. Contracts see them as the list of
/// these pairs, and beside it the graph of one area whose trees went, if there is one: it is used
/// where a graph of this area is wanted.
#[derive(Drop)]
pub struct KeptTrees<A: Allocator> {
    /// The graph and the trees of each area.
    pub areas: BTreeMap<AreaId, AreaTrees<A>, A>,
    pub(crate) spare: Option<SpareArea<A>>,
}

impl<A: Allocator> Model for KeptTrees<A> {
    ghost use Rattle.routing_table.specs.AreasTrees.{KeptTreesValue};

    ghost Value = { KeptTreesValue };

    ghost view = { λ k. record { areas = k.areas.entries; spare = k.spare } };
}

impl<A: Allocator + Copy> KeptTrees<A> {
    /// No trees. It takes no memory.
    pub fn new(alloc: A) -> KeptTrees<A>
        ensures { result ≡ record { areas = []; spare = None } }
    {
        KeptTrees {
            areas: BTreeMap::new(alloc),
            spare: None,
        }
    }

    /// The graph and the trees of an area, if they are there. It takes no memory.
    pub fn in_area(&self, area: AreaId) -> Option<&AreaTrees<A>>
        ensures { MatchOption result (trees_at self.now area ≡ None)
            (λ trees. trees_at self.now area ≡ Some trees.now) }
    {
        self.areas.get(&area)
    }

    /// Whether a router is attached to an area, as [`is_attached`] answers it, but without going
    /// through the LSAs of an area whose graph is there. It takes no memory.
    pub fn is_attached(&self, database: &Database<A>, area: AreaId, router: RouterId) -> bool
        requires { AreOfDatabase (lists_of database.now) self.now }
        ensures { result ≡ is_attached (lists_of database.now) area router }
    {
        // For what holds of its areas: an attached router is a vertex of the graph.
        database.assert_valid();
        match self.areas.get(&area) {
            Some(trees) => trees.has_router(router),
            None => is_attached(database, area, router),
        }
    }

    /// The graph of an area, with the area's stub links, and without trees: the one that is spare,
    /// or one that is made. `None` where the database lacks the area.
    fn new_area(
        &mut self,
        alloc: A,
        database: &Database<A>,
        area: AreaId,
    ) -> Result<Option<AreaTrees<A>>, AllocError>
        requires { AreOfDatabase (lists_of database.now) self.old }
        ensures graphs { AreOfDatabase (lists_of database.now) self.new }
        ensures areas { self.new.areas ≡ self.old.areas }
        ensures area { IfOk result (λ made. IfSome made
            (IsAreaOf (lsas_of (Area area) (lists_of database.now)))) }
        ensures trees { IfOk result (λ made. IfSome made (λ trees. trees.trees ≡ [])) }
        ensures lacking { IfOk result (λ made. made ≡ None → (router : AnyRouter)
            → is_attached (lists_of database.now) area router ≡ false) }
    {
        if let Some(trees) = self.take_spare(area) {
            return Ok(Some(trees));
        }
        let graph = match Graph::build(alloc, database, area) {
            Ok(graph) => graph,
            Err(GraphFault::NoArea) => return Ok(None),
            Err(GraphFault::OutOfMemory) => return Err(AllocError),
        };
        let stubs = StubLinks::of(alloc, database, area)?;
        Ok(Some(AreaTrees::new(alloc, graph, stubs)))
    }

    /// Makes the graph of an area, unless it is there, or the database lacks the area.
    fn add_graph(
        &mut self,
        alloc: A,
        database: &Database<A>,
        area: AreaId,
    ) -> Result<(), AllocError>
        requires { AreOfDatabase (lists_of database.now) self.old }
        ensures graphs { AreOfDatabase (lists_of database.now) self.new }
        ensures trees { (other : AnyArea) (root : AnyRouter)
            → trees_in self.new other root ≡ trees_in self.old other root }
        ensures there { OnOk result ((router : AnyRouter)
            → is_attached (lists_of database.now) area router ≡ true
            → IsSome (trees_at self.new area)) }
    {
        if self.areas.contains_key(&area) {
            return Ok(());
        }
        let Some(trees) = self.new_area(alloc, database, area)? else {
            return Ok(());
        };
        self.areas.insert(area, trees)?;
        Ok(())
    }

    /// Makes the graphs of all areas that are not there.
    pub fn add_graphs(&mut self, alloc: A, database: &Database<A>) -> Result<(), AllocError>
        requires { AreOfDatabase (lists_of database.now) self.old }
        ensures graphs { AreOfDatabase (lists_of database.now) self.new }
        ensures trees { (other : AnyArea) (root : AnyRouter)
            → trees_in self.new other root ≡ trees_in self.old other root }
    {
        for i in 0..database.area_count() {
            let (area, _is_stub) = database.area(i);
            self.add_graph(alloc, database, area)?;
        }
        Ok(())
    }

    /// Calculates the tree of a router in an area whose graph is there and has the router, unless
    /// it is there.
    fn grow_in(
        &mut self,
        alloc: A,
        area: AreaId,
        router: RouterId,
        meter: &mut Meter,
    ) -> Result<(), AllocError>
        requires { IsSomeAnd (trees_at self.old area)
            (λ trees. Contains trees.graph.vertices (Router router)) }
        ensures graphs { (other : AnyArea)
            → option_map graph_and_stubs (trees_at self.new other)
            ≡ option_map graph_and_stubs (trees_at self.old other) }
        ensures spare { self.new.spare ≡ self.old.spare }
        ensures keeps { IsWithin (trees_in self.old) (trees_in self.new) }
        ensures others { (other : AnyArea) → other ≢ area → (root : AnyRouter)
            → trees_in self.new other root ≡ trees_in self.old other root }
        ensures no_more { GainsOnly (eq_by_cmp area_cmp area) router (trees_in self.old)
            (trees_in self.new) }
        ensures grown { OnOk result (trees_in self.new area router ≡ true) }
        ensures meter { OnOk result (meter.new
            ≡ counted_by (missing (trees_in self.old area router)) meter.old) }
        ensures at_most { CountsAtMost (missing (trees_in self.old area router))
            meter.old meter.new }
    {
        match self.areas.get_mut(&area) {
            Some(trees) => trees.grow(alloc, router, meter),
            None => unreachable!(),
        }
    }

    /// Calculates the tree of a router in an area to which it is attached, unless it is there. The
    /// meter counts a tree that is calculated.
    fn grow(
        &mut self,
        alloc: A,
        database: &Database<A>,
        area: AreaId,
        router: RouterId,
        meter: &mut Meter,
    ) -> Result<(), AllocError>
        requires attached { is_attached (lists_of database.now) area router ≡ true }
        requires graphs { AreOfDatabase (lists_of database.now) self.old }
        ensures graphs { AreOfDatabase (lists_of database.now) self.new }
        ensures keeps { IsWithin (trees_in self.old) (trees_in self.new) }
        ensures others { (other : AnyArea) → other ≢ area → (root : AnyRouter)
            → trees_in self.new other root ≡ trees_in self.old other root }
        ensures no_more { GainsOnly (eq_by_cmp area_cmp area) router (trees_in self.old)
            (trees_in self.new) }
        ensures grown { OnOk result (trees_in self.new area router ≡ true) }
        ensures meter { OnOk result (meter.new
            ≡ counted_by (missing (trees_in self.old area router)) meter.old) }
        ensures at_most { CountsAtMost (missing (trees_in self.old area router))
            meter.old meter.new }
    {
        // For the order of its areas and its keys: an attached router is a vertex of the graph.
        database.assert_valid();
        self.add_graph(alloc, database, area)?;
        self.grow_in(alloc, area, router, meter)
    }

    /// What an area gives to a router whose tree is there.
    fn result_of(
        &self,
        alloc: A,
        database: &Database<A>,
        area: AreaId,
        router: RouterId,
    ) -> Result<AreaResult<A>, AllocError>
        requires graphs { AreOfDatabase (lists_of database.now) self.now }
        requires tree { trees_in self.now area router ≡ true }
        ensures { IfOk result (λ given. given
            ≡ area_result area (lsas_of (Area area) (lists_of database.now)) router) }
    {
        match self.areas.get(&area) {
            Some(trees) => trees.result_of(alloc, database, area, router),
            None => unreachable!(),
        }
    }

    /// What the areas give to which a router is attached, in rising order of their IDs. The
    /// router's trees that are not there are calculated and kept, and the meter counts them. No
    /// tree of another router or area comes, and none goes, also where memory runs out.
    pub fn results_of(
        &mut self,
        alloc: A,
        database: &Database<A>,
        router: RouterId,
        meter: &mut Meter,
    ) -> Result<Vec<AreaResult<A>, A>, AllocError>
        requires { AreOfDatabase (lists_of database.now) self.old }
        ensures results { IfOk result (λ results. results.items
            ≡ results_of (lists_of database.now) router) }
        ensures memory { OnErr result (attached_areas (lists_of database.now) router ≢ []) }
        ensures graphs { AreOfDatabase (lists_of database.now) self.new }
        ensures keeps { IsWithin (trees_in self.old) (trees_in self.new) }
        ensures no_more { GainsOnly (λ area. is_attached (lists_of database.now) area router)
            router (trees_in self.old) (trees_in self.new) }
        ensures grown { OnOk result (areas_without_tree (trees_in self.new) router
            (attached_areas (lists_of database.now) router) ≡ []) }
        ensures meter { OnOk result (meter.new ≡ counted_by (length (areas_without_tree
            (trees_in self.old) router (attached_areas (lists_of database.now) router)))
            meter.old) }
        ensures at_most { CountsAtMost (length (areas_without_tree (trees_in self.old) router
            (attached_areas (lists_of database.now) router))) meter.old meter.new }
    {
        // For the order of its areas: their IDs differ, so a tree in one of them is in no other.
        database.assert_valid();
        let mut results = Vec::new(alloc);
        for i in 0..database.area_count() {
            let (area, _is_stub) = database.area(i);
            if self.is_attached(database, area, router) {
                self.grow(alloc, database, area, router, meter)?;
                results.push(self.result_of(alloc, database, area, router)?)?;
            }
        }
        Ok(results)
    }
}
