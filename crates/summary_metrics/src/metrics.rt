//! The metrics that each originator of summary-LSAs should announce.

ghost use Rattle.std.specs.Prelude.{◌≡◌, ◌≤◌, true, IfSome, IfOk, OnOk};
ghost use Rattle.lsa_codec.specs.Areas.{is_backbone};
ghost use Rattle.lsa_codec.specs.Views.{ls_infinity};
ghost use Rattle.lsdb.specs.Lists.{IsDatabase, Lists};
ghost use Rattle.lsdb.specs.Slots.{lists_of};
ghost use Rattle.external_routes.specs.Summaries.{borders, is_covered};
ghost use Rattle.summary_metrics.specs.Refreshed.{refreshed_areas, stale_metric};
ghost use Rattle.summary_metrics.specs.SummaryMetrics.{AreInside, AreOf};
ghost use Rattle.summary_metrics.specs.steps.AnnouncedCosts.{IsAnnouncedFor};

use crate::attached_areas::AttachedAreas;
use crate::by_router::ByRouter;
use crate::due_metric::other_metric;
use crate::inside::Inside;
use crate::sources::BackboneSummaries;
use external_routes::is_calculated;
use lsa_codec::{AreaId, Lsa, RouterId};
use lsdb::{Database, Section};
use routing_table::KeptTrees;
use spf::Meter;
use std::alloc::{AllocError, Allocator};
use std::marker::Model;

/// What was calculated for the originators of summary-LSAs in one database: their areas, their
/// trees, the results of their areas, and the backbone summaries. It is filled when LSAs need it,
/// so that each tree is calculated once.
#[derive(Drop)]
pub struct SummaryMetrics<A: Allocator> {
    attached: ByRouter<AttachedAreas<A>, A>,
    trees: KeptTrees<A>,
    inside: ByRouter<Inside<A>, A>,
    summaries: Option<BackboneSummaries<A>>,
}

impl<A: Allocator> Model for SummaryMetrics<A> {
    ghost use Rattle.summary_metrics.specs.SummaryMetrics.{SummaryMetricsValue};

    ghost Value = { SummaryMetricsValue };

    ghost view = { λ o. record {
      attached = o.attached;
      trees = o.trees;
      inside = o.inside;
      summaries = o.summaries;
    } };
}

impl<A: Allocator + Copy> SummaryMetrics<A> {
    /// With nothing calculated yet. It takes no memory.
    pub fn new(alloc: A) -> SummaryMetrics<A>
        ensures { (db : Lists) → AreOf db result }
    {
        SummaryMetrics {
            attached: ByRouter::new(alloc),
            trees: KeptTrees::new(alloc),
            inside: ByRouter::new(alloc),
            summaries: None,
        }
    }

    /// Builds the graphs of all areas before the areas of the first router are looked up: the
    /// graphs show who is attached without a search through LSAs for each router.
    fn add_graphs(&mut self, alloc: A, database: &Database<A>) -> Result<(), AllocError>
        requires { AreOf (lists_of database.now) self.old }
        ensures { AreOf (lists_of database.now) self.new }
    {
        if !self.attached.is_empty() {
            return Ok(());
        }
        self.trees.add_graphs(alloc, database)
    }

    /// Whether a router is attached to an area and to another one. Its areas are looked up once.
    fn borders(
        &mut self,
        alloc: A,
        database: &Database<A>,
        area: AreaId,
        router: RouterId,
    ) -> Result<bool, AllocError>
        requires { AreOf (lists_of database.now) self.old }
        ensures borders { IfOk result
            (λ does. does ≡ borders (lists_of database.now) area router) }
        ensures of { AreOf (lists_of database.now) self.new }
    {
        if let Some(areas) = self.attached.get(router) {
            return Ok(areas.is_border_of(area));
        }
        let areas = AttachedAreas::of(alloc, database, &self.trees, router)?;
        let borders = areas.is_border_of(area);
        self.attached.push(router, areas)?;
        Ok(borders)
    }

    /// Calculates the results of a router's areas, which are not kept yet.
    fn find_inside(
        &mut self,
        alloc: A,
        database: &Database<A>,
        router: RouterId,
    ) -> Result<Inside<A>, AllocError>
        requires { AreOf (lists_of database.now) self.old }
        ensures of { AreOf (lists_of database.now) self.new }
        ensures inside { IfOk result (AreInside (lists_of database.now) router) }
        ensures summaries { self.new.summaries ≡ self.old.summaries }
    {
        let mut meter = Meter::new();
        let results = self.trees.results_of(alloc, database, router, &mut meter)?;
        Inside::of(alloc, &results)
    }

    /// Reads the backbone summaries, unless they are kept already or the area is the backbone.
    fn listen(&mut self, alloc: A, database: &Database<A>, area: AreaId) -> Result<(), AllocError>
        requires { AreOf (lists_of database.now) self.old }
        ensures of { AreOf (lists_of database.now) self.new }
        ensures summaries { OnOk result
            (IsAnnouncedFor (lists_of database.now) area self.new.summaries) }
    {
        if area == AreaId::BACKBONE || self.summaries.is_some() {
            return Ok(());
        }
        let lsas = database.lsas(Section::Area(AreaId::BACKBONE));
        self.summaries = Some(BackboneSummaries::of(alloc, lsas)?);
        Ok(())
    }

    /// The metric that an LSA should have, where it has another one. The metric follows from the
    /// database. The results of its originator's areas are kept.
    fn covered_metric(
        &mut self,
        alloc: A,
        database: &Database<A>,
        area: AreaId,
        lsa: &Lsa<A>,
    ) -> Result<Option<u32>, AllocError>
        requires of { AreOf (lists_of database.now) self.old }
        requires covered { is_covered (lists_of database.now) area lsa.now ≡ true }
        requires summaries { IsAnnouncedFor (lists_of database.now) area self.old.summaries }
        ensures metric { IfOk result
            (λ metric. metric ≡ stale_metric (lists_of database.now) area lsa.now) }
        ensures most { IfOk result (λ metric. IfSome metric (λ m. m ≤ ls_infinity)) }
        ensures of { AreOf (lists_of database.now) self.new }
    {
        let router = lsa.key().adv;
        if let Some(known) = self.inside.get(router) {
            return Ok(other_metric(database, area, lsa, known, &self.summaries));
        }
        let known = self.find_inside(alloc, database, router)?;
        let metric = other_metric(database, area, lsa, &known, &self.summaries);
        self.inside.push(router, known)?;
        Ok(metric)
    }

    /// Drops the backbone summaries. All else follows from router-LSAs and network-LSAs, so it
    /// stays true of the database with the refreshed backbone. It takes no memory.
    pub fn invalidate_backbone(&mut self)
        ensures { (db : Lists) → IsDatabase db → AreOf db self.old
            → AreOf (refreshed_areas is_backbone db) self.new }
    {
        self.summaries = None;
    }

    /// The metric that a summary-LSA of an area should have (RFC 2328, 12.4.3), where it is stale:
    /// its metric follows from the database, and differs. What is calculated for its originator is
    /// kept for other LSAs of the same database, even after an error.
    ///
    /// # Errors
    ///
    /// Memory ran out.
    pub fn stale_metric(
        &mut self,
        alloc: A,
        database: &Database<A>,
        area: AreaId,
        lsa: &Lsa<A>,
    ) -> Result<Option<u32>, AllocError>
        requires { AreOf (lists_of database.now) self.old }
        ensures metric { IfOk result
            (λ metric. metric ≡ stale_metric (lists_of database.now) area lsa.now) }
        ensures most { IfOk result (λ metric. IfSome metric (λ m. m ≤ ls_infinity)) }
        ensures of { AreOf (lists_of database.now) self.new }
    {
        if !is_calculated(database, area, lsa) {
            return Ok(None);
        }
        self.add_graphs(alloc, database)?;
        if !self.borders(alloc, database, area, lsa.key().adv)? {
            return Ok(None);
        }
        self.listen(alloc, database, area)?;
        self.covered_metric(alloc, database, area, lsa)
    }
}
