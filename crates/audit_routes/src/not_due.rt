//! Summary-LSAs whose metrics a refresh would change.

ghost use Rattle.std.specs.Prelude.{◌≡◌, ◌++◌, IfOk, OnOk};
ghost use Rattle.std.specs.List.{flat_map};
ghost use Rattle.lsdb.specs.declared.section.Section.TheVariants.{Area};
ghost use Rattle.lsdb.specs.Lists.{lsas_of};
ghost use Rattle.lsdb.specs.Slots.{lists_of};
ghost use Rattle.audit_routes.specs.InOrder.{found_at};
ghost use Rattle.audit_routes.specs.NotDue.{announces_itself, due_metric, is_examined, is_wanted, metric_after, not_due_place, not_due_places, place_by, places_in, refresh_of, summary_metric, summary_not_due_places, summary_raised_places};

use crate::bits::{BIT_E, has_bit_in};
use crate::in_order::{keys_in_order, lsa_with_key};
use crate::refreshed::refreshed;
use audit_areas::push_some;
use audit_places::{Form, Place};
use audit_routers::{RouterList, border_routers};
use link_report::area_ids;
use lsa_codec::{ASBR_SUMMARY_LSA, AreaId, Key, LS_INFINITY, Lsa};
use lsa_names::LsaName;
use lsdb::{Database, Section};
use std::alloc::{AllocError, Allocator};
use std::marker::Model;

/// The metric that a drained border router gives to its summaries: LSInfinity less the greatest
/// cost of a link.
const RAISED_METRIC: u32 = 16_711_680;

/// Which metrics of summary-LSAs are looked at.
#[derive(Clone, Copy, Debug, PartialEq, Eq)]
enum Metrics {
    /// Those that drained border routers give.
    Raised,
    /// All others.
    Others,
}

/// A database, what a refresh makes of it, and its border routers. Contracts see it as the record
/// of these.
#[derive(Drop)]
struct Refresh<'a, A: Allocator> {
    database: &'a Database<A>,
    after: Database<A>,
    borders: RouterList<A>,
}

impl<'a, A: Allocator> Model for Refresh<'a, A> {
    ghost use Rattle.lsdb.specs.Slots.{lists_of};
    ghost use Rattle.audit_routes.specs.NotDue.{RefreshValue};

    ghost Value = { RefreshValue };

    ghost view = { λ r. record {
      db = lists_of r.database.now;
      after = lists_of r.after;
      borders = r.borders;
    } };
}

/// The metric that is announced: none for LSInfinity.
fn due_metric(metric: u32) -> Option<u32>
    ensures { result ≡ due_metric metric }
{
    if metric == LS_INFINITY {
        return None;
    }
    Some(metric)
}

/// The metric of an LSA, if it is a summary-LSA.
fn summary_metric<A: Allocator + Copy>(lsa: &Lsa<A>) -> Option<u32>
    ensures { result ≡ summary_metric lsa.now }
{
    let view = lsa.summary()?;
    Some(view.metric())
}

/// Whether an LSA of an area is a summary-LSA of type 4 by which an AS boundary router announces
/// itself.
fn announces_itself<A: Allocator + Copy>(database: &Database<A>, area: AreaId, lsa: &Lsa<A>) -> bool
    ensures { result ≡ announces_itself (lists_of database.now) area lsa.now }
{
    let key = lsa.key();
    key.kind == ASBR_SUMMARY_LSA
        && key.id.0 == key.adv.0
        && has_bit_in(database, area, key.adv, BIT_E)
}

/// The place of an LSA of an area with a metric, where it is due another one.
fn place_by<A: Allocator + Copy>(
    area: AreaId,
    lsa: &Lsa<A>,
    metric: u32,
    due: u32,
) -> Option<Place<A>>
    ensures { result ≡ place_by area lsa.now metric due }
{
    if due == metric {
        return None;
    }
    Some(Place::of(Form::Due {
        lsa: LsaName::of(Some(area), lsa),
        metric,
        due: due_metric(due),
    }))
}

impl<'a, A: Allocator + Copy> Refresh<'a, A> {
    /// A database and what a refresh makes of it.
    fn of(alloc: A, database: &'a Database<A>) -> Result<Refresh<'a, A>, AllocError>
        ensures { IfOk result (λ refresh. refresh ≡ refresh_of (lists_of database.now)) }
    {
        let after = refreshed(database)?;
        let borders = border_routers(alloc, database)?;
        Ok(Refresh {
            database,
            after,
            borders,
        })
    }

    /// Whether an LSA of an area is a live one of a border router, unless an AS boundary router
    /// announces itself by it.
    fn is_examined(&self, area: AreaId, lsa: &Lsa<A>) -> bool
        ensures { result ≡ is_examined self.now area lsa.now }
    {
        !lsa.at_max_age()
            && self.borders.has(lsa.key().adv)
            && !announces_itself(self.database, area, lsa)
    }

    /// The metric of the LSA with the same key after the refresh.
    fn metric_after(&self, area: AreaId, lsa: &Lsa<A>) -> Option<u32>
        ensures { result ≡ metric_after self.now area lsa.now }
    {
        let after = lsa_with_key(&self.after, Section::Area(area), lsa.key())?;
        summary_metric(after)
    }

    /// The place of an LSA of an area, where the refresh changes its metric.
    fn place_of(&self, metrics: Metrics, area: AreaId, lsa: &Lsa<A>) -> Option<Place<A>>
        ensures { result ≡ not_due_place self.now metrics area lsa.now }
    {
        let metric = summary_metric(lsa)?;
        if !metrics.has(metric) || !self.is_examined(area, lsa) {
            return None;
        }
        let due = self.metric_after(area, lsa)?;
        place_by(area, lsa, metric, due)
    }

    /// The place of the LSA with a key in an area.
    fn place_at(&self, metrics: Metrics, area: AreaId, key: Key) -> Option<Place<A>>
        ensures { result ≡ found_at (not_due_place self.now metrics area)
            (lsas_of (Area area) self.now.db) key }
    {
        let lsa = lsa_with_key(self.database, Section::Area(area), key)?;
        self.place_of(metrics, area, lsa)
    }

    /// Adds the places of the LSAs of an area, in order of their keys.
    fn push_area(
        &self,
        alloc: A,
        places: &mut Vec<Place<A>, A>,
        metrics: Metrics,
        area: AreaId,
    ) -> Result<(), AllocError>
        ensures { OnOk result
            (places.new.items ≡ places.old.items ++ places_in self.now metrics area) }
    {
        let keys = keys_in_order(alloc, self.database.lsas(Section::Area(area)))?;
        for key in &keys {
            push_some(places, self.place_at(metrics, area, *key))?;
        }
        Ok(())
    }

    /// The places of the LSAs of some areas.
    fn places_in_all(
        &self,
        alloc: A,
        metrics: Metrics,
        areas: &[AreaId],
    ) -> Result<Vec<Place<A>, A>, AllocError>
        ensures { IfOk result
            (λ places. places.items ≡ flat_map (places_in self.now metrics) areas.now) }
    {
        let mut places = Vec::new(alloc);
        for area in areas {
            self.push_area(alloc, &mut places, metrics, *area)?;
        }
        Ok(places)
    }
}

impl Metrics {
    /// Whether a metric is one of them.
    fn has(self, metric: u32) -> bool
        ensures { result ≡ is_wanted self metric }
    {
        match self {
            Metrics::Raised => metric == RAISED_METRIC,
            Metrics::Others => metric != RAISED_METRIC,
        }
    }

    /// The summary-LSAs of border routers with such metrics that a refresh would change.
    fn places<A: Allocator + Copy>(
        self,
        alloc: A,
        database: &Database<A>,
    ) -> Result<Vec<Place<A>, A>, AllocError>
        ensures { IfOk result
            (λ places. places.items ≡ not_due_places self (lists_of database.now)) }
    {
        let refresh = Refresh::of(alloc, database)?;
        let areas = area_ids(alloc, database)?;
        refresh.places_in_all(alloc, self, &areas)
    }
}

/// The live summary-LSAs of border routers that have the metric 16711680, as drained routers
/// announce it, and that a refresh would give another metric (RFC 2328, 12.4.3). They are in order
/// of area, then of their keys. A summary-LSA of type 4 by which an AS boundary router announces
/// itself is none of them, since no table uses it.
///
/// # Errors
///
/// Memory ran out.
pub fn summary_raised_places<A: Allocator + Copy>(
    alloc: A,
    database: &Database<A>,
) -> Result<Vec<Place<A>, A>, AllocError>
    ensures { IfOk result (λ found. found.items ≡ summary_raised_places (lists_of database.now)) }
{
    Metrics::Raised.places(alloc, database)
}

/// The other summary-LSAs of border routers that a refresh would give another metric: with any
/// metric but 16711680.
///
/// # Errors
///
/// Memory ran out.
pub fn summary_not_due_places<A: Allocator + Copy>(
    alloc: A,
    database: &Database<A>,
) -> Result<Vec<Place<A>, A>, AllocError>
    ensures { IfOk result (λ found. found.items ≡ summary_not_due_places (lists_of database.now)) }
{
    Metrics::Others.places(alloc, database)
}
