//! The metrics that summary-LSAs should have.

ghost use Rattle.std.specs.Prelude.{◌≡◌, ◌≤◌, ◌==◌, true, not, if◌then◌else◌, Some, None, IfSome};
ghost use Rattle.lsa_codec.specs.Views.{ls_infinity, metric_of};
ghost use Rattle.lsdb.specs.Slots.{lists_of};
ghost use Rattle.area_routes.specs.Inter.{originator_of};
ghost use Rattle.external_routes.specs.Summaries.{is_covered};
ghost use Rattle.area_routes.specs.AreaResults.{results_of};
ghost use Rattle.summary_metrics.specs.SummaryMetrics.{AreInside};
ghost use Rattle.summary_metrics.specs.steps.AnnouncedCosts.{IsAnnouncedFor, cost_by_backbone, due_by_backbone};

use crate::inside::Inside;
use crate::sources::BackboneSummaries;
use external_routes::{asbr_of_summary, metric_for};
use lsa_codec::{AreaId, LS_INFINITY, Lsa};
use lsdb::Database;
use std::alloc::Allocator;

/// The cost of the destination of an LSA of an area, where the LSA's originator announces it into
/// the area.
fn announced_cost<A: Allocator + Copy>(
    database: &Database<A>,
    area: AreaId,
    lsa: &Lsa<A>,
    known: &Inside<A>,
    summaries: &Option<BackboneSummaries<A>>,
) -> Option<u64>
    requires known { AreInside (lists_of database.now) (originator_of lsa.now) known.now }
    requires summaries { IsAnnouncedFor (lists_of database.now) area summaries.now }
    ensures { result ≡ cost_by_backbone (lists_of database.now) area (originator_of lsa.now)
        (results_of (lists_of database.now) (originator_of lsa.now)) lsa.now }
{
    let router = lsa.key().adv;
    match lsa.summary()?.net() {
        Some(net) => known.net_cost(area, router, net, summaries),
        None => {
            let asbr = asbr_of_summary(database, area, lsa)?;
            known.asbr_cost(area, router, asbr, summaries)
        }
    }
}

/// The metric that a summary-LSA of an area should have (RFC 2328, 12.4.3).
fn due<A: Allocator + Copy>(
    database: &Database<A>,
    area: AreaId,
    lsa: &Lsa<A>,
    known: &Inside<A>,
    summaries: &Option<BackboneSummaries<A>>,
) -> u32
    requires known { AreInside (lists_of database.now) (originator_of lsa.now) known.now }
    requires summaries { IsAnnouncedFor (lists_of database.now) area summaries.now }
    ensures due { result ≡ due_by_backbone (lists_of database.now) area lsa.now }
    ensures most { result ≤ ls_infinity }
{
    match announced_cost(database, area, lsa, known, summaries) {
        Some(cost) => metric_for(cost),
        None => LS_INFINITY,
    }
}

/// The metric that a summary-LSA of an area should have, where it has another one, by what is kept
/// for its originator and by the backbone summaries.
pub(crate) fn other_metric<A: Allocator + Copy>(
    database: &Database<A>,
    area: AreaId,
    lsa: &Lsa<A>,
    known: &Inside<A>,
    summaries: &Option<BackboneSummaries<A>>,
) -> Option<u32>
    requires covered { is_covered (lists_of database.now) area lsa.now ≡ true }
    requires known { AreInside (lists_of database.now) (originator_of lsa.now) known.now }
    requires summaries { IsAnnouncedFor (lists_of database.now) area summaries.now }
    ensures metric { result
        ≡ if not (metric_of lsa.now == due_by_backbone (lists_of database.now) area lsa.now)
        then Some (due_by_backbone (lists_of database.now) area lsa.now) else None }
    ensures most { IfSome result (λ metric. metric ≤ ls_infinity) }
{
    let Some(summary) = lsa.summary() else {
        unreachable!()
    };
    let metric = due(database, area, lsa, known, summaries);
    if summary.metric() == metric {
        return None;
    }
    Some(metric)
}
