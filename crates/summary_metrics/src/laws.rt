//! What holds of the definitions.

ghost use Rattle.std.specs.Prelude.{◌≡◌};
ghost use Rattle.lsdb.specs.Lists.{IsDatabase, Lists};
ghost use Rattle.summary_metrics.specs.Refreshed.{IsSettled, refreshed};

/// Once the backbone and then the other areas are refreshed, each covered summary-LSA has the
/// metric that it should have in the resulting database, although it was calculated from the
/// database before. So doing it again changes nothing.
///
/// The metrics in the backbone follow from the results of single areas, which do not depend on
/// summary-LSAs. The metrics in other areas follow from these results and from the summary-LSAs of
/// the backbone, since each originator of a covered LSA is attached to several areas.
pub fn summaries_settle()
    ensures settled { (db : Lists) → IsDatabase db → IsSettled (refreshed db) }
    ensures again { (db : Lists) → IsDatabase db → refreshed (refreshed db) ≡ refreshed db }
{}
