//! What holds of the definitions.

ghost use Rattle.std.specs.Prelude.{◌≡◌, ℕ, List, All};
ghost use Rattle.lsa_codec.specs.declared.address.AreaId.{AreaId};
ghost use Rattle.lsa_codec.specs.declared.address.RouterId.{RouterId};
ghost use Rattle.lsa_codec.specs.Accepted.{IsAccepted};
ghost use Rattle.lsdb.specs.Lists.{IsDatabase, Lists};
ghost use Rattle.area_routes.specs.AreaResults.{area_result};
ghost use Rattle.routing_table.specs.Tables.{table_in};
ghost use Rattle.unchanged_tables.specs.Slack.{AreSteadyLsas};
ghost use Rattle.unchanged_tables.specs.Steady.{AreSteady, distances_from};

/// Steady changes of an area's LSAs leave what a router gets from the area as it is.
pub fn steady_changes_leave_results()
    ensures { (area : AreaId) (router : RouterId) (lsas others : List (List ℕ))
        → All IsAccepted lsas → All IsAccepted others
        → AreSteadyLsas (distances_from router lsas) lsas others
        → area_result area others router ≡ area_result area lsas router }
{}

/// Steady changes leave the routing table of a router as it is.
pub fn steady_changes_leave_tables()
    ensures { (router : RouterId) (olds news : Lists) → IsDatabase olds → IsDatabase news
        → AreSteady router olds news → table_in news router ≡ table_in olds router }
{}
