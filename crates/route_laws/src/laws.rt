//! What holds of the definitions.

ghost use Rattle.std.specs.Prelude.{◌≡◌, List, Some};
ghost use Rattle.lsa_codec.specs.Prefix.{Net};
ghost use Rattle.lsa_codec.specs.declared.address.RouterId.{RouterId};
ghost use Rattle.lsdb.specs.Lists.{AreaHead, IsDatabase, Lists};
ghost use Rattle.area_routes.specs.Attached.{attached_areas};
ghost use Rattle.best_ways.specs.Candidate.{Candidate};
ghost use Rattle.area_routes.specs.Inter.{inter_of};
ghost use Rattle.area_routes.specs.Intra.{intra_of};
ghost use Rattle.best_ways.specs.Routes.{routes_of};
ghost use Rattle.best_ways.specs.Values.{RouteValue};
ghost use Rattle.external_routes.specs.External.{externals_of};
ghost use Rattle.routing_table.specs.Preferring.{preferring};
ghost use Rattle.routing_table.specs.Tables.{TableValue, results_in, table_in};
ghost use Rattle.route_laws.specs.AllWays.{best_inside, entries_inside, ways_between, ways_within};
ghost use Rattle.route_laws.specs.BestRoutes.{AreBestRoutes};

use area_routes::{entries_stand_once, rank_order, ways_are_best};
use lsa_codec::{Prefix, orders};
use routing_table::tables_are_over_all_paths;

/// The intra-area routes of a router are the best of all ways within all its areas: to each prefix
/// the least cost of each network and of each stub link in each area, with exactly the areas and
/// the next hops of those that have this cost (RFC 2328, 16.1).
pub fn intra_routes_are_best()
    ensures best { (db : Lists) (router : RouterId) (areas : List AreaHead)
        → AreBestRoutes (ways_within db router areas) (intra_of (results_in db router areas)) }
    ensures same { (db : Lists) (router : RouterId) (areas : List AreaHead)
        → intra_of (results_in db router areas) ≡ routes_of (ways_within db router areas) }
{
    rank_order();
    orders();
    ways_are_best::<Prefix>();
}

/// The inter-area routes of a router are the best of all ways over all area border routers by all
/// summary-LSAs that are used of the area that is examined: to each prefix the least sum of an
/// entry's cost and an LSA's metric, with exactly the next hops of the entries that give it
/// (RFC 2328, 16.2).
pub fn inter_routes_are_best()
    ensures { (db : Lists) (router : RouterId) (intra : List RouteValue) → IsDatabase db
        → AreBestRoutes
        (ways_between db router (results_in db router (attached_areas db router)) intra)
        (inter_of db router (results_in db router (attached_areas db router)) intra).routes }
{
    orders();
    ways_are_best::<Prefix>();
    entries_stand_once();
}

/// To the best of some ways there is one list of routes.
pub fn best_routes_are_one()
    ensures { (ways : List (Candidate Net)) (routes : List RouteValue)
        → AreBestRoutes ways routes → routes ≡ routes_of ways }
{
    orders();
    ways_are_best::<Prefix>();
}

/// The routing table of a router has to each prefix the best of all ways within its areas; where
/// there is none, the best of all ways between areas; and else the external route, which comes from
/// these and from the router entries (RFC 2328, 11 and 16).
pub fn tables_have_best_routes()
    ensures { (db : Lists) (router : RouterId) (table : TableValue) → IsDatabase db
        → table_in db router ≡ Some table
        → table.routes ≡ preferring (best_inside db router (attached_areas db router))
        (externals_of db router (best_inside db router (attached_areas db router))
        (entries_inside db router (attached_areas db router))) }
{
    rank_order();
    orders();
    ways_are_best::<Prefix>();
    entries_stand_once();
    tables_are_over_all_paths();
}
