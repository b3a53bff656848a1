//! What holds of the definitions.

ghost use Rattle.std.specs.Prelude.{◌≡◌, ◌↔◌, ◌≢◌, [], Contains, Some};
ghost use Rattle.lsa_codec.specs.declared.address.RouterId.{RouterId};
ghost use Rattle.lsdb.specs.Lists.{AreaHead, IsDatabase, Lists};
ghost use Rattle.area_graph.specs.Area.{used};
ghost use Rattle.area_routes.specs.AreaResults.{result_of_reached};
ghost use Rattle.area_routes.specs.Attached.{attached_areas};
ghost use Rattle.area_routes.specs.OverAllPaths.{AreOverAllPaths};
ghost use Rattle.area_routes.specs.Reached.{reached_from};
ghost use Rattle.routing_table.specs.AreaLsas.{lsas_in};
ghost use Rattle.routing_table.specs.Routers.{attached_routers};
ghost use Rattle.routing_table.specs.Tables.{TableValue, result_in, results_in, routes_from, table_in};

/// The routers that [`routers`](crate::routers) gives are exactly those that are attached to an
/// area.
pub fn routers_are_attached()
    ensures { (db : Lists) (router : RouterId) → IsDatabase db
        → Contains (attached_routers db) router ↔ (attached_areas db router ≢ []) }
{}

/// The distances and next hops in the routing table of any database are those over all paths of
/// the areas. The routes come from what each attached area gives; this is given by the vertices
/// that are reached over the area's LSAs in use; and these are over all paths.
pub fn tables_are_over_all_paths()
    ensures routes { (db : Lists) (router : RouterId) (table : TableValue)
        → table_in db router ≡ Some table
        → table.routes ≡ routes_from db router (results_in db router (attached_areas db router)) }
    ensures areas { (db : Lists) (router : RouterId) (area : AreaHead)
        → result_in db router area ≡ result_of_reached (record { 0 = area.id }) router
        (reached_from router (used (lsas_in db area))) }
    ensures paths { (db : Lists) (router : RouterId) (area : AreaHead) → IsDatabase db
        → AreOverAllPaths router (used (lsas_in db area))
        (reached_from router (used (lsas_in db area))) }
{}
