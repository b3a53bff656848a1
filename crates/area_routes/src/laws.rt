//! Laws: what holds of the definitions that the contracts of this crate cite. Each is a function
//! that does nothing, and its contract is the law.

ghost use Rattle.std.specs.Prelude.{◌≡◌, ◌↔◌, ℕ, true, All, Contains, List};
ghost use Rattle.lsa_codec.specs.Accepted.{IsAccepted};
ghost use Rattle.lsa_codec.specs.declared.address.AreaId.{AreaId};
ghost use Rattle.lsa_codec.specs.declared.address.RouterId.{RouterId};
ghost use Rattle.lsdb.specs.declared.section.Section.TheVariants.{Area};
ghost use Rattle.lsdb.specs.Lists.{IsDatabase, Lists, lsas_of};
ghost use Rattle.area_graph.specs.Area.{vertices_of};
ghost use Rattle.area_graph.specs.declared.vertex.Vertex.TheVariants.{Router};
ghost use Rattle.area_routes.specs.AreaResults.{results_of};
ghost use Rattle.area_routes.specs.Attached.{is_attached};
ghost use Rattle.area_routes.specs.EntriesOnce.{StandOnce};
ghost use Rattle.area_routes.specs.Inter.{inter_of};
ghost use Rattle.area_routes.specs.OverAllPaths.{AreOverAllPaths};
ghost use Rattle.area_routes.specs.Reached.{reached_from};
ghost use Rattle.best_ways.specs.Values.{RouteValue};

/// The vertices that are reached from a router over accepted LSAs, their distances and their next
/// hops are those over all paths of the area, of any length: the vertices to which a path leads,
/// and no others, each at the least cost of all paths, with exactly the first hops of all paths of
/// this cost.
pub fn reached_over_all_paths()
    ensures { (root : RouterId) (lsas : List (List ℕ)) → All IsAccepted lsas
        → AreOverAllPaths root lsas (reached_from root lsas) }
{}

/// A router is attached to an area exactly where it is a vertex of the area's graph.
pub fn attached_routers_are_vertices()
    ensures { (db : Lists) → IsDatabase db → (area : AreaId) (router : RouterId)
        → (is_attached db area router ≡ true)
        ↔ Contains (vertices_of (lsas_of (Area area) db)) (Router router) }
{}

/// In the entries of a router there is at most one for each router, area and kind (RFC 2328, 16.2).
pub fn entries_stand_once()
    ensures { (db : Lists) → IsDatabase db → (router : RouterId) (intra : List RouteValue)
        → StandOnce (inter_of db router (results_of db router) intra).routers }
{}
