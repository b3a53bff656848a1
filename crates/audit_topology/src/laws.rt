//! What holds of the definitions.

ghost use Rattle.std.specs.Prelude.{◌≡◌, ◌↔◌, true, Contains};
ghost use Rattle.lsa_codec.specs.declared.address.RouterId.{RouterId};
ghost use Rattle.audit_areas.specs.Areas.{AreaValue, edges_in, routers_in};
ghost use Rattle.audit_topology.specs.Parts.{are_together, is_path_between, parts_of};

/// There is a path between two routers of an area exactly where they are in one of its parts: parts
/// are made from the lowest router on, and paths lead both ways (RFC 2328, 16.1).
pub fn parts_are_joined_by_paths()
    ensures { (area : AreaValue) (one other : RouterId)
        → Contains (routers_in area) one → Contains (routers_in area) other
        → (is_path_between (edges_in area) one other ≡ true)
        ↔ (are_together one other (parts_of area) ≡ true) }
{}
