//! What holds of the definitions.

ghost use Rattle.std.specs.Prelude.{◌≡◌, ◌≢◌, ◌↔◌, true, [], List, All, Contains};
ghost use Rattle.lsa_codec.specs.declared.address.AreaId.{AreaId as AnyArea};
ghost use Rattle.lsa_codec.specs.declared.link.LinkKind.TheVariants.{PointToPoint};
ghost use Rattle.lsa_codec.specs.declared.address.RouterId.{RouterId as AnyRouter};
ghost use Rattle.lsa_codec.specs.Making.{leads_to};
ghost use Rattle.lsdb.specs.declared.section.Section.TheVariants.{Area};
ghost use Rattle.lsdb.specs.Lists.{Lists, IsDatabase, lsas_of};
ghost use Rattle.area_graph.specs.declared.vertex.Vertex.TheVariants.{Router};
ghost use Rattle.area_graph.specs.Area.{used};
ghost use Rattle.area_graph.specs.Joins.{HasLinkTo};
ghost use Rattle.interfaces.specs.declared.interface.Interface.{Interface as AnyInterface};
ghost use Rattle.interfaces.specs.FarEnds.{face_each_other, far_ends, far_ends_in};

/// The far ends of a point-to-point link are links of the neighbor that lead back to the router,
/// and there are some where one leads back. Where one of these faces the interface, all that face
/// it are far ends, and no others. Other links have no far ends.
pub fn far_ends_lead_back()
    ensures back { (router : AnyRouter) (own : AnyInterface) (theirs : List AnyInterface)
        → All (λ x. Contains theirs x × (leads_to router x.link ≡ true))
        (far_ends router own theirs) }
    ensures some { (router : AnyRouter) (own x : AnyInterface) (theirs : List AnyInterface)
        → own.link.kind ≡ PointToPoint → Contains theirs x → leads_to router x.link ≡ true
        → far_ends router own theirs ≢ [] }
    ensures facing { (router : AnyRouter) (own x : AnyInterface) (theirs : List AnyInterface)
        → own.link.kind ≡ PointToPoint → Contains theirs x → leads_to router x.link ≡ true
        → face_each_other own x ≡ true → Contains (far_ends router own theirs) x
        × All (λ y. face_each_other own y ≡ true) (far_ends router own theirs) }
    ensures others { (router : AnyRouter) (own : AnyInterface) (theirs : List AnyInterface)
        → own.link.kind ≢ PointToPoint → far_ends router own theirs ≡ [] }
{}

/// A point-to-point link has far ends exactly where the neighbor, among the LSAs in use of the
/// area, links back to the router, as an edge of the area's graph needs (RFC 2328, 16.1).
pub fn links_with_far_ends_are_edges()
    ensures { (db : Lists) (area : AnyArea) (router : AnyRouter) (own : AnyInterface)
        → IsDatabase db → own.link.kind ≡ PointToPoint
        → (far_ends_in db area router own ≢ [])
        ↔ HasLinkTo (used (lsas_of (Area area) db)) (record { 0 = own.link.id.0 })
        (Router router) }
{}
