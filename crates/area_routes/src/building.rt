//! Building the result of an area.

ghost use Rattle.std.specs.Prelude.{◌≡◌, ◌<◌, ◌^◌, ◌∷◌, ◌++◌, [], IfOk, OnOk, All, length, map};
ghost use Rattle.lsa_codec.specs.Order.{prefix_cmp};
ghost use Rattle.lsa_codec.specs.declared.address.RouterId.{RouterId as AnyRouter};
ghost use Rattle.lsdb.specs.declared.section.Section.TheVariants.{Area};
ghost use Rattle.lsdb.specs.Lists.{lsas_of};
ghost use Rattle.lsdb.specs.Slots.{lists_of};
ghost use Rattle.area_graph.specs.Area.{used};
ghost use Rattle.area_routes.specs.AreaResults.{AreOf, area_result};
ghost use Rattle.best_ways.specs.Best.{ways_of};
ghost use Rattle.area_routes.specs.Networks.{network_offers};
ghost use Rattle.area_routes.specs.Offers.{AreSortedOffers, offer_candidate, offer_of};
ghost use Rattle.area_routes.specs.StubLinks.{AreStubLinksOf};
ghost use Rattle.area_routes.specs.Values.{OffersBelow};
ghost use Rattle.area_routes.specs.steps.Growing.{with_entries};
ghost use Rattle.area_routes.specs.steps.OneArea.{IsIntraRoute, offered, result_by};
ghost use Rattle.area_routes.specs.steps.StubCandidates.{offers_over};
ghost use Rattle.area_routes.specs.steps.ReachedVertices.{AreReached, FitGraph};

use crate::area_result::AreaResult;
use crate::area_ways::AreaWays;
use crate::entry::{EntryKind, RouterEntry};
use crate::few_reached::few_reached;
use crate::networks::add_networks;
use crate::reached::{Reached, reached_of_all, reached_vertices};
use crate::router_entries::add_entries;
use crate::stub_links::{StubLink, StubLinks};
use crate::stubs::add_stubs;
use area_graph::{Graph, Vertex, used_lsas};
use best_ways::Route;
use lsa_codec::{AreaId, RouterId};
use lsdb::{Database, Section};
use next_hops::{HopList, Hops};
use spf::Tree;
use std::alloc::{AllocError, Allocator};

/// The vertices of an area that a tree reaches, in the order of their numbers.
fn reached_in<'a, A: Allocator + Copy>(
    alloc: A,
    database: &'a Database<A>,
    area: AreaId,
    graph: &Graph<A>,
    tree: &Tree<A>,
    hops: &'a Hops<A>,
) -> Result<Vec<Reached<'a, A>, A>, AllocError>
    requires { FitGraph (lsas_of (Area area) (lists_of database.now)) graph.now tree.now hops.now }
    ensures { IfOk result
        (λ reached. AreReached (used (lsas_of (Area area) (lists_of database.now)))
        tree.now.distances hops.now reached.items) }
{
    if let Some(reached) = few_reached(alloc, database, area, graph, tree, hops)? {
        return Ok(reached);
    }
    let lsas = database.lsas(Section::Area(area));
    if database.count(Section::Area(area)) == graph.len() {
        // All LSAs are in use.
        return reached_of_all(alloc, lsas, graph.len(), tree, hops);
    }
    let lsas = used_lsas(alloc, lsas)?;
    reached_vertices(alloc, &lsas, tree, hops)
}

/// What the area offers by the vertices that are reached, and by its stub links, as routes.
fn routes_of<'a, A: Allocator + Copy>(
    alloc: A,
    area: AreaId,
    root: RouterId,
    reached: &[Reached<'a, A>],
    tree: &Tree<A>,
    hops: &'a Hops<A>,
    links: &[StubLink],
) -> Result<Vec<Route<A>, A>, AllocError>
    requires tree { All (λ link. link.vertex < length tree.now.distances) links.now }
    requires hops { All (λ link. link.vertex < length hops.now) links.now }
    ensures offers { IfOk result (λ routes. map offered routes.items
        ≡ map offer_of (ways_of prefix_cmp (map offer_candidate (network_offers reached.now)
        ++ map offer_candidate (offers_over root tree.now.distances hops.now links.now)))) }
    ensures intra { IfOk result (λ routes. All (IsIntraRoute area) routes.items) }
    ensures below { IfOk result (λ routes. OffersBelow (2 ^ 33) (map offered routes.items)) }
    ensures sorted { IfOk result (λ routes. AreSortedOffers (map offered routes.items)) }
{
    let mut ways = AreaWays::with_capacity(alloc, links.len())?;
    add_networks(alloc, &mut ways, reached)?;
    add_stubs(&mut ways, root, tree, hops, links)?;
    ways.into_routes(alloc, area)
}

impl<A: Allocator + Copy> AreaResult<A> {
    /// These routes, and no entries yet.
    fn without_entries(alloc: A, area: AreaId, routes: Vec<Route<A>, A>) -> AreaResult<A>
        requires below { OffersBelow (2 ^ 33) (map offered routes.items) }
        requires sorted { AreSortedOffers (map offered routes.items) }
        requires intra { All (IsIntraRoute area) routes.items }
        ensures { result ≡ result_by area routes.items [] }
    {
        AreaResult {
            area,
            routes,
            entries: Vec::new(alloc),
        }
    }

    /// Adds the entry of a router.
    pub(crate) fn enter(
        &mut self,
        router: RouterId,
        kind: EntryKind,
        cost: u64,
        hops: HopList<A>,
    ) -> Result<(), AllocError>
        requires { cost < 2 ^ 33 }
        ensures { OnOk result (self.new ≡ with_entries self.old
            (record {
              router = router;
              area = self.old.area;
              kind = kind;
              cost = cost;
              hops = hops;
            } ∷ [])) }
    {
        self.entries.push(RouterEntry {
            router,
            area: self.area,
            kind,
            cost,
            hops,
        })?;
        Ok(())
    }

    /// The result of an area for the root of a tree (RFC 2328, 16.1). The graph must be that of the
    /// area, the tree one of this graph, and the hops those of this tree.
    ///
    /// The ways to prefixes are of two kinds. A network that is reached gives one; of several with
    /// one prefix only the nearest does, and of several as near the one with the greatest Link
    /// State ID. A stub link of a router that is reached gives one, at the sum of the router's
    /// distance and the link's metric. The offers are the best of these ways, one for each prefix,
    /// in order of prefix. The entries are those of the other routers that are reached, in the
    /// order of the graph's vertices: [`Border`](EntryKind::Border) where bit B of the router-LSA
    /// is set, and then [`AsbrIntra`](EntryKind::AsbrIntra) where bit E is.
    ///
    /// # Errors
    ///
    /// Memory ran out.
    pub fn build(
        alloc: A,
        database: &Database<A>,
        area: AreaId,
        graph: &Graph<A>,
        tree: &Tree<A>,
        hops: &Hops<A>,
        stubs: &StubLinks<A>,
    ) -> Result<AreaResult<A>, AllocError>
        requires tree { (root : AnyRouter)
            × AreOf (lsas_of (Area area) (lists_of database.now)) root graph.now tree.now hops.now }
        requires stubs { AreStubLinksOf (lsas_of (Area area) (lists_of database.now)) stubs.now }
        ensures { IfOk result (λ built. (root : AnyRouter)
            → AreOf (lsas_of (Area area) (lists_of database.now)) root graph.now tree.now hops.now
            → built ≡ area_result area (lsas_of (Area area) (lists_of database.now)) root) }
    {
        let Vertex::Router(root) = graph.vertex(tree.root()) else {
            unreachable!()
        };
        let reached = reached_in(alloc, database, area, graph, tree, hops)?;
        let routes = routes_of(alloc, area, root, &reached, tree, hops, stubs.as_slice())?;
        let mut built = AreaResult::without_entries(alloc, area, routes);
        add_entries(alloc, &mut built, root, &reached)?;
        Ok(built)
    }
}
