//! Ways to prefixes within one area.

ghost use Rattle.std.specs.Prelude.{◌≡◌, ◌<◌, ◌^◌, [], ◌∷◌, All, IfOk, OnOk, map};
ghost use Rattle.lsa_codec.specs.Order.{prefix_cmp};
ghost use Rattle.best_ways.specs.Best.{ways_of};
ghost use Rattle.area_routes.specs.Offers.{AreSortedOffers, offer_of};
ghost use Rattle.area_routes.specs.Values.{OffersBelow};
ghost use Rattle.area_routes.specs.steps.Growing.{with_offers};
ghost use Rattle.area_routes.specs.steps.OneArea.{IsIntraRoute, offered};

use best_ways::{BestWays, PathType, Rank, Route};
use lsa_codec::{AreaId, Prefix};
use next_hops::Hop;
use std::alloc::{AllocError, Allocator};
use std::marker::Model;

/// Ways to prefixes within one area. The area offers the best ways to each prefix. Contracts see
/// them as candidates.
#[derive(Drop)]
pub(crate) struct AreaWays<'a, A: Allocator> {
    ways: BestWays<'a, Prefix, A>,
}

impl<'a, A: Allocator> Model for AreaWays<'a, A> {
    ghost use Rattle.std.specs.Prelude.{List, All};
    ghost use Rattle.lsa_codec.specs.Prefix.{Net};
    ghost use Rattle.best_ways.specs.Candidate.{Candidate};
    ghost use Rattle.area_routes.specs.steps.OneArea.{IsWithinArea};

    ghost Value = { List (Candidate Net) };

    ghost view = { λ w. w.ways };

    ghost invariant = { λ w. All IsWithinArea w.ways };
}

impl<'a, A: Allocator + Copy> AreaWays<'a, A> {
    /// No ways, with room for `count` of them.
    pub(crate) fn with_capacity(alloc: A, count: usize) -> Result<AreaWays<'a, A>, AllocError>
        ensures { IfOk result (λ ways. ways ≡ []) }
    {
        let ways = BestWays::with_capacity(alloc, count)?;
        Ok(AreaWays { ways })
    }

    /// Adds a way to a prefix.
    pub(crate) fn add(&mut self, net: Prefix, cost: u64, hops: &'a [Hop]) -> Result<(), AllocError>
        requires { cost < 2 ^ 33 }
        ensures { OnOk result (self.new ≡ with_offers self.old
            (record { net = net; cost = cost; hops = hops.now } ∷ [])) }
    {
        let rank = Rank {
            path: PathType::Intra,
            cost2: 0,
            class: 0,
            cost,
        };
        self.ways.add_candidate(net, rank, None, hops)?;
        Ok(())
    }

    /// The offers of the area as routes: to each prefix, in order, the ways of least cost, joined.
    pub(crate) fn into_routes(self, alloc: A, area: AreaId) -> Result<Vec<Route<A>, A>, AllocError>
        ensures offers { IfOk result (λ routes.
            map offered routes.items ≡ map offer_of (ways_of prefix_cmp self.entry)) }
        ensures intra { IfOk result (λ routes. All (IsIntraRoute area) routes.items) }
        ensures below { IfOk result (λ routes. OffersBelow (2 ^ 33) (map offered routes.items)) }
        ensures sorted { IfOk result (λ routes. AreSortedOffers (map offered routes.items)) }
    {
        Ok(self.ways.into_routes_through(alloc, area)?.into_vec())
    }
}
