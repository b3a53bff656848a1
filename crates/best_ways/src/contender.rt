//! Candidates for destinations, which borrow their next hops.

ghost use Rattle.std.specs.Prelude.{◌≡◌, ◌++◌, IfOk, OnOk};
ghost use Rattle.area_graph.specs.Rising.{rising};
ghost use Rattle.next_hops.specs.Hop.{hop_cmp};
ghost use Rattle.best_ways.specs.steps.Merge.{add_area, candidate_cmp, contender_cmp, first_hop};

use crate::areas::AreaList;
use crate::rank::Rank;
use lsa_codec::{Addr, AreaId};
use next_hops::{Hop, HopList, hop_order};
use std::alloc::{AllocError, Allocator};
use std::cmp::Ordering;
use std::marker::Model;

/// A way to a destination that one path offers, or several of equal cost. Contracts see it as the
/// record of its parts, with the hops after it goes on.
#[derive(Drop)]
pub(crate) struct Contender<'a, K> {
    /// The destination.
    pub(crate) key: K,
    /// What the way is compared by.
    pub(crate) rank: Rank,
    /// The one area that the way leads through, if it does.
    pub(crate) area: Option<AreaId>,
    /// The next hops before the way goes on.
    pub(crate) hops: &'a [Hop],
    /// The address that the way goes on to, if it does ([`Hop::extended`]).
    pub(crate) onward: Option<Addr>,
}

impl<'a, K> Model for Contender<'a, K> {
    ghost use Rattle.best_ways.specs.Candidate.{Candidate};
    ghost use Rattle.best_ways.specs.steps.Merge.{going_on};

    ghost Value = { Candidate K };

    ghost view = { λ c. record {
      key = c.key;
      rank = c.rank;
      area = c.area;
      hops = going_on c.onward c.hops.now;
    } };
}

impl<'a, K> Contender<'a, K> {
    /// A list of its next hops, after the way goes on.
    #[inline(always)]
    pub(crate) fn hop_list<A: Allocator + Copy>(&self, alloc: A) -> Result<HopList<A>, AllocError>
        ensures { IfOk result (λ hops. hops ≡ rising hop_cmp self.now.hops) }
    {
        let Some(address) = self.onward else {
            return HopList::of(alloc, self.hops);
        };
        let mut hops = HopList::new(alloc)?;
        hops.join_extended(self.hops, address)?;
        Ok(hops)
    }

    /// Adds its area and its next hops to those of other ways.
    pub(crate) fn join_into<A: Allocator + Copy>(
        &self,
        areas: &mut AreaList<A>,
        hops: &mut HopList<A>,
    ) -> Result<(), AllocError>
        ensures areas { OnOk result (areas.new ≡ add_area areas.old self.now.area) }
        ensures hops { OnOk result (hops.new ≡ rising hop_cmp (hops.old ++ self.now.hops)) }
    {
        if let Some(area) = self.area {
            areas.add(area)?;
        }
        match self.onward {
            Some(address) => hops.join_extended(self.hops, address),
            None => hops.join(self.hops),
        }
    }
}

impl<'a, K: Ord + Copy> Contender<'a, K> {
    /// The first of its next hops, after the way goes on; `Connected` where it has none.
    fn first_hop(&self) -> Hop
        ensures { result ≡ first_hop self.now.hops }
    {
        let Some(hop) = self.hops.first() else {
            return Hop::Connected;
        };
        match self.onward {
            Some(address) => hop.extended(address),
            None => *hop,
        }
    }

    /// Compares two candidates by their first hops.
    fn compare_first_hops(&self, other: &Contender<'a, K>) -> Ordering
        ensures { result ≡ hop_cmp (first_hop self.now.hops) (first_hop other.now.hops) }
    {
        hop_order();
        self.first_hop().cmp(&other.first_hop())
    }

    /// Compares two candidates by their destinations, and then by their ranks.
    fn compare_ways(&self, other: &Contender<'a, K>) -> Ordering
        ensures { result ≡ candidate_cmp K.cmp self.now other.now }
    {
        match self.key.cmp(&other.key) {
            Ordering::Equal => self.rank.cmp(&other.rank),
            order => order,
        }
    }

    /// Compares two candidates: by their destinations, and then by their ranks. Equal ones are
    /// compared by their first hops: when their hops are joined in this order, the list mostly
    /// grows at its end.
    pub(crate) fn compare(&self, other: &Contender<'a, K>) -> Ordering
        ensures { result ≡ contender_cmp K.cmp self.now other.now }
    {
        match self.compare_ways(other) {
            Ordering::Equal => self.compare_first_hops(other),
            order => order,
        }
    }
}
