//! The best ways to one destination.

ghost use Rattle.std.specs.Prelude.{◌≡◌, [], ◌∷◌, OnOk, IfOk, Some};
ghost use Rattle.best_ways.specs.Best.{way_of};
ghost use Rattle.best_ways.specs.steps.Merge.{add_area, fresh, merged, merge};

use crate::areas::AreaList;
use crate::contender::Contender;
use crate::laws::rank_order;
use crate::rank::Rank;
use lsa_codec::AreaId;
use next_hops::HopList;
use std::alloc::{AllocError, Allocator, Global};
use std::cmp::Ordering;
use std::marker::Model;

/// What the best of the paths to one destination have in common.
#[derive(Drop)]
pub struct Way<A: Allocator = Global> {
    /// What they are compared by, the same for all of them.
    pub(crate) rank: Rank,
    /// The areas that they lead through, in rising order.
    pub areas: AreaList<A>,
    /// Their next hops.
    pub hops: HopList<A>,
}

impl<A: Allocator> Model for Way<A> {
    ghost use Rattle.best_ways.specs.Values.{WayValue};

    ghost Value = { WayValue };

    ghost view = { λ w. record { rank = w.rank; areas = w.areas; hops = w.hops } };
}

impl<A: Allocator + Copy> Way<A> {
    /// What the paths are compared by, the same for all of them.
    pub fn rank(&self) -> Rank
        ensures { result ≡ self.now.rank }
    {
        self.rank
    }

    /// The way of one candidate.
    #[inline(always)]
    fn new<K>(alloc: A, candidate: &Contender<'_, K>) -> Result<Way<A>, AllocError>
        ensures { IfOk result (λ way. way ≡ fresh candidate.now) }
    {
        Ok(Way {
            rank: candidate.rank,
            areas: areas_of(alloc, candidate.area),
            hops: candidate.hop_list(alloc)?,
        })
    }

    /// Adds the area and the hops of a candidate of the same rank.
    fn join<K>(&mut self, candidate: &Contender<'_, K>) -> Result<(), AllocError>
        ensures { OnOk result (self.new ≡ merged self.old candidate.now) }
    {
        candidate.join_into(&mut self.areas, &mut self.hops)
    }

    /// Takes another candidate for the same destination into account.
    fn merge<K>(&mut self, alloc: A, candidate: &Contender<'_, K>) -> Result<(), AllocError>
        ensures { OnOk result (self.new ≡ merge (Some self.old) candidate.now) }
    {
        rank_order();
        match candidate.rank.cmp(&self.rank()) {
            Ordering::Less => *self = Way::new(alloc, candidate)?,
            Ordering::Equal => self.join(candidate)?,
            Ordering::Greater => (),
        }
        Ok(())
    }

    /// The best way of candidates for one destination.
    #[inline(always)]
    pub(crate) fn of<K>(
        alloc: A,
        first: &Contender<'_, K>,
        others: &[Contender<'_, K>],
    ) -> Result<Way<A>, AllocError>
        ensures { IfOk result (λ way. Some way ≡ way_of (first.now ∷ others.now)) }
    {
        let mut way = Way::new(alloc, first)?;
        for candidate in others {
            way.merge(alloc, candidate)?;
        }
        Ok(way)
    }
}

/// The list of the one area that a way leads through; empty where it does not lead through one
/// area.
pub(crate) fn areas_of<A: Allocator + Copy>(alloc: A, area: Option<AreaId>) -> AreaList<A>
    ensures { result ≡ add_area [] area }
{
    match area {
        Some(area) => AreaList::of_one(alloc, area),
        None => AreaList::new(alloc),
    }
}
