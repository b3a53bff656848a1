//! Two databases, and what is calculated of them.

ghost use Rattle.std.specs.Prelude.{◌≡◌, ◌||◌, is_some, IfOk};
ghost use Rattle.lsdb.specs.Slots.{lists_of};
ghost use Rattle.forwarding.specs.Graphs.{IsForwardingOf, routers_of, routes_at};
ghost use Rattle.lost_routes.specs.Announced.{announced_in};
ghost use Rattle.comparison.specs.Compared.{IsCalculated};

use crate::databases::Databases;
use forwarding::Forwarding;
use lost_routes::Announced;
use lsa_codec::RouterId;
use lsdb::Database;
use spf::Meter;
use std::alloc::{AllocError, Allocator, Global};
use std::marker::Model;

/// A database, and another that is its baseline, with what is calculated of each. Contracts see it
/// as the two databases.
#[derive(Drop)]
pub struct Comparison<'a, A: Allocator = Global> {
    baseline: &'a Database<A>,
    present: &'a Database<A>,
    were: Forwarding<'a, A>,
    are: Forwarding<'a, A>,
    was_announced: Announced<A>,
    is_announced: Announced<A>,
}

impl<'a, A: Allocator> Model for Comparison<'a, A> {
    ghost use Rattle.lsdb.specs.Slots.{lists_of};
    ghost use Rattle.comparison.specs.Compared.{Compared, IsCalculated};

    ghost Value = { Compared };

    ghost view = { λ c. record {
      baseline = lists_of c.baseline.now;
      present = lists_of c.present.now;
    } };

    ghost invariant = { λ c. IsCalculated (lists_of c.baseline.now) c.were c.was_announced
        × IsCalculated (lists_of c.present.now) c.are c.is_announced };
}

impl<'a, A: Allocator + Copy> Comparison<'a, A> {
    /// A database beside its baseline. The meter counts the trees of a table for each router of
    /// each.
    ///
    /// # Errors
    ///
    /// Memory ran out.
    pub fn of(
        alloc: A,
        baseline: &'a Database<A>,
        present: &'a Database<A>,
        meter: &mut Meter,
    ) -> Result<Comparison<'a, A>, AllocError>
        ensures { IfOk result (λ found. found
            ≡ record { baseline = lists_of baseline.now; present = lists_of present.now }) }
    {
        let were = Forwarding::of(alloc, baseline, meter)?;
        let are = Forwarding::of(alloc, present, meter)?;
        let was_announced = Announced::of(alloc, baseline)?;
        let is_announced = Announced::of(alloc, present)?;
        Ok(Comparison {
            baseline,
            present,
            were,
            are,
            was_announced,
            is_announced,
        })
    }

    /// The baseline.
    pub fn baseline(&self) -> &Database<A>
        ensures { lists_of result.now ≡ self.now.baseline }
    {
        self.baseline
    }

    /// The present database.
    pub fn present(&self) -> &Database<A>
        ensures { lists_of result.now ≡ self.now.present }
    {
        self.present
    }

    /// Where packets went in the baseline.
    pub fn were(&self) -> &Forwarding<'a, A>
        ensures { IsForwardingOf self.now.baseline result.now }
    {
        &self.were
    }

    /// Where packets go.
    pub fn are(&self) -> &Forwarding<'a, A>
        ensures { IsForwardingOf self.now.present result.now }
    {
        &self.are
    }

    /// The prefixes that were announced in the baseline.
    pub fn was_announced(&self) -> &Announced<A>
        ensures { result.now ≡ announced_in self.now.baseline }
    {
        &self.was_announced
    }

    /// The prefixes that are announced.
    pub fn is_announced(&self) -> &Announced<A>
        ensures { result.now ≡ announced_in self.now.present }
    {
        &self.is_announced
    }

    /// The two databases without their tables.
    pub(crate) fn databases(&self) -> Databases<'_, 'a, A>
        ensures { result ≡ self.now }
    {
        Databases::of(
            self.were.graphs(),
            self.are.graphs(),
            &self.was_announced,
            &self.is_announced,
        )
    }

    /// Whether a router is attached to an area, in the baseline or now. It takes no memory.
    pub fn has_router(&self, router: RouterId) -> bool
        ensures { result ≡ (is_some (routes_at (routers_of self.now.baseline) router)
            || is_some (routes_at (routers_of self.now.present) router)) }
    {
        self.were().routes_of(router).is_some() || self.are().routes_of(router).is_some()
    }
}
