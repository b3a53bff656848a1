//! Two databases without their tables.

ghost use Rattle.std.specs.Prelude.{◌≡◌};
ghost use Rattle.hop_ends.specs.Owners.{AreGraphsOf};
ghost use Rattle.lost_routes.specs.Announced.{announced_in};
ghost use Rattle.comparison.specs.Compared.{IsOutline};

use hop_ends::AreaGraphs;
use lost_routes::Announced;
use std::alloc::Allocator;
use std::marker::Model;

/// A database beside its baseline, without tables: the graphs of the areas of each, and the
/// prefixes that are announced in each. Contracts see it as the two databases.
#[derive(Drop)]
pub(crate) struct Databases<'c, 'a, A: Allocator> {
    were: &'c AreaGraphs<'a, A>,
    are: &'c AreaGraphs<'a, A>,
    was_announced: &'c Announced<A>,
    is_announced: &'c Announced<A>,
}

impl<'c, 'a, A: Allocator> Model for Databases<'c, 'a, A> {
    ghost use Rattle.comparison.specs.Compared.{Compared, IsOutline};

    ghost Value = { Compared };

    ghost view = { λ d. record { baseline = d.were.now.db; present = d.are.now.db } };

    ghost invariant = { λ d. IsOutline d.were.now.db d.were.now d.was_announced.now
        × IsOutline d.are.now.db d.are.now d.is_announced.now };
}

impl<'c, 'a, A: Allocator + Copy> Databases<'c, 'a, A> {
    /// The two databases, by the graphs and announced prefixes of the baseline and those of now.
    pub(crate) fn of(
        were: &'c AreaGraphs<'a, A>,
        are: &'c AreaGraphs<'a, A>,
        was_announced: &'c Announced<A>,
        is_announced: &'c Announced<A>,
    ) -> Databases<'c, 'a, A>
        requires baseline { IsOutline were.now.db were.now was_announced.now }
        requires present { IsOutline are.now.db are.now is_announced.now }
        ensures { result ≡ record { baseline = were.now.db; present = are.now.db } }
    {
        Databases {
            were,
            are,
            was_announced,
            is_announced,
        }
    }

    /// The graphs of the areas of the baseline.
    pub(crate) fn were(&self) -> &AreaGraphs<'a, A>
        ensures { AreGraphsOf self.now.baseline result.now }
    {
        self.were
    }

    /// The graphs of the areas.
    pub(crate) fn are(&self) -> &AreaGraphs<'a, A>
        ensures { AreGraphsOf self.now.present result.now }
    {
        self.are
    }

    /// The prefixes that were announced in the baseline.
    pub(crate) fn was_announced(&self) -> &Announced<A>
        ensures { result.now ≡ announced_in self.now.baseline }
    {
        self.was_announced
    }

    /// The prefixes that are announced.
    pub(crate) fn is_announced(&self) -> &Announced<A>
        ensures { result.now ≡ announced_in self.now.present }
    {
        self.is_announced
    }
}
