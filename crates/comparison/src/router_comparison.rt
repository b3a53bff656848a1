//! What differs for one router, by its own tables alone.

ghost use Rattle.std.specs.Prelude.{◌≡◌, ◌∷◌, [], IfOk};
ghost use Rattle.lsdb.specs.Slots.{lists_of};
ghost use Rattle.comparison.specs.Named.{changes_for};

use crate::changes::push_changes;
use crate::databases::Databases;
use crate::router_basis::RouterBasis;
use change_lines::Changes;
use lsa_codec::RouterId;
use lsdb::Database;
use spf::Meter;
use std::alloc::{AllocError, Allocator, Global};
use std::marker::Model;

/// A database, and another that is its baseline, with what is calculated of each for one router:
/// of all tables only those of this router. Contracts see it as the router and the two databases.
#[derive(Drop)]
pub struct RouterComparison<'a, A: Allocator = Global> {
    baseline: RouterBasis<'a, A>,
    present: RouterBasis<'a, A>,
}

impl<'a, A: Allocator> Model for RouterComparison<'a, A> {
    ghost use Rattle.std.specs.Prelude.{◌≡◌};
    ghost use Rattle.comparison.specs.Compared.{RouterCompared};

    ghost Value = { RouterCompared };

    ghost view = { λ c. record {
      router = c.baseline.router;
      both = record { baseline = c.baseline.db; present = c.present.db };
    } };

    ghost invariant = { λ c. c.present.router ≡ c.baseline.router };
}

impl<'a, A: Allocator + Copy> RouterComparison<'a, A> {
    /// A database beside its baseline, for a router. The meter counts the trees of the router's two
    /// tables.
    ///
    /// # Errors
    ///
    /// Memory ran out.
    pub fn of(
        alloc: A,
        baseline: &'a Database<A>,
        present: &'a Database<A>,
        router: RouterId,
        meter: &mut Meter,
    ) -> Result<RouterComparison<'a, A>, AllocError>
        ensures router { IfOk result (λ found. found.router ≡ router) }
        ensures both { IfOk result (λ found. found.both
            ≡ record { baseline = lists_of baseline.now; present = lists_of present.now }) }
    {
        let was = RouterBasis::of(alloc, baseline, router, meter)?;
        let now = RouterBasis::of(alloc, present, router, meter)?;
        Ok(RouterComparison {
            baseline: was,
            present: now,
        })
    }

    /// What is calculated of the baseline.
    pub fn baseline(&self) -> &RouterBasis<'a, A>
        ensures db { result.now.db ≡ self.now.both.baseline }
        ensures router { result.now.router ≡ self.now.router }
    {
        &self.baseline
    }

    /// What is calculated of the present database.
    pub fn present(&self) -> &RouterBasis<'a, A>
        ensures db { result.now.db ≡ self.now.both.present }
        ensures router { result.now.router ≡ self.now.router }
    {
        &self.present
    }

    /// The two databases without tables.
    fn databases(&self) -> Databases<'_, 'a, A>
        ensures { result ≡ self.now.both }
    {
        Databases::of(
            self.baseline.graphs(),
            self.present.graphs(),
            self.baseline.announced(),
            self.present.announced(),
        )
    }

    /// What differs for the router, by group, then by prefix.
    ///
    /// # Errors
    ///
    /// Memory ran out.
    pub fn changes(&self, alloc: A) -> Result<Changes<A>, AllocError>
        ensures { IfOk result
            (λ changes. changes ≡ changes_for self.now.both (self.now.router ∷ [])) }
    {
        let both = self.databases();
        let router = self.baseline.router();
        let was = self.baseline.routes();
        let now = self.present.routes();
        let mut names = Vec::new(alloc);
        let unchanged = push_changes(&mut names, alloc, &both, router, was, now)?;
        Changes::by_group(alloc, &names, unchanged)
    }
}
