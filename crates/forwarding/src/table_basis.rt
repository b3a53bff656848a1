//! What the tables of one database are calculated from.

ghost use Rattle.std.specs.Prelude.{◌≡◌, IfOk};
ghost use Rattle.lsdb.specs.Lists.{Lists};
ghost use Rattle.lsdb.specs.Slots.{lists_of};
ghost use Rattle.forwarding.specs.Matches.{routes_in};
ghost use Rattle.forwarding.specs.steps.Bases.{IsBasisOf};

use external_routes::ExternalLsas;
use lsa_codec::RouterId;
use lsdb::Database;
use routing_table::{KeptTrees, Table, TableFault, table_from};
use spf::Meter;
use std::alloc::{AllocError, Allocator};
use std::marker::Model;

/// The graphs of the areas of a database with trees in them, and the list of its AS-external-LSAs:
/// what tables have asked for so far, calculated once for all of them.
#[derive(Drop)]
pub(crate) struct TableBasis<A: Allocator> {
    trees: KeptTrees<A>,
    externals: Option<ExternalLsas<A>>,
}

impl<A: Allocator> Model for TableBasis<A> {
    ghost use Rattle.forwarding.specs.steps.Bases.{BasisValue};

    ghost Value = { BasisValue };

    ghost view = { λ b. record { trees = b.trees; externals = b.externals } };
}

impl<A: Allocator + Copy> TableBasis<A> {
    /// Nothing is calculated yet. It takes no memory.
    pub(crate) fn new(alloc: A) -> TableBasis<A>
        ensures { (db : Lists) → IsBasisOf db result }
    {
        TableBasis {
            trees: KeptTrees::new(alloc),
            externals: None,
        }
    }

    /// The table of a router, without routes where it is attached to no area. The meter counts a
    /// tree for each area that it is attached to, unless the router was asked for before.
    pub(crate) fn table_or_empty(
        &mut self,
        alloc: A,
        database: &Database<A>,
        router: RouterId,
        meter: &mut Meter,
    ) -> Result<Table<A>, AllocError>
        requires { IsBasisOf (lists_of database.now) self.old }
        ensures basis { IsBasisOf (lists_of database.now) self.new }
        ensures router { IfOk result (λ table. table.router ≡ router) }
        ensures routes { IfOk result
            (λ table. table.routes ≡ routes_in (lists_of database.now) router) }
    {
        let results = self.trees.results_of(alloc, database, router, meter)?;
        match table_from(alloc, database, router, results, &mut self.externals) {
            Ok(table) => Ok(table),
            Err(TableFault::NoRouter) => Ok(Table::empty(alloc, router)),
            Err(TableFault::OutOfMemory) => Err(AllocError),
        }
    }
}
