//! What is kept of a database for the tables of its routers.

ghost use Rattle.std.specs.Prelude.{◌≡◌, ◌≢◌, [], Some, None, IfOk, IfSome};
ghost use Rattle.lsdb.specs.Lists.{Lists};
ghost use Rattle.lsdb.specs.Slots.{lists_of};
ghost use Rattle.routing_table.specs.AreasTrees.{routers_of};
ghost use Rattle.recalculate.specs.CallsForTables.{CalculatesTrees, KeepsTable, ShowsTable};
ghost use Rattle.recalculate.specs.Planning.{IsCacheOf, IsTableOver, router_of};

use external_routes::ExternalLsas;
use lsa_codec::RouterId;
use lsdb::Database;
use routing_table::{KeptTrees, Table, TableFault, table_from};
use spf::Meter;
use std::alloc::{AllocError, Allocator};
use std::marker::Model;
use std::rc::Rc;

/// What is kept of a database from table to table: the graphs of its areas, and trees in them, the
/// list of its AS-external-LSAs, and the last table. It is kept twice: of the database of a session
/// and of the one that the session began at.
#[derive(Drop)]
pub(crate) struct TableCache<A: Allocator> {
    pub(crate) trees: KeptTrees<A>,
    pub(crate) externals: Option<ExternalLsas<A>>,
    pub(crate) last: Option<Rc<Table<A>, A>>,
}

impl<A: Allocator> Model for TableCache<A> {
    ghost use Rattle.std.specs.Prelude.{option_map};
    ghost use Rattle.recalculate.specs.Planning.{CacheValue};

    ghost Value = { CacheValue };

    ghost view = { λ c. record {
      trees = c.trees;
      externals = c.externals;
      table = option_map (λ table. table.value) c.last;
    } };
}

impl<A: Allocator + Copy> TableCache<A> {
    /// Nothing is kept. It takes no memory.
    pub(crate) fn new(alloc: A) -> TableCache<A>
        ensures cache { (db : Lists) → IsCacheOf db result }
        ensures kept { routers_of result.trees ≡ [] }
        ensures table { result.table ≡ None }
    {
        TableCache {
            trees: KeptTrees::new(alloc),
            externals: None,
            last: None,
        }
    }

    /// The trees.
    pub(crate) fn trees(&self) -> &KeptTrees<A>
        ensures { result.now ≡ self.now.trees }
    {
        &self.trees
    }

    /// The last table, if it is that of a router.
    pub(crate) fn kept_table(&self, router: RouterId) -> Option<&Rc<Table<A>, A>>
        ensures table { IfSome result (λ table. (db : Lists) → IsCacheOf db self.now
            → IsTableOver db (routers_of self.now.trees) router table.now.value) }
        ensures some { IfSome result (λ table. router_of self.now.table ≡ Some router) }
        ensures none { result ≡ None → router_of self.now.table ≢ Some router }
    {
        match &self.last {
            Some(table) if table.router() == router => Some(table),
            _ => None,
        }
    }

    /// The routing table of a router in the database (RFC 2328, 16). The router's trees that are
    /// not there are calculated and kept, and the meter counts them. So are the AS-external-LSAs
    /// listed, where they are not.
    pub(crate) fn table_of(
        &mut self,
        database: &Database<A>,
        router: RouterId,
        meter: &mut Meter,
    ) -> Result<Table<A>, TableFault>
        requires { IsCacheOf (lists_of database.now) self.old }
        ensures table { ShowsTable result (λ table. table) (lists_of database.now) router }
        ensures trees { CalculatesTrees (lists_of database.now) router result
            (routers_of self.old.trees, meter.old) (routers_of self.new.trees, meter.new) }
        ensures cache { IsCacheOf (lists_of database.now) self.new }
        ensures last { self.new.table ≡ self.old.table }
    {
        let alloc = database.alloc();
        let results = self.trees.results_of(alloc, database, router, meter)?;
        table_from(alloc, database, router, results, &mut self.externals)
    }

    /// The routing table of a router in the database, as [`table_of`](TableCache::table_of) makes
    /// it. It is kept in place of the last one.
    pub(crate) fn new_table(
        &mut self,
        database: &Database<A>,
        router: RouterId,
        meter: &mut Meter,
    ) -> Result<Rc<Table<A>, A>, TableFault>
        requires { IsCacheOf (lists_of database.now) self.old }
        ensures table { ShowsTable result (λ table. table.value) (lists_of database.now) router }
        ensures trees { CalculatesTrees (lists_of database.now) router result
            (routers_of self.old.trees, meter.old) (routers_of self.new.trees, meter.new) }
        ensures cache { IsCacheOf (lists_of database.now) self.new }
        ensures last { KeepsTable router result self.new.table }
    {
        self.last = None;
        let table = self.table_of(database, router, meter)?;
        let table = shared(database.alloc(), table)?;
        self.last = Some(table.clone()?);
        Ok(table)
    }
}

/// A table that several may hold, without a copy of it.
fn shared<A: Allocator + Copy>(alloc: A, table: Table<A>) -> Result<Rc<Table<A>, A>, AllocError>
    ensures { IfOk result (λ shared. shared.value ≡ table) }
{
    match Rc::new(alloc, table) {
        Ok(shared) => Ok(shared),
        Err(_table) => Err(AllocError),
    }
}
