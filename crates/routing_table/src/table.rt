//! The routing table of a router.

ghost use Rattle.std.specs.Prelude.{◌≡◌, [], IfOk, IfErr, IsErrOf, IsSome, OnOk, Some, None, length};
ghost use Rattle.lsdb.specs.declared.section.Section.TheVariants.{AsWide};
ghost use Rattle.lsdb.specs.Lists.{lsas_of};
ghost use Rattle.lsdb.specs.Slots.{lists_of};
ghost use Rattle.area_routes.specs.AreaResults.{results_of};
ghost use Rattle.area_routes.specs.Attached.{attached_areas};
ghost use Rattle.external_routes.specs.ExternalLsas.{AreExternalLsasOf, AreListedOf};
ghost use Rattle.routing_table.specs.declared.table.TableFault.TheVariants.{OutOfMemory};
ghost use Rattle.routing_table.specs.Counting.{counted_by, CountsAtMost};
ghost use Rattle.routing_table.specs.Tables.{table_in, routes_from, FaultMeans};
ghost use Rattle.routing_table.specs.Fault.{code_of, name_of};

use crate::kept_trees::KeptTrees;
use crate::preference::{prefer, prefer_intra};
use area_routes::{AreaResult, Routes, inter, take_intra};
use external_routes::{ExternalLsas, externals};
use lsa_codec::RouterId;
use lsdb::Database;
use spf::Meter;
use std::alloc::{AllocError, Allocator, Global};
use std::marker::Model;
use thiserror::Error;

/// The routing table of a router (RFC 2328, 11). Contracts see it as the router and its routes,
/// which stand in order of prefix, one for each.
#[derive(Drop)]
pub struct Table<A: Allocator = Global> {
    router: RouterId,
    routes: Routes<A>,
}

impl<A: Allocator> Model for Table<A> {
    ghost use Rattle.routing_table.specs.Tables.{TableValue};

    ghost Value = { TableValue };

    ghost view = { λ t. record { router = t.router; routes = t.routes } };
}

impl<A: Allocator + Copy> Table<A> {
    /// The table without routes.
    pub fn empty(alloc: A, router: RouterId) -> Table<A>
        ensures { result ≡ record { router = router; routes = [] } }
    {
        Table {
            router,
            routes: Routes::new(alloc),
        }
    }

    /// The router.
    pub fn router(&self) -> RouterId
        ensures { result ≡ self.now.router }
    {
        self.router
    }

    /// Its routes in order of prefix, one for each: the intra-area route, else the inter-area
    /// route, else the external route.
    pub fn routes(&self) -> &Routes<A>
        ensures { result.now ≡ self.now.routes }
    {
        &self.routes
    }
}

/// Why a router has no table. Its `Display` is the fault's name.
#[derive(Clone, Copy, Debug, PartialEq, Eq, Error)]
pub enum TableFault {
    /// The router is attached to no area (N1).
    #[error("NoRouter")]
    NoRouter,
    /// Memory ran out (N2).
    #[error("OutOfMemory")]
    OutOfMemory,
}

impl From<AllocError> for TableFault {
    ghost from_gives = { λ _ fault. fault ≡ OutOfMemory };

    fn from(_error: AllocError) -> TableFault {
        TableFault::OutOfMemory
    }
}

impl TableFault {
    /// The printed code, as `N1`.
    pub fn code(self) -> &'static str
        ensures { result.now ≡ code_of self }
    {
        match self {
            TableFault::NoRouter => "N1",
            TableFault::OutOfMemory => "N2",
        }
    }

    /// The printed name, as `NoRouter`.
    pub fn name(self) -> &'static str
        ensures { result.now ≡ name_of self }
    {
        match self {
            TableFault::NoRouter => "NoRouter",
            TableFault::OutOfMemory => "OutOfMemory",
        }
    }
}

/// The routing table of a router in a link state database (RFC 2328, 16). The meter counts a tree
/// for each area that the router is attached to.
///
/// # Errors
///
/// [`NoRouter`](TableFault::NoRouter) exactly where the router is attached to no area, and
/// [`OutOfMemory`](TableFault::OutOfMemory); the trees begun before it count.
pub fn table_of<A: Allocator + Copy>(
    alloc: A,
    database: &Database<A>,
    router: RouterId,
    meter: &mut Meter,
) -> Result<Table<A>, TableFault>
    ensures table { IfOk result (λ table. table_in (lists_of database.now) router ≡ Some table) }
    ensures fault { IfErr result (FaultMeans (table_in (lists_of database.now) router)) }
    ensures meter { OnOk result (meter.new
        ≡ counted_by (length (attached_areas (lists_of database.now) router)) meter.old) }
    ensures no_router { result ≡ Err TableFault.NoRouter → meter.new ≡ meter.old }
    ensures at_most { CountsAtMost (length (attached_areas (lists_of database.now) router))
        meter.old meter.new }
{
    let mut trees = KeptTrees::new(alloc);
    let results = trees.results_of(alloc, database, router, meter)?;
    table_from(alloc, database, router, results, &mut None)
}

/// Lists the AS-external-LSAs of a database, unless they are there.
fn list_externals<A: Allocator + Copy>(
    alloc: A,
    database: &Database<A>,
    lsas: &mut Option<ExternalLsas<A>>,
) -> Result<(), AllocError>
    requires { AreListedOf (lsas_of AsWide (lists_of database.now)) lsas.old }
    ensures lsas { AreListedOf (lsas_of AsWide (lists_of database.now)) lsas.new }
    ensures there { OnOk result (IsSome lsas.new) }
{
    if lsas.is_none() {
        *lsas = Some(ExternalLsas::of(alloc, database)?);
    }
    Ok(())
}

/// The routing table of a router from what each area gives that it is attached to, and from the
/// AS-external-LSAs of the database. Where these are not there, they are listed and left there.
pub fn table_from<A: Allocator + Copy>(
    alloc: A,
    database: &Database<A>,
    router: RouterId,
    results: Vec<AreaResult<A>, A>,
    lsas: &mut Option<ExternalLsas<A>>,
) -> Result<Table<A>, TableFault>
    requires results { results.items ≡ results_of (lists_of database.now) router }
    requires lsas { AreListedOf (lsas_of AsWide (lists_of database.now)) lsas.old }
    ensures table { IfOk result (λ table. table_in (lists_of database.now) router ≡ Some table) }
    ensures fault { IfErr result (FaultMeans (table_in (lists_of database.now) router)) }
    ensures no_router { result ≡ Err TableFault.NoRouter
        → attached_areas (lists_of database.now) router ≡ [] }
    ensures lsas { AreListedOf (lsas_of AsWide (lists_of database.now)) lsas.new }
{
    if results.is_empty() {
        return Err(TableFault::NoRouter);
    }
    list_externals(alloc, database, lsas)?;
    let routes = match lsas.as_ref() {
        Some(lsas) => routes_from(alloc, database, lsas, router, results)?,
        None => unreachable!(),
    };
    Ok(Table { router, routes })
}

/// The routes from what the areas of a router give, and from the AS-external-LSAs of the database.
fn routes_from<A: Allocator + Copy>(
    alloc: A,
    database: &Database<A>,
    lsas: &ExternalLsas<A>,
    router: RouterId,
    results: Vec<AreaResult<A>, A>,
) -> Result<Routes<A>, AllocError>
    requires { AreExternalLsasOf (lsas_of AsWide (lists_of database.now)) lsas.now }
    ensures { IfOk result (λ routes. routes
        ≡ routes_from (lists_of database.now) router results.items) }
{
    let mut results = results;
    let intra = take_intra(alloc, &mut results)?;
    let inter = inter(alloc, database, router, &results, &intra)?;
    let inside = prefer_intra(intra, inter.routes)?;
    let external = externals(alloc, database, lsas, router, &inside, &inter.routers)?;
    prefer(inside.into_routes(), external)
}
