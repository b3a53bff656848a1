//! A router of a database, with what is calculated of it.

ghost use Rattle.std.specs.Prelude.{◌≡◌, IfOk, not};
ghost use Rattle.std.specs.List.{list_any};
ghost use Rattle.lsdb.specs.Slots.{lists_of};
ghost use Rattle.external_routes.specs.Flooding.{is_attached_outside_stubs};
ghost use Rattle.area_candidates.specs.Views.{area_views};
ghost use Rattle.route_candidates.specs.RouterViews.{inside_of};

use crate::inside_view::InsideView;
use area_candidates::{AreaView, area_views};
use lsa_codec::RouterId;
use lsdb::Database;
use spf::Meter;
use std::alloc::{AllocError, Allocator};
use std::marker::Model;

/// A router of a database: its areas with their trees, and its routes and entries inside the AS.
/// Contracts see it as the database and the router.
#[derive(Drop)]
pub struct RouterView<'a, A: Allocator> {
    database: &'a Database<A>,
    router: RouterId,
    areas: Vec<AreaView<'a, A>, A>,
    inside: InsideView<A>,
}

impl<'a, A: Allocator> Model for RouterView<'a, A> {
    ghost use Rattle.std.specs.Prelude.{◌≡◌};
    ghost use Rattle.lsdb.specs.Slots.{lists_of};
    ghost use Rattle.area_candidates.specs.Views.{area_views};
    ghost use Rattle.route_candidates.specs.RouterViews.{RouterViewValue, inside_of};

    ghost Value = { RouterViewValue };

    ghost view = { λ v. record { db = lists_of v.database.now; router = v.router } };

    ghost invariant = { λ v. (v.areas.items ≡ area_views (lists_of v.database.now) v.router)
        × (v.inside ≡ inside_of (lists_of v.database.now) v.router) };
}

/// Whether one of the areas is not a stub area.
fn leaves_stubs<A: Allocator + Copy>(areas: &[AreaView<'_, A>]) -> bool
    ensures { result ≡ list_any (λ area. not area.is_stub) areas.now }
{
    areas.iter().any(|area| !area.is_stub())
}

impl<'a, A: Allocator + Copy> RouterView<'a, A> {
    /// A router of a database. The meter counts its trees.
    ///
    /// # Errors
    ///
    /// Memory ran out.
    pub fn of(
        alloc: A,
        database: &'a Database<A>,
        router: RouterId,
        meter: &mut Meter,
    ) -> Result<RouterView<'a, A>, AllocError>
        ensures { IfOk result (λ view. view
            ≡ record { db = lists_of database.now; router = router }) }
    {
        let areas = area_views(alloc, database, router, meter)?;
        let inside = InsideView::of(alloc, database, router, meter)?;
        Ok(RouterView {
            database,
            router,
            areas,
            inside,
        })
    }

    /// The database.
    pub(crate) fn database(&self) -> &'a Database<A>
        ensures { lists_of result.now ≡ self.now.db }
    {
        self.database
    }

    /// The router.
    pub fn router(&self) -> RouterId
        ensures { result ≡ self.now.router }
    {
        self.router
    }

    /// The areas that it is attached to, in rising order of their IDs.
    pub fn areas(&self) -> &[AreaView<'a, A>]
        ensures { result.now ≡ area_views self.now.db self.now.router }
    {
        self.areas.as_slice()
    }

    /// Its routes and entries inside the AS.
    pub(crate) fn inside(&self) -> &InsideView<A>
        ensures { result.now ≡ inside_of self.now.db self.now.router }
    {
        &self.inside
    }

    /// Whether it is attached to an area that is not a stub area.
    pub(crate) fn is_outside_stubs(&self) -> bool
        ensures { result ≡ is_attached_outside_stubs self.now.db self.now.router }
    {
        leaves_stubs(&self.areas)
    }
}
