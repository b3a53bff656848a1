//! The neighbors to which a route leads over the links of one interface.

ghost use Rattle.std.specs.Prelude.{◌≡◌, IfOk};
ghost use Rattle.lsdb.specs.Lists.{Lists};
ghost use Rattle.first_ends.specs.FirstEnds.{route_ends};
ghost use Rattle.hop_ends.specs.Owners.{AreGraphsOf};
ghost use Rattle.hop_ends.specs.Ways.{ends_over};

use crate::area_graphs::AreaGraphs;
use first_ends::first_ends;
use lsa_codec::{Addr, Prefix, RouterId};
use route_candidates::{RouterView, candidates, targets};
use spf::Meter;
use std::alloc::{AllocError, Allocator};

/// The neighbors over an interface with whose link a path of least cost to a target of a route
/// begins.
fn route_ends<A: Allocator + Copy>(
    alloc: A,
    view: &RouterView<'_, A>,
    net: Prefix,
    interface: Addr,
) -> Result<Vec<RouterId, A>, AllocError>
    ensures { IfOk result (λ ends. ends.items ≡ route_ends view.now net interface) }
{
    let candidates = candidates(alloc, view, net)?;
    let targets = targets(alloc, view, &candidates)?;
    first_ends(alloc, view, &targets, interface)
}

impl<'a, A: Allocator + Copy> AreaGraphs<'a, A> {
    /// The same, of a router of the database.
    fn route_ends(
        &self,
        alloc: A,
        router: RouterId,
        net: Prefix,
        interface: Addr,
    ) -> Result<Vec<RouterId, A>, AllocError>
        ensures { IfOk result (λ ends. ends.items
            ≡ route_ends (record { db = self.now.db; router = router }) net interface) }
    {
        if let Some(view) = self.view_of(router) {
            return route_ends(alloc, view, net, interface);
        }
        let view = RouterView::of(alloc, self.database(), router, &mut Meter::new())?;
        route_ends(alloc, &view, net, interface)
    }

    /// The neighbors to which a router's route to a prefix leads over the links with this Link
    /// Data, in rising order. Where links of several neighbors have it, as over an interface of
    /// point-to-multipoint, these are those with whose link a path of least cost to a target of the
    /// route begins (RFC 2328, 16.1.1).
    ///
    /// # Errors
    ///
    /// Memory ran out.
    pub(crate) fn ends_over(
        &self,
        alloc: A,
        router: RouterId,
        net: Prefix,
        interface: Addr,
    ) -> Result<Vec<RouterId, A>, AllocError>
        ensures { IfOk result (λ ends.
            (db : Lists) → AreGraphsOf db self.now
            → ends.items ≡ ends_over db router net interface) }
    {
        let ends = self.far_ends(alloc, router, interface)?;
        if ends.len() < 2 {
            return Ok(ends);
        }
        self.route_ends(alloc, router, net, interface)
    }
}
