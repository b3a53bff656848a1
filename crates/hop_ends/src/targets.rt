//! The routers that a next hop leads to, whatever the route.

ghost use Rattle.std.specs.Prelude.{◌≡◌, IfOk};
ghost use Rattle.lsdb.specs.Lists.{Lists};
ghost use Rattle.hop_ends.specs.Owners.{AreGraphsOf, targets_of};

use crate::area_graphs::AreaGraphs;
use lsa_codec::RouterId;
use next_hops::Hop;
use std::alloc::{AllocError, Allocator};

impl<'a, A: Allocator + Copy> AreaGraphs<'a, A> {
    /// The routers that a next hop of a router leads to, in rising order. Over an interface to
    /// several neighbors these are all of them.
    ///
    /// # Errors
    ///
    /// Memory ran out.
    pub fn targets_of(
        &self,
        alloc: A,
        router: RouterId,
        hop: Hop,
    ) -> Result<Vec<RouterId, A>, AllocError>
        ensures { IfOk result (λ found. (db : Lists) → AreGraphsOf db self.now
            → found.items ≡ targets_of db router hop) }
    {
        match hop {
            Hop::Connected | Hop::Attached(_) => Ok(Vec::new(alloc)),
            Hop::Link(interface) => self.far_ends(alloc, router, interface),
            Hop::Gateway(interface, address) => self.owners(alloc, router, interface, address),
        }
    }
}
