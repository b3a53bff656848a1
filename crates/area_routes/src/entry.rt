//! Router entries.

use lsa_codec::{AreaId, RouterId};
use next_hops::HopList;
use std::alloc::{Allocator, Global};
use std::marker::Model;

/// Why a router has an entry.
#[derive(Clone, Copy, Debug, PartialEq, Eq, PartialOrd, Ord)]
pub enum EntryKind {
    /// It is an area border router of the area: bit B of its router-LSA is set.
    Border,
    /// It is an AS boundary router of the area: bit E of its router-LSA is set.
    AsbrIntra,
    /// It is an AS boundary router for which the area has a summary-LSA.
    AsbrInter,
}

/// A way to a router, an entry of a routing table (RFC 2328, 11).
#[derive(Drop)]
pub struct RouterEntry<A: Allocator = Global> {
    /// The router.
    pub router: RouterId,
    /// The area that the paths lead through.
    pub area: AreaId,
    /// Why the router has the entry.
    pub kind: EntryKind,
    /// The cost of each path.
    pub cost: u64,
    /// The next hops of all the paths, which are equally good.
    pub hops: HopList<A>,
}

impl<A: Allocator> Model for RouterEntry<A> {
    ghost use Rattle.area_routes.specs.Values.{EntryValue};

    ghost Value = { EntryValue };

    ghost view = { λ e.
        record { router = e.router; area = e.area; kind = e.kind; cost = e.cost; hops = e.hops } };
}
