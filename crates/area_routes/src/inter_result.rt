//! The result of the summary-LSAs.

use crate::entry_list::RouterEntries;
use crate::inside_routes::InsideRoutes;
use std::alloc::{Allocator, Global};
use std::marker::Model;

/// The inter-area routes of a router, and all its router entries (RFC 2328, 16.2).
#[derive(Drop)]
pub struct InterResult<A: Allocator = Global> {
    /// The inter-area routes.
    pub routes: InsideRoutes<A>,
    /// The entries of all areas in rising order of the areas, and then those of the AS boundary
    /// routers in summary-LSAs, in order of the routers.
    pub routers: RouterEntries<A>,
}

impl<A: Allocator> Model for InterResult<A> {
    ghost use Rattle.area_routes.specs.Values.{InterValue};

    ghost Value = { InterValue };

    ghost view = { λ r. record { routes = r.routes; routers = r.routers } };
}
