//! Lists of routers in rising order.

ghost use Rattle.std.specs.Prelude.{◌≡◌, IfOk};
ghost use Rattle.area_graph.specs.Rising.{rising};
ghost use Rattle.lsa_codec.specs.Order.{router_cmp};
ghost use Rattle.audit_routers.specs.Linked.{has_router};

use link_report::rising;
use lsa_codec::RouterId;
use std::alloc::{AllocError, Allocator, Global};
use std::marker::Model;

/// Routers in rising order, each once. Contracts see them as this list.
#[derive(Drop)]
pub struct RouterList<A: Allocator = Global> {
    routers: Vec<RouterId, A>,
}

impl<A: Allocator> Model for RouterList<A> {
    ghost use Rattle.std.specs.Prelude.{List};
    ghost use Rattle.lsa_codec.specs.declared.address.RouterId.{RouterId as AnyRouter};

    ghost Value = { List AnyRouter };

    ghost view = { λ l. l.routers.items };
}

impl<A: Allocator + Copy> RouterList<A> {
    /// Routers in rising order.
    ///
    /// # Errors
    ///
    /// Memory ran out.
    pub fn of(alloc: A, routers: &[RouterId]) -> Result<RouterList<A>, AllocError>
        ensures { IfOk result (λ list. list ≡ rising router_cmp routers.now) }
    {
        let routers = rising(alloc, routers)?;
        Ok(RouterList { routers })
    }

    /// Routers that are in rising order, each once.
    pub fn in_order(routers: Vec<RouterId, A>) -> RouterList<A>
        ensures { result ≡ routers.items }
    {
        RouterList { routers }
    }

    /// The routers.
    pub fn as_slice(&self) -> &[RouterId]
        ensures { result.now ≡ self.now }
    {
        self.routers.as_slice()
    }

    /// Whether a router is among them.
    pub fn has(&self, router: RouterId) -> bool
        ensures { result ≡ has_router self.now router }
    {
        self.routers.iter().any(|other| router.cmp(other).is_eq())
    }
}
