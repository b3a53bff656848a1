//! Loops that are found.

ghost use Rattle.std.specs.Prelude.{◌≡◌, IfOk};
ghost use Rattle.std.specs.List.Sorted.{IsStrictlySortedBy};
ghost use Rattle.lsa_codec.specs.Order.{router_cmp};

use lsa_codec::RouterId;
use std::alloc::{AllocError, Allocator, Global};
use std::collections::BTreeSet;
use std::marker::Model;

/// The routers of a loop, in rising order. Contracts see it as this list.
#[derive(Drop)]
pub struct Microloop<A: Allocator = Global> {
    routers: Vec<RouterId, A>,
}

impl<A: Allocator> Model for Microloop<A> {
    ghost use Rattle.std.specs.Prelude.{List};
    ghost use Rattle.lsa_codec.specs.declared.address.RouterId.{RouterId as AnyRouter};

    ghost Value = { List AnyRouter };

    ghost view = { λ l. l.routers.items };
}

impl<A: Allocator + Copy> Microloop<A> {
    /// The loop of the routers of a set.
    pub(crate) fn of(alloc: A, routers: BTreeSet<RouterId, A>) -> Result<Microloop<A>, AllocError>
        ensures routers { IfOk result (λ found. found ≡ routers.keys) }
        ensures sorted { IfOk result (λ found. IsStrictlySortedBy router_cmp found) }
    {
        let routers = routers.into_iter().collect(alloc)?;
        Ok(Microloop { routers })
    }

    /// The routers in rising order.
    pub fn as_slice(&self) -> &[RouterId]
        ensures { result.now ≡ self.now }
    {
        self.routers.as_slice()
    }
}
