//! Parts of areas.

use lsa_codec::RouterId;
use std::alloc::{Allocator, Global};
use std::marker::Model;

/// The routers of a part of an area, in rising order. Contracts see it as this list.
#[derive(Drop)]
pub struct Part<A: Allocator = Global> {
    /// The routers.
    pub routers: Vec<RouterId, A>,
}

impl<A: Allocator> Model for Part<A> {
    ghost use Rattle.std.specs.Prelude.{List};
    ghost use Rattle.lsa_codec.specs.declared.address.RouterId.{RouterId as AnyRouter};

    ghost Value = { List AnyRouter };

    ghost view = { λ p. p.routers.items };
}
