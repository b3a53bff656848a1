//! Chosen links of an area.

ghost use Rattle.std.specs.Prelude.{◌≡◌};

use lsa_codec::{Link, RouterId};
use std::alloc::{Allocator, Global};
use std::marker::Model;

/// The links of an area that an event changes: those of a router, and those of its neighbor.
#[derive(Drop)]
pub struct ChosenLinks<A: Allocator = Global> {
    pub(crate) router: RouterId,
    pub(crate) own: Vec<Link, A>,
    /// The router itself where the event changes no other.
    pub(crate) neighbor: RouterId,
    pub(crate) others: Vec<Link, A>,
}

impl<A: Allocator> Model for ChosenLinks<A> {
    ghost use Rattle.event_links.specs.Selections.{ChosenData};

    ghost Value = { ChosenData };

    ghost view = { λ c. record {
      router = c.router;
      own = c.own.items;
      neighbor = c.neighbor;
      others = c.others.items;
    } };
}

impl<A: Allocator + Copy> ChosenLinks<A> {
    /// The router.
    pub fn router(&self) -> RouterId
        ensures { result ≡ self.now.router }
    {
        self.router
    }

    /// Its links.
    pub fn own(&self) -> &[Link]
        ensures { result.now ≡ self.now.own }
    {
        &self.own
    }

    /// The neighbor, or the router itself where the event changes no other.
    pub fn neighbor(&self) -> RouterId
        ensures { result ≡ self.now.neighbor }
    {
        self.neighbor
    }

    /// The links of the neighbor.
    pub fn others(&self) -> &[Link]
        ensures { result.now ≡ self.now.others }
    {
        &self.others
    }
}
