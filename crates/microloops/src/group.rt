//! Groups of routers that walks lead between in both directions.

ghost use Rattle.std.specs.Prelude.{◌≡◌, IfOk};
ghost use Rattle.microloops.specs.steps.Groups.{IsJoined};

use lsa_codec::RouterId;
use std::alloc::{AllocError, Allocator};
use std::collections::BTreeSet;
use std::marker::Model;

/// The routers of a group, the routers that steps from it lead to and that were not followed, and
/// whether a walk within it comes back.
#[derive(Drop)]
pub(crate) struct Group<A: Allocator> {
    pub(crate) routers: BTreeSet<RouterId, A>,
    pub(crate) pending: Vec<RouterId, A>,
    pub(crate) is_loop: bool,
}

impl<A: Allocator> Model for Group<A> {
    ghost use Rattle.microloops.specs.steps.Groups.{GroupValue};

    ghost Value = { GroupValue };

    ghost view = { λ g. record {
      routers = g.routers;
      pending = g.pending.items;
      is_loop = g.is_loop;
    } };
}

impl<A: Allocator + Copy> Group<A> {
    /// The routers and steps of both, in time logarithmic in this one for each of the other.
    fn absorb(self, other: Group<A>) -> Result<Group<A>, AllocError>
        ensures { IfOk result (IsJoined self other) }
    {
        let Group {
            mut routers,
            mut pending,
            is_loop: _,
        } = self;
        let Group {
            routers: mut more,
            pending: mut later,
            is_loop: _,
        } = other;
        routers.append(&mut more)?;
        pending.append(&mut later)?;
        Ok(Group {
            routers,
            pending,
            is_loop: true,
        })
    }

    /// Both groups as one, which is a loop. The smaller is moved to the greater.
    pub(crate) fn join(self, other: Group<A>) -> Result<Group<A>, AllocError>
        ensures { IfOk result (IsJoined self other) }
    {
        if self.routers.len() < other.routers.len() {
            return other.absorb(self);
        }
        self.absorb(other)
    }
}
