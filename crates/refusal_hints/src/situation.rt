//! What is known where a line is refused.

ghost use Rattle.std.specs.Prelude.{◌≡◌, IfOk};
ghost use Rattle.routing_table.specs.Routers.{attached_routers};
ghost use Rattle.refusal_hints.specs.Situation.{is_among, is_attached, was_attached};

use lsa_codec::RouterId;
use lsdb::Database;
use routing_table::routers;
use std::alloc::{AllocError, Allocator, Global};
use std::marker::Model;

/// What is known where a line is refused, which changes nothing.
#[derive(Drop)]
pub struct Situation<'a, A: Allocator = Global> {
    /// The present database of the branch.
    pub database: &'a Database<A>,
    /// The database that it is compared with.
    pub baseline: &'a Database<A>,
    /// The number of edits that are done.
    pub done: usize,
    /// The number of edits that are undone.
    pub undone: usize,
}

impl<'a, A: Allocator> Model for Situation<'a, A> {
    ghost use Rattle.lsdb.specs.Slots.{lists_of};
    ghost use Rattle.routing_table.specs.Routers.{attached_routers};
    ghost use Rattle.refusal_hints.specs.Situation.{SituationValue};

    ghost Value = { SituationValue };

    ghost view = { λ s. record {
      database = lists_of s.database.now;
      baseline = lists_of s.baseline.now;
      done = s.done;
      undone = s.undone;
    } };
}

/// Whether a router is one of some.
pub(crate) fn is_among(routers: &[RouterId], router: RouterId) -> bool
    ensures { result ≡ is_among routers.now router }
{
    routers.iter().any(|other| other.0 == router.0)
}

impl<'a, A: Allocator + Copy> Situation<'a, A> {
    /// The routers that are attached now.
    pub(crate) fn attached(&self, alloc: A) -> Result<Vec<RouterId, A>, AllocError>
        ensures { IfOk result (λ found. found.items ≡ attached_routers self.now.database) }
    {
        routers(alloc, self.database)
    }

    /// The routers that are attached in the baseline.
    pub(crate) fn attached_before(&self, alloc: A) -> Result<Vec<RouterId, A>, AllocError>
        ensures { IfOk result (λ found. found.items ≡ attached_routers self.now.baseline) }
    {
        routers(alloc, self.baseline)
    }

    /// Whether a router is attached now.
    pub(crate) fn is_attached(&self, alloc: A, router: RouterId) -> Result<bool, AllocError>
        ensures { IfOk result (λ attached. attached ≡ is_attached self.now router) }
    {
        Ok(is_among(&self.attached(alloc)?, router))
    }

    /// Whether a router is attached in the baseline.
    pub(crate) fn was_attached(&self, alloc: A, router: RouterId) -> Result<bool, AllocError>
        ensures { IfOk result (λ attached. attached ≡ was_attached self.now router) }
    {
        Ok(is_among(&self.attached_before(alloc)?, router))
    }
}
