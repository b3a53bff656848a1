//! Two databases that are compared.

ghost use Rattle.std.specs.Prelude.{IfOk};
ghost use Rattle.lsdb.specs.Slots.{lists_of};
ghost use Rattle.loop_report.specs.steps.Comparing.{IsComparedOf};

use crate::atoms::Atoms;
use crate::targets::{RouterHops, all_hops};
use forwarding::Forwarding;
use lsdb::Database;
use spf::Meter;
use std::alloc::{AllocError, Allocator};

/// What the forwarding graphs of two databases come from, where the next hops of now lead, and the
/// prefixes of all entries.
#[derive(Drop)]
pub(crate) struct Compared<'a, A: Allocator> {
    pub(crate) was: Forwarding<'a, A>,
    pub(crate) is: Forwarding<'a, A>,
    pub(crate) hops: Vec<RouterHops<A>, A>,
    pub(crate) atoms: Atoms<A>,
}

impl<'a, A: Allocator + Copy> Compared<'a, A> {
    /// Two databases. Each table is made once.
    ///
    /// # Errors
    ///
    /// Memory ran out.
    pub(crate) fn of(
        alloc: A,
        was: &'a Database<A>,
        is: &'a Database<A>,
        meter: &mut Meter,
    ) -> Result<Compared<'a, A>, AllocError>
        ensures { IfOk result (IsComparedOf (lists_of was.now) (lists_of is.now)) }
    {
        let was = Forwarding::of(alloc, was, meter)?;
        let is = Forwarding::of(alloc, is, meter)?;
        let hops = all_hops(alloc, &is)?;
        let atoms = Atoms::of(alloc, &was, &is)?;
        Ok(Compared {
            was,
            is,
            hops,
            atoms,
        })
    }
}
