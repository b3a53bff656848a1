//! The router entries of all areas.

ghost use Rattle.std.specs.Prelude.{◌≡◌, ◌++◌, ◌^◌, IfOk, OnOk};
ghost use Rattle.area_routes.specs.Inter.{entries_of_all};
ghost use Rattle.area_routes.specs.Values.{ResultBelow, EntriesBelow};

use crate::area_result::AreaResult;
use crate::entry::RouterEntry;
use std::alloc::{AllocError, Allocator};

impl<A: Allocator + Copy> RouterEntry<A> {
    /// An equal entry.
    ///
    /// # Errors
    ///
    /// Memory ran out.
    pub fn clone_of(&self, alloc: A) -> Result<RouterEntry<A>, AllocError>
        ensures { IfOk result (λ entry. entry ≡ self.now) }
    {
        Ok(RouterEntry {
            router: self.router,
            area: self.area,
            kind: self.kind,
            cost: self.cost,
            hops: self.hops.clone_of(alloc)?,
        })
    }
}

/// Adds the entries of an area.
fn add_entries<A: Allocator + Copy>(
    alloc: A,
    all: &mut Vec<RouterEntry<A>, A>,
    area: &AreaResult<A>,
) -> Result<(), AllocError>
    ensures entries { OnOk result (all.new.items ≡ all.old.items ++ area.now.entries) }
    ensures below { ResultBelow (2 ^ 33) area.now }
{
    let entries = area.entries();
    for entry in entries {
        all.push(entry.clone_of(alloc)?)?;
    }
    Ok(())
}

/// The entries of all areas, area by area.
pub(crate) fn all_entries<A: Allocator + Copy>(
    alloc: A,
    results: &[AreaResult<A>],
) -> Result<Vec<RouterEntry<A>, A>, AllocError>
    ensures entries { IfOk result (λ all. all.items ≡ entries_of_all results.now) }
    ensures small { IfOk result (λ all. EntriesBelow (2 ^ 33) all.items) }
{
    let mut all = Vec::new(alloc);
    for area in results {
        add_entries(alloc, &mut all, area)?;
    }
    Ok(all)
}
