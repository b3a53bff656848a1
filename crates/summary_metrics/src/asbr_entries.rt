//! The entries of AS boundary routers in the results of a router's areas.

ghost use Rattle.std.specs.Prelude.{◌≡◌, ◌++◌, IfOk, OnOk};
ghost use Rattle.std.specs.List.{filter};
ghost use Rattle.external_routes.specs.Choose.{is_asbr_kind};
ghost use Rattle.summary_metrics.specs.SummaryMetrics.{asbr_entries};

use area_routes::{AreaResult, EntryKind, RouterEntries, RouterEntry};
use std::alloc::{AllocError, Allocator};

/// Whether an entry is that of an AS boundary router.
fn is_of_asbr<A: Allocator + Copy>(entry: &RouterEntry<A>) -> bool
    ensures { result ≡ is_asbr_kind entry.now.kind }
{
    entry.kind != EntryKind::Border
}

/// Adds the entries of AS boundary routers in the result of an area.
fn add_entries<A: Allocator + Copy>(
    alloc: A,
    all: &mut RouterEntries<A>,
    area: &AreaResult<A>,
) -> Result<(), AllocError>
    ensures { OnOk result
        (all.new ≡ all.old ++ filter (λ e. is_asbr_kind e.kind) area.now.entries) }
{
    let entries = area.entries();
    for entry in entries {
        if is_of_asbr(entry) {
            all.push(entry.clone_of(alloc)?)?;
        }
    }
    Ok(())
}

/// The entries of AS boundary routers in the results of areas, area by area.
pub(crate) fn asbr_entries<A: Allocator + Copy>(
    alloc: A,
    results: &[AreaResult<A>],
) -> Result<RouterEntries<A>, AllocError>
    ensures { IfOk result (λ all. all ≡ asbr_entries results.now) }
{
    let mut all = RouterEntries::new(alloc);
    for area in results {
        add_entries(alloc, &mut all, area)?;
    }
    Ok(all)
}
