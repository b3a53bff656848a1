//! The preferred entries of AS boundary routers, among some that no database gives together.

ghost use Rattle.std.specs.Prelude.{◌<◌, ◌^◌};

use area_routes::{EntryKind, RouterEntries, RouterEntry};
use external_routes::preferred;
use lsa_codec::{AreaId, RouterId};
use next_hops::HopList;
use std::alloc::{AllocError, Global};
use std::test::*;
use test_support::R2;

/// Adds an entry of 2.2.2.2 without next hops.
fn add_entry(
    alloc: Global,
    entries: &mut RouterEntries,
    kind: EntryKind,
    area: u32,
    cost: u64,
) -> Result<(), AllocError>
    requires { cost < 2 ^ 34 }
{
    let hops = HopList::new(alloc)?;
    entries.push(RouterEntry {
        router: RouterId(R2),
        area: AreaId(area),
        kind,
        cost,
        hops,
    })
}

#[test]
fn entries_by_summaries_are_as_good_as_those_of_the_backbone(rt: HostRuntime) -> Result<(), Fail> {
    let mut entries = RouterEntries::new(rt.alloc());
    add_entry(rt.alloc(), &mut entries, EntryKind::AsbrIntra, 0, 7)?;
    add_entry(rt.alloc(), &mut entries, EntryKind::AsbrInter, 1, 6)?;
    let found = preferred(entries.as_slice(), RouterId(R2));
    let found = found.map(|entry| (entry.kind, entry.area, entry.cost));
    assert_eq!(rt; found, Some((EntryKind::AsbrInter, AreaId(1), 6)));
    Ok(())
}
