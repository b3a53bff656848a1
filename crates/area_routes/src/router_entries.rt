//! The entries of area border routers and AS boundary routers of an area (RFC 2328, 16.1).

ghost use Rattle.std.specs.Prelude.{◌≡◌, OnOk};
ghost use Rattle.area_routes.specs.Entries.{entry_by, flags_of, entries_of, area_entries};
ghost use Rattle.area_routes.specs.steps.Growing.{with_entries};

use crate::area_result::AreaResult;
use crate::entry::EntryKind;
use crate::reached::Reached;
use crate::stubs::is_lsa_of;
use lsa_codec::RouterId;
use std::alloc::{AllocError, Allocator};

/// Bit B of a router-LSA, of an area border router (RFC 2328, A.4.2).
const BIT_B: u8 = 1;

/// Bit E of a router-LSA, of an AS boundary router (RFC 2328, A.4.2).
const BIT_E: u8 = 2;

/// Adds the entry of a router, where a bit of the flags of its router-LSA is set.
fn add_entry<A: Allocator + Copy>(
    alloc: A,
    area: &mut AreaResult<A>,
    reached: &Reached<'_, A>,
    flags: u8,
    bit: u8,
    kind: EntryKind,
) -> Result<(), AllocError>
    requires { flags ≡ flags_of reached.now.lsa }
    ensures { OnOk result (area.new
        ≡ with_entries area.old (entry_by area.old.area reached.now bit kind)) }
{
    if flags & bit == 0 {
        return Ok(());
    }
    let router = RouterId(reached.lsa().key().id.0);
    area.enter(router, kind, reached.distance(), reached.hop_list(alloc)?)
}

/// Adds the entries of a vertex: none of a network, and none of the calculating router itself.
fn add_entries_of<A: Allocator + Copy>(
    alloc: A,
    area: &mut AreaResult<A>,
    root: RouterId,
    reached: &Reached<'_, A>,
) -> Result<(), AllocError>
    ensures { OnOk result (area.new
        ≡ with_entries area.old (entries_of area.old.area root reached.now)) }
{
    let Some(router) = reached.lsa().router() else {
        return Ok(());
    };
    if is_lsa_of(root, reached.lsa()) {
        return Ok(());
    }
    let flags = router.flags();
    add_entry(alloc, area, reached, flags, BIT_B, EntryKind::Border)?;
    add_entry(alloc, area, reached, flags, BIT_E, EntryKind::AsbrIntra)
}

/// Adds the entries of all routers, in the order of the vertices.
pub(crate) fn add_entries<A: Allocator + Copy>(
    alloc: A,
    area: &mut AreaResult<A>,
    root: RouterId,
    reached: &[Reached<'_, A>],
) -> Result<(), AllocError>
    ensures { OnOk result (area.new
        ≡ with_entries area.old (area_entries area.old.area root reached.now)) }
{
    for vertex in reached {
        add_entries_of(alloc, area, root, vertex)?;
    }
    Ok(())
}
