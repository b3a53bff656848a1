//! Routers in order, each once.

ghost use Rattle.std.specs.Prelude.{◌≡◌, IfOk};
ghost use Rattle.lsa_codec.specs.Order.{router_cmp};
ghost use Rattle.area_graph.specs.Rising.{rising};

use lsa_codec::RouterId;
use std::alloc::{AllocError, Allocator};
use std::collections::BTreeSet;

/// These routers in rising order, each once.
///
/// # Errors
///
/// Memory ran out.
pub fn in_order<A: Allocator + Copy>(
    alloc: A,
    routers: &[RouterId],
) -> Result<Vec<RouterId, A>, AllocError>
    ensures { IfOk result (λ sorted. sorted.items ≡ rising router_cmp routers.now) }
{
    let mut found = BTreeSet::new(alloc);
    for router in routers {
        found.insert(*router)?;
    }
    found.into_iter().collect(alloc)
}
