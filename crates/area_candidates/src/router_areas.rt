//! The areas that a router is attached to.

ghost use Rattle.std.specs.Prelude.{◌≡◌, IfOk};
ghost use Rattle.lsdb.specs.Slots.{lists_of};
ghost use Rattle.area_candidates.specs.Views.{area_views};

use crate::area_view::AreaView;
use area_routes::is_attached;
use lsa_codec::RouterId;
use lsdb::Database;
use spf::Meter;
use std::alloc::{AllocError, Allocator};

/// The areas that a router is attached to, in rising order of their IDs, each with the router's
/// tree. The meter counts the trees.
///
/// # Errors
///
/// Memory ran out.
pub fn area_views<'a, A: Allocator + Copy>(
    alloc: A,
    database: &'a Database<A>,
    router: RouterId,
    meter: &mut Meter,
) -> Result<Vec<AreaView<'a, A>, A>, AllocError>
    ensures { IfOk result (λ views. views.items ≡ area_views (lists_of database.now) router) }
{
    let mut views = Vec::new(alloc);
    for i in 0..database.area_count() {
        let (area, is_stub) = database.area(i);
        if is_attached(database, area, router) {
            views.push(AreaView::of(alloc, database, area, is_stub, router, meter)?)?;
        }
    }
    Ok(views)
}
