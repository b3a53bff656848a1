//! The links of a router in an area.

ghost use Rattle.std.specs.Prelude.{◌≡◌, IfOk};
ghost use Rattle.audit_links.specs.Links.{links_in};

use audit_areas::AuditedArea;
use link_report::links_of;
use lsa_codec::{Link, RouterId};
use std::alloc::{AllocError, Allocator};

/// The links of a router in an area, in the order of its router-LSA there; none where it has none
/// below MaxAge.
pub(crate) fn links_in<A: Allocator + Copy>(
    alloc: A,
    area: &AuditedArea<'_, A>,
    router: RouterId,
) -> Result<Vec<Link, A>, AllocError>
    ensures { IfOk result (λ links. links.items ≡ links_in area.now router) }
{
    match area.router_lsa(router) {
        Some(lsa) => links_of(alloc, &lsa),
        None => Ok(Vec::new(alloc)),
    }
}
