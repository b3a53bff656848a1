//! Edits of the links of one router-LSA.

ghost use Rattle.edit_script.specs.declared.edit.Edit.TheVariants.{Cost, DropLink, AddStub};
ghost use Rattle.edit_history.specs.steps.Plans.{IsPlan};

use crate::fault::EditFault;
use crate::limits::is_dump_full;
use crate::lookup::router_lsa;
use crate::swap::{Swap, one_swap};
use lsa_codec::{AreaId, LONGEST_LSA, Prefix, ROUTER_LSA, RouterId};
use lsdb::{Database, Section};
use std::alloc::Allocator;

/// The bytes of a link without TOS metrics (RFC 2328, A.4.2).
const STUB_BYTES: u16 = 12;

/// The metric of a link becomes another one: the cost of an interface (RFC 2328, C.3), in the
/// router-LSA that its router originates for the area (12.4.1).
pub(crate) fn plan_cost<A: Allocator + Copy>(
    database: &Database<A>,
    area: AreaId,
    router: RouterId,
    link: u16,
    metric: u16,
) -> Result<Vec<Swap<A>, A>, EditFault>
    ensures { IsPlan database.now database.now
        (Cost area router link metric) (λ v. v.items) result }
{
    // Its invariant is needed after each swap too.
    database.assert_valid();
    let (slot, lsa) = router_lsa(database, area, router)?;
    let new = lsa.with_cost(database.alloc(), link, metric)?;
    let swap = Swap::new(slot, Section::Area(area), ROUTER_LSA, Some(new));
    Ok(one_swap(database.alloc(), swap)?)
}

/// A link is removed, with its TOS metrics.
pub(crate) fn plan_drop_link<A: Allocator + Copy>(
    database: &Database<A>,
    area: AreaId,
    router: RouterId,
    link: u16,
) -> Result<Vec<Swap<A>, A>, EditFault>
    ensures { IsPlan database.now database.now (DropLink area router link) (λ v. v.items) result }
{
    // Its invariant is needed after each swap too.
    database.assert_valid();
    let (slot, lsa) = router_lsa(database, area, router)?;
    let new = lsa.without_link(database.alloc(), link)?;
    let swap = Swap::new(slot, Section::Area(area), ROUTER_LSA, Some(new));
    Ok(one_swap(database.alloc(), swap)?)
}

/// A router-LSA gets a link to a stub network, after its last link.
pub(crate) fn plan_add_stub<A: Allocator + Copy>(
    database: &Database<A>,
    area: AreaId,
    router: RouterId,
    prefix: Prefix,
    metric: u16,
) -> Result<Vec<Swap<A>, A>, EditFault>
    ensures { IsPlan database.now database.now
        (AddStub area router prefix metric) (λ v. v.items) result }
{
    // Its invariant is needed after each swap too.
    database.assert_valid();
    let (slot, lsa) = router_lsa(database, area, router)?;
    if lsa.bytes().len() + usize::from(STUB_BYTES) > LONGEST_LSA {
        return Err(EditFault::TooLong);
    }
    if is_dump_full(database, STUB_BYTES) {
        return Err(EditFault::Full);
    }
    let new = lsa.with_stub(database.alloc(), prefix, metric)?;
    let swap = Swap::new(slot, Section::Area(area), ROUTER_LSA, Some(new));
    Ok(one_swap(database.alloc(), swap)?)
}
