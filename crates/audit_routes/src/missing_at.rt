//! The places of summary-LSAs that are not there.

ghost use Rattle.std.specs.Prelude.{◌≡◌};
ghost use Rattle.audit_routes.specs.Missing.{announced_metric, missing_at};

use audit_places::{Form, Place};
use lsa_codec::LS_INFINITY;
use lsa_names::LsaName;
use std::alloc::Allocator;

/// The metric for a cost, if that is below LSInfinity.
fn announced_metric(cost: u64) -> Option<u32>
    ensures { result ≡ announced_metric cost }
{
    if cost < u64::from(LS_INFINITY) {
        Some(cost as u32)
    } else {
        None
    }
}

/// The place of a summary-LSA of this name for a cost, if that is below LSInfinity.
pub(crate) fn missing_at<A: Allocator + Copy>(lsa: LsaName, cost: u64) -> Option<Place<A>>
    ensures { result ≡ missing_at lsa cost }
{
    let metric = announced_metric(cost)?;
    Some(Place::of(Form::Missing { lsa, metric }))
}
