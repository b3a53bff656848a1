//! The area whose summary-LSAs are examined.

ghost use Rattle.std.specs.Prelude.{◌≡◌};
ghost use Rattle.std.specs.Option.{option_copied};
ghost use Rattle.area_routes.specs.Inter.{backbone, examined};

use crate::area_result::AreaResult;
use lsa_codec::AreaId;
use std::alloc::Allocator;

/// The result of the backbone among the results of areas (RFC 2328, 3.1).
pub fn backbone<A: Allocator + Copy>(results: &[AreaResult<A>]) -> Option<&AreaResult<A>>
    ensures { option_copied result ≡ backbone results.now }
{
    results.iter().find(|area| area.area() == AreaId::BACKBONE)
}

/// The result of the area whose summary-LSAs are examined: the only area, or the backbone alone
/// where there are several (RFC 2328, 16.2).
pub(crate) fn examined<A: Allocator + Copy>(results: &[AreaResult<A>]) -> Option<&AreaResult<A>>
    ensures { option_copied result ≡ examined results.now }
{
    match results {
        [] => None,
        [only] => Some(only),
        _ => backbone(results),
    }
}
