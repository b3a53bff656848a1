//! Transit networks, each of which fails alone.

ghost use Rattle.std.specs.Prelude.{◌≡◌, IfOk};
ghost use Rattle.sweep_report.specs.Failures.{network_failures_among, network_failure};

use crate::within::is_within;
use edit_script::Edit;
use link_report::NetworkLine;
use lsa_codec::AreaId;
use std::alloc::{AllocError, Allocator};

/// The failure of a network.
fn network_failure<A: Allocator>(line: &NetworkLine<A>) -> Edit
    ensures { result ≡ network_failure line.now }
{
    Edit::FailNet {
        area: line.area,
        network: line.place.address,
    }
}

/// The failures of those of some networks that are within an area.
///
/// # Errors
///
/// Memory ran out.
pub(crate) fn network_failures_among<A: Allocator + Copy>(
    alloc: A,
    lines: &[NetworkLine<A>],
    within: Option<AreaId>,
) -> Result<Vec<Edit, A>, AllocError>
    ensures { IfOk result (λ edits. edits.items ≡ network_failures_among within lines.now) }
{
    lines
        .iter()
        .filter(|line| is_within(within, line.area))
        .map(|line| network_failure(line))
        .collect(alloc)
}
