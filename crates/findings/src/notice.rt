//! Findings that do not matter to the planner.

ghost use Rattle.std.specs.Prelude.{◌≡◌, IfOk};
ghost use Rattle.std.specs.List.{filter_map};
ghost use Rattle.findings.specs.Notices.{chosen, is_left_out, is_notice, is_opaque_type};

use crate::feature::Feature;
use crate::finding::Finding;
use lsa_codec::AS_OPAQUE_LSA;
use lsa_instances::LINK_OPAQUE_LSA;
use std::alloc::{AllocError, Allocator};

/// Whether LSAs of this type are opaque (RFC 5250, 3): the planner leaves them out.
pub fn is_opaque_type(kind: u8) -> bool
    ensures { result ≡ is_opaque_type kind }
{
    LINK_OPAQUE_LSA <= kind && kind <= AS_OPAQUE_LSA
}

/// Whether the planner can leave out what shows this feature, and its tables stay right.
fn is_left_out(feature: Feature) -> bool
    ensures { result ≡ is_left_out feature }
{
    matches!(feature, Feature::Opaque)
}

/// Whether a finding is a notice: it is about nothing but opaque LSAs, which give no routes. All
/// others say that the tables of the planner may be wrong.
#[tactic(auto, unfolding(crate::specs::Notices::is_notice))]
pub fn is_notice(finding: Finding) -> bool
    ensures { result ≡ is_notice finding }
{
    match finding {
        Finding::Unused(lsa, _) => is_opaque_type(lsa.key.kind),
        Finding::Unseen(place) | Finding::Newer(place) => is_opaque_type(place.key.kind),
        Finding::NotRead(feature, _) | Finding::LeftOut(_, feature, _) => is_left_out(feature),
        _ => false,
    }
}

/// The finding, if it is a notice, or, where `notices` is false, if it is none.
fn chosen(notices: bool, finding: Finding) -> Option<Finding>
    ensures { result ≡ chosen notices finding }
{
    if is_notice(finding) == notices {
        Some(finding)
    } else {
        None
    }
}

/// The notices among findings, or, where `notices` is false, the others, in their order.
///
/// # Errors
///
/// Memory ran out.
pub fn choose<A: Allocator + Copy>(
    alloc: A,
    notices: bool,
    findings: &[Finding],
) -> Result<Vec<Finding, A>, AllocError>
    ensures { IfOk result (λ found. found.items ≡ filter_map (chosen notices) findings.now) }
{
    findings
        .iter()
        .filter_map(|finding| chosen(notices, *finding))
        .collect(alloc)
}
