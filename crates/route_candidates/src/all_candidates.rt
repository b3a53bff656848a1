//! All candidates for a route.

ghost use Rattle.std.specs.Prelude.{◌≡◌, IfOk};
ghost use Rattle.route_candidates.specs.Candidates.{candidates};

use crate::candidate::Candidate;
use crate::decided::{decided, has_left};
use crate::externals::external_drafts;
use crate::router_view::RouterView;
use area_candidates::{inter_drafts, intra_drafts};
use lsa_codec::Prefix;
use std::alloc::{AllocError, Allocator};

/// All that could give a router a route to a prefix, live or not, with the rule of each: in each
/// of its areas the network-LSAs of the prefix and the stub links with it, then in each area the
/// summary-LSAs, then the AS-external-LSAs. Those that are used give the route.
///
/// # Errors
///
/// Memory ran out.
pub fn candidates<A: Allocator + Copy>(
    alloc: A,
    view: &RouterView<'_, A>,
    net: Prefix,
) -> Result<Vec<Candidate, A>, AllocError>
    ensures { IfOk result (λ found. found.items ≡ candidates view.now net) }
{
    let within = intra_drafts(alloc, view.areas(), net)?;
    let is_within = has_left(&within);
    let between = inter_drafts(alloc, is_within, view.areas(), net)?;
    let is_inside = is_within || has_left(&between);
    let outside = external_drafts(alloc, is_inside, view, net)?;
    let mut found = decided(alloc, &within)?;
    found.append(&mut decided(alloc, &between)?)?;
    found.append(&mut decided(alloc, &outside)?)?;
    Ok(found)
}
