//! The body of a summary-LSA (RFC 2328, A.4.4) in JSON.

ghost use Rattle.std.specs.Prelude.{◌≡◌, ◌≤◌, IfSome};
ghost use Rattle.json.specs.Value.{value_view};
ghost use Rattle.frr_json.specs.Bodies.{summary_in};

use crate::member::number_at;
use frr_text::fields::Summary;
use json::Value;
use lsa_codec::LS_INFINITY;
use std::alloc::Allocator;

/// The fields after the header.
#[tactic(auto, unfolding(crate::specs::Bodies::summary_in))]
pub(crate) fn summary_in<A: Allocator>(json: &Value<'_, A>) -> Option<Summary>
    ensures value { result ≡ summary_in (value_view json.now) }
    ensures mask { IfSome result (λ summary. summary.len ≤ 32) }
{
    let len = number_at(32, "networkMask", json)?;
    let metric = number_at(LS_INFINITY, "tos0Metric", json)?;
    Some(Summary {
        len: len as u8,
        metric,
    })
}
