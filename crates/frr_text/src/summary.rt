//! The body of a summary-LSA (RFC 2328, A.4.4) as it is printed, and its bytes.

ghost use Rattle.std.specs.Prelude.{◌≡◌, ◌≤◌, ◌<◌, ◌^◌, IfSome};
ghost use Rattle.frr_text.specs.Words.{words};
ghost use Rattle.frr_text.specs.Bodies.{summary_in, summary_bytes};

use crate::label::{Label, mask_after, number_after};
use lsa_codec::{LS_INFINITY, mask_of_len};

/// What a summary-LSA has after its header.
#[derive(Clone, Copy)]
pub struct Summary {
    /// The length of the network mask, at most 32.
    pub len: u8,
    /// The metric for TOS 0, of 24 bits.
    pub metric: u32,
}

/// The fields after the header.
#[tactic(auto, unfolding(crate::specs::Bodies::summary_in))]
pub(crate) fn summary_in(text: &[u8]) -> Option<Summary>
    ensures value { result ≡ summary_in (words text.now) }
    ensures mask { IfSome result (λ summary. summary.len ≤ 32) }
    ensures metric { IfSome result (λ summary. summary.metric < 2 ^ 24) }
{
    let (len, rest) = mask_after(Label::Mask, text)?;
    let (metric, _) = number_after(LS_INFINITY, Label::Metric, rest)?;
    Some(Summary {
        len: len as u8,
        metric,
    })
}

/// Their bytes: the mask and the metric.
pub fn summary_bytes(summary: Summary) -> [u8; 8]
    requires { summary.len ≤ 32 }
    ensures { result ≡ summary_bytes summary }
{
    let [k0, k1, k2, k3] = mask_of_len(summary.len).to_be_bytes();
    let [m0, m1, m2, m3] = summary.metric.to_be_bytes();
    [k0, k1, k2, k3, m0, m1, m2, m3]
}
