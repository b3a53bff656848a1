//! The body of an AS-external-LSA (RFC 2328, A.4.5) as it is printed, and its bytes.

ghost use Rattle.std.specs.Prelude.{◌≡◌, ◌≤◌, ◌<◌, ◌^◌, IfSome, option_map};
ghost use Rattle.frr_text.specs.Words.{words};
ghost use Rattle.frr_text.specs.Bodies.{metric_type_in, external_in, external_bytes};

use crate::label::{Label, address_after, after_label, mask_after, number_after};
use lsa_codec::{LS_INFINITY, mask_of_len};

/// What an AS-external-LSA has after its header.
#[derive(Clone, Copy)]
pub struct External {
    /// The length of the network mask, at most 32.
    pub len: u8,
    /// Whether the metric is of type 2: the bit E.
    pub is_type2: bool,
    /// The metric for TOS 0, of 24 bits.
    pub metric: u32,
    /// The forwarding address, or 0.
    pub forward: u32,
    /// The external route tag.
    pub tag: u32,
}

/// Whether the metric is of type 2, and what follows its type.
fn metric_type_in(text: &[u8]) -> Option<(bool, &[u8])>
    ensures { option_map (λ found. (found.0, words found.1.now)) result
        ≡ metric_type_in (words text.now) }
{
    if let Some(rest) = after_label(Label::MetricType2, text) {
        return Some((true, rest));
    }
    match after_label(Label::MetricType1, text) {
        None => None,
        Some(rest) => Some((false, rest)),
    }
}

/// The fields after the header.
#[tactic(auto, unfolding(crate::specs::Bodies::external_in))]
pub(crate) fn external_in(text: &[u8]) -> Option<External>
    ensures value { result ≡ external_in (words text.now) }
    ensures mask { IfSome result (λ external. external.len ≤ 32) }
    ensures metric { IfSome result (λ external. external.metric < 2 ^ 24) }
{
    let (len, rest) = mask_after(Label::Mask, text)?;
    let (is_type2, rest) = metric_type_in(rest)?;
    let (metric, rest) = number_after(LS_INFINITY, Label::Metric, rest)?;
    let (forward, rest) = address_after(Label::Forward, rest)?;
    let (tag, _) = number_after(0xffff_ffff, Label::Tag, rest)?;
    Some(External {
        len: len as u8,
        is_type2,
        metric,
        forward,
        tag,
    })
}

/// Their bytes: the mask, the bit E and the metric, the forwarding address and the tag.
pub fn external_bytes(external: External) -> [u8; 16]
    requires { external.len ≤ 32 }
    ensures { result ≡ external_bytes external }
{
    let [k0, k1, k2, k3] = mask_of_len(external.len).to_be_bytes();
    let bit_e = if external.is_type2 { 0x80 } else { 0 };
    let [_, m1, m2, m3] = external.metric.to_be_bytes();
    let [f0, f1, f2, f3] = external.forward.to_be_bytes();
    let [t0, t1, t2, t3] = external.tag.to_be_bytes();
    [
        k0, k1, k2, k3, bit_e, m1, m2, m3, f0, f1, f2, f3, t0, t1, t2, t3,
    ]
}
