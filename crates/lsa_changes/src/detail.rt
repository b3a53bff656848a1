//! What matters of an LSA that came or went.

ghost use Rattle.std.specs.Prelude.{◌≡◌, ◌++◌, OnOk, codes, decimal, length};
ghost use Rattle.lsa_codec.specs.Spelling.{address_text};
ghost use Rattle.lsa_codec.specs.Views.{attached_of};
ghost use Rattle.lsa_changes.specs.Details.{detail_of, detail_text, external_of, external_text, type_text};

use lsa_codec::{Addr, ExternalView, Lsa};
use std::alloc::{AllocError, Allocator};
use study_text::{push_address, push_number};

/// The fields of an AS-external-LSA but for its mask (RFC 2328, A.4.5).
#[derive(Clone, Copy, Debug, PartialEq, Eq)]
pub struct External {
    /// Whether the metric is of type 2.
    pub is_type2: bool,
    /// The metric.
    pub metric: u32,
    /// The forwarding address.
    pub forward: Addr,
    /// The external route tag.
    pub tag: u32,
}

/// What matters of an LSA that only one of two databases has.
#[derive(Clone, Copy, Debug, PartialEq, Eq)]
pub enum Detail {
    /// A router-LSA: how many links it has.
    Links(usize),
    /// A network-LSA: how many routers it lists.
    Members(usize),
    /// A summary-LSA: its metric.
    Metric(u32),
    /// An AS-external-LSA: its fields.
    External(External),
    /// Any other LSA: its length.
    Bytes(usize),
}

/// The fields of an AS-external-LSA.
fn external_of(lsa: &ExternalView<'_>) -> External
    ensures { result ≡ external_of lsa.now }
{
    External {
        is_type2: lsa.is_type2(),
        metric: lsa.metric(),
        forward: lsa.forward(),
        tag: lsa.tag(),
    }
}

/// Where the routers that a network-LSA lists begin (RFC 2328, A.4.3).
const MEMBERS_AT: usize = 24;

/// How many routers a network-LSA lists, of 4 bytes each.
#[tactic(auto, using(crate::proofs::MemberCounts::members))]
fn member_count<A: Allocator + Copy>(lsa: &Lsa<A>) -> usize
    ensures { result ≡ length (attached_of lsa.now) }
{
    lsa.bytes().len().saturating_sub(MEMBERS_AT) / 4
}

impl Detail {
    /// What matters of an LSA.
    pub fn of<A: Allocator + Copy>(lsa: &Lsa<A>) -> Detail
        ensures { result ≡ detail_of lsa.now }
    {
        if let Some(router) = lsa.router() {
            return Detail::Links(usize::from(router.link_count()));
        }
        if lsa.network().is_some() {
            return Detail::Members(member_count(lsa));
        }
        if let Some(summary) = lsa.summary() {
            return Detail::Metric(summary.metric());
        }
        match lsa.external() {
            Some(external) => Detail::External(external_of(&external)),
            None => Detail::Bytes(lsa.bytes().len()),
        }
    }
}

/// Adds a number and what it counts.
fn push_counted<A: Allocator + Copy>(
    text: &mut Vec<u8, A>,
    count: usize,
    what: &[u8],
) -> Result<(), AllocError>
    ensures { OnOk result (text.new.items ≡ text.old.items ++ (decimal count ++ what.now)) }
{
    push_number(text, count as u64)?;
    text.extend_from_slice(what)
}

/// Adds a word and a number.
fn push_field<A: Allocator + Copy>(
    text: &mut Vec<u8, A>,
    word: &[u8],
    number: u64,
) -> Result<(), AllocError>
    ensures { OnOk result (text.new.items ≡ text.old.items ++ (word.now ++ decimal number)) }
{
    text.extend_from_slice(word)?;
    push_number(text, number)
}

/// Adds the type of an external metric.
fn push_type<A: Allocator + Copy>(text: &mut Vec<u8, A>, is_type2: bool) -> Result<(), AllocError>
    ensures { OnOk result (text.new.items ≡ text.old.items ++ type_text is_type2) }
{
    if is_type2 {
        text.extend_from_slice(b"type 2")
    } else {
        text.extend_from_slice(b"type 1")
    }
}

/// Adds the fields of an AS-external-LSA.
fn push_external<A: Allocator + Copy>(
    text: &mut Vec<u8, A>,
    external: External,
) -> Result<(), AllocError>
    ensures { OnOk result (text.new.items ≡ text.old.items ++ external_text external) }
{
    push_type(text, external.is_type2)?;
    push_field(text, b" metric ", u64::from(external.metric))?;
    text.extend_from_slice(b" forward ")?;
    push_address(text, external.forward)?;
    push_field(text, b" tag ", u64::from(external.tag))
}

/// Adds what matters of an LSA: `3 links`, `4 members`, `metric 30`,
/// `type 2 metric 20 forward 0.0.0.0 tag 0` or `44 bytes`.
///
/// # Errors
///
/// Memory ran out. A part of the text may have been added.
pub fn push_detail<A: Allocator + Copy>(
    text: &mut Vec<u8, A>,
    detail: Detail,
) -> Result<(), AllocError>
    ensures { OnOk result (text.new.items ≡ text.old.items ++ detail_text detail) }
{
    match detail {
        Detail::Links(count) => push_counted(text, count, b" links"),
        Detail::Members(count) => push_counted(text, count, b" members"),
        Detail::Metric(metric) => push_field(text, b"metric ", u64::from(metric)),
        Detail::External(external) => push_external(text, external),
        Detail::Bytes(count) => push_counted(text, count, b" bytes"),
    }
}
