//! What LSAs are called.

ghost use Rattle.std.specs.Prelude.{◌≡◌, ◌++◌, OnOk, codes, decimal};
ghost use Rattle.lsa_codec.specs.Spelling.{address_text, prefix_text};
ghost use Rattle.network_names.specs.Names.{called};
ghost use Rattle.study_text.specs.Shown.{shown};
ghost use Rattle.lsa_names.specs.LsaNames.{front_text, id_text, lsa_name, name_text, net_of_any, net_text, originator_text, subject_text};

use lsa_codec::{
    ASBR_SUMMARY_LSA, Addr, AreaId, EXTERNAL_LSA, Key, Lsa, NETWORK_LSA, Prefix, ROUTER_LSA,
    RouterId, SUMMARY_LSA,
};
use network_names::Names;
use std::alloc::{AllocError, Allocator};
use study_text::{push_address, push_number, push_prefix, push_router};

/// What names an LSA: its area, unless it has AS scope, its key, and the prefix of a network-LSA, a
/// summary-LSA of type 3 or an AS-external-LSA.
#[derive(Clone, Copy, Debug, PartialEq, Eq, PartialOrd, Ord)]
pub struct LsaName {
    /// The area.
    pub area: Option<AreaId>,
    /// LS type, Link State ID and Advertising Router.
    pub key: Key,
    /// The prefix.
    pub net: Option<Prefix>,
}

/// The prefix of an LSA, if its type has one.
fn net_of_any<A: Allocator + Copy>(lsa: &Lsa<A>) -> Option<Prefix>
    ensures { result ≡ net_of_any lsa.now }
{
    if let Some(network) = lsa.network() {
        return Some(network.net());
    }
    if let Some(summary) = lsa.summary() {
        return summary.net();
    }
    let external = lsa.external()?;
    Some(external.net())
}

impl LsaName {
    /// The name of an LSA of an area, or of AS scope where there is no area.
    pub fn of<A: Allocator + Copy>(area: Option<AreaId>, lsa: &Lsa<A>) -> LsaName
        ensures { result ≡ lsa_name area lsa.now }
    {
        LsaName {
            area,
            key: lsa.key(),
            net: net_of_any(lsa),
        }
    }
}

/// Adds the area of an LSA, if it has one.
fn push_front<A: Allocator + Copy>(
    text: &mut Vec<u8, A>,
    area: Option<AreaId>,
) -> Result<(), AllocError>
    ensures { OnOk result (text.new.items ≡ text.old.items ++ front_text area) }
{
    let Some(area) = area else {
        return Ok(());
    };
    text.extend_from_slice(b"area ")?;
    push_address(text, Addr(area.0))?;
    text.extend_from_slice(b" ")
}

/// Adds the Advertising Router of an LSA.
fn push_originator<A: Allocator + Copy>(
    text: &mut Vec<u8, A>,
    names: &Names<'_, A>,
    router: RouterId,
) -> Result<(), AllocError>
    ensures { OnOk result
        (text.new.items ≡ text.old.items ++ originator_text (called names.now) router) }
{
    text.extend_from_slice(b" by ")?;
    push_router(text, names, router)
}

/// Adds the Link State ID of an LSA with a prefix, unless it is the address of the prefix.
fn push_id<A: Allocator + Copy>(
    text: &mut Vec<u8, A>,
    net: Prefix,
    id: Addr,
) -> Result<(), AllocError>
    ensures { OnOk result (text.new.items ≡ text.old.items ++ id_text net id) }
{
    if net.addr().0 == id.0 {
        return Ok(());
    }
    text.extend_from_slice(b" id ")?;
    push_address(text, id)
}

/// Adds the prefix of an LSA with its Link State ID.
fn push_net<A: Allocator + Copy>(
    text: &mut Vec<u8, A>,
    net: Option<Prefix>,
    id: Addr,
) -> Result<(), AllocError>
    ensures { OnOk result (text.new.items ≡ text.old.items ++ net_text net id) }
{
    let Some(net) = net else {
        return Ok(());
    };
    push_prefix(text, net)?;
    push_id(text, net, id)
}

/// Adds the type of an LSA that is no router-LSA, and what it describes.
fn push_subject<A: Allocator + Copy>(
    text: &mut Vec<u8, A>,
    names: &Names<'_, A>,
    name: &LsaName,
) -> Result<(), AllocError>
    ensures { OnOk result
        (text.new.items ≡ text.old.items ++ subject_text (called names.now) name.now) }
{
    match name.key.kind {
        NETWORK_LSA => {
            text.extend_from_slice(b"network ")?;
            push_address(text, name.key.id)
        }
        SUMMARY_LSA => {
            text.extend_from_slice(b"summary ")?;
            push_net(text, name.net, name.key.id)
        }
        ASBR_SUMMARY_LSA => {
            text.extend_from_slice(b"asbr-summary ")?;
            push_router(text, names, RouterId(name.key.id.0))
        }
        EXTERNAL_LSA => {
            text.extend_from_slice(b"external ")?;
            push_net(text, name.net, name.key.id)
        }
        kind => {
            text.extend_from_slice(b"type ")?;
            push_number(text, u64::from(kind))?;
            text.extend_from_slice(b" ")?;
            push_address(text, name.key.id)
        }
    }
}

/// Adds what an LSA is called, as `area 0.0.0.0 summary 10.1.0.0/24 by r3`: its area, its type,
/// what it describes, and its Advertising Router.
///
/// # Errors
///
/// Memory ran out. A part of the text may have been added.
pub fn push_lsa_name<A: Allocator + Copy>(
    text: &mut Vec<u8, A>,
    names: &Names<'_, A>,
    name: &LsaName,
) -> Result<(), AllocError>
    ensures { OnOk result
        (text.new.items ≡ text.old.items ++ name_text (called names.now) name.now) }
{
    push_front(text, name.area)?;
    if name.key.kind == ROUTER_LSA {
        text.extend_from_slice(b"router ")?;
        return push_router(text, names, name.key.adv);
    }
    push_subject(text, names, name)?;
    push_originator(text, names, name.key.adv)
}
