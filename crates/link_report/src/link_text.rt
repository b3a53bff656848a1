//! The line of a link, as `r3 area 0.0.0.0 #2 stub 10.0.13.0/30, cost 10, of #1`: the router, the
//! area and the description; descriptions and names of links.

ghost use Rattle.std.specs.Prelude.{◌≡◌, ◌++◌, IfOk, OnOk, map};
ghost use Rattle.network_names.specs.Names.{called};
ghost use Rattle.link_report.specs.LinkTexts.{back_text, description, far_text, kind_text, name_text, net_text, numbered_text, owner_text, place_text, rest_text, where_text};

use crate::link_line::LinkLine;
use crate::link_side::InterfaceStub;
use lsa_codec::{Addr, AreaId, Link, LinkKind, Prefix, RouterId};
use network_names::Names;
use std::alloc::{AllocError, Allocator};
use study_text::{
    Line, Shown, push_address, push_after, push_joined_or, push_number, push_number_after,
    push_prefix, push_router, push_word,
};

/// Adds the router of a link, and the area.
fn push_place<A: Allocator + Copy>(
    text: &mut Vec<u8, A>,
    names: &Names<'_, A>,
    router: RouterId,
    area: AreaId,
) -> Result<(), AllocError>
    ensures { OnOk result
        (text.new.items ≡ text.old.items ++ place_text (called names.now) router area) }
{
    push_router(text, names, router)?;
    push_word(text, " area ")?;
    push_address(text, Addr(area.0))?;
    push_word(text, " ")
}

impl<A: Allocator + Copy> Line for LinkLine<A> {
    ghost use Rattle.link_report.specs.LinkTexts.{link_line};

    ghost line_as = { link_line };

    fn push_line<B: Allocator + Copy>(
        &self,
        text: &mut Vec<u8, B>,
        names: &Names<'_, B>,
    ) -> Result<(), AllocError> {
        push_place(text, names, self.router, self.area)?;
        push_link(text, names, self)?;
        push_word(text, "\n")
    }
}

/// Adds the kind of a link.
fn push_kind<A: Allocator + Copy>(text: &mut Vec<u8, A>, kind: LinkKind) -> Result<(), AllocError>
    ensures { OnOk result (text.new.items ≡ text.old.items ++ kind_text kind) }
{
    match kind {
        LinkKind::PointToPoint => push_word(text, "point-to-point"),
        LinkKind::Transit => push_word(text, "transit"),
        LinkKind::Stub => push_word(text, "stub"),
        LinkKind::Virtual => push_word(text, "virtual"),
        LinkKind::Other(code) => push_number_after(text, "type ", u64::from(code)),
    }
}

/// Adds what a link leads to: a router, or else the address of its Link ID.
fn push_far<A: Allocator + Copy>(
    text: &mut Vec<u8, A>,
    names: &Names<'_, A>,
    link: Link,
) -> Result<(), AllocError>
    ensures { OnOk result
        (text.new.items ≡ text.old.items ++ far_text (called names.now) link) }
{
    match link.kind {
        LinkKind::PointToPoint | LinkKind::Virtual => {
            push_router(text, names, RouterId(link.id.0))
        }
        _ => push_address(text, link.id),
    }
}

/// Adds a prefix, or `none`.
fn push_net<A: Allocator + Copy>(
    text: &mut Vec<u8, A>,
    net: Option<Prefix>,
) -> Result<(), AllocError>
    ensures { OnOk result (text.new.items ≡ text.old.items ++ net_text net) }
{
    match net {
        Some(net) => push_prefix(text, net),
        None => push_word(text, "none"),
    }
}

/// Adds where a link leads: the prefix of a stub link, or the far end and the Link Data.
fn push_where<A: Allocator + Copy>(
    text: &mut Vec<u8, A>,
    names: &Names<'_, A>,
    link: Link,
) -> Result<(), AllocError>
    ensures { OnOk result
        (text.new.items ≡ text.old.items ++ where_text (called names.now) link) }
{
    if link.kind.is_stub() {
        push_word(text, " ")?;
        return push_net(text, link.net());
    }
    push_word(text, " to ")?;
    push_far(text, names, link)?;
    push_word(text, ", ")?;
    push_address(text, link.link_data)
}

/// Adds the name of a link of a router-LSA, as `#1 point-to-point to r2, 10.0.12.1`: its number,
/// counted from 1, its kind, and where it leads.
///
/// # Errors
///
/// Memory ran out. A part of the text may have been added.
pub fn push_numbered<A: Allocator + Copy>(
    text: &mut Vec<u8, A>,
    names: &Names<'_, A>,
    number: usize,
    link: Link,
) -> Result<(), AllocError>
    ensures { OnOk result
        (text.new.items ≡ text.old.items ++ numbered_text (called names.now) number link) }
{
    push_number_after(text, "#", number as u64)?;
    push_word(text, " ")?;
    push_kind(text, link.kind)?;
    push_where(text, names, link)
}

/// Adds the name of a link, as [`push_numbered`] does.
///
/// # Errors
///
/// Memory ran out. A part of the text may have been added.
pub fn push_link_name<A: Allocator + Copy, B: Allocator + Copy>(
    text: &mut Vec<u8, A>,
    names: &Names<'_, A>,
    line: &LinkLine<B>,
) -> Result<(), AllocError>
    ensures { OnOk result
        (text.new.items ≡ text.old.items ++ name_text (called names.now) line.now) }
{
    push_numbered(text, names, line.number, line.link)
}

impl Shown for InterfaceStub {
    ghost use Rattle.link_report.specs.LinkTexts.{stub_text};

    ghost shown_as = { λ called stub. stub_text stub };

    fn push_to<A: Allocator + Copy>(
        &self,
        text: &mut Vec<u8, A>,
        _names: &Names<'_, A>,
    ) -> Result<(), AllocError> {
        push_number(text, self.number as u64)?;
        push_word(text, " ")?;
        push_net(text, self.link.net())?;
        push_number_after(text, " cost ", u64::from(self.link.metric))
    }
}

/// A cost, which is shown as a number.
#[derive(Clone, Copy)]
struct Cost(u32);

impl Shown for Cost {
    ghost use Rattle.std.specs.Prelude.{decimal};

    ghost shown_as = { λ called cost. decimal cost.0 };

    fn push_to<A: Allocator + Copy>(
        &self,
        text: &mut Vec<u8, A>,
        _names: &Names<'_, A>,
    ) -> Result<(), AllocError> {
        push_number(text, u64::from(self.0))
    }
}

/// These costs, as they are shown.
fn costs_shown<A: Allocator + Copy>(alloc: A, costs: &[u32]) -> Result<Vec<Cost, A>, AllocError>
    ensures { IfOk result (λ shown. shown.items ≡ map (λ cost. record { 0 = cost }) costs.now) }
{
    costs.iter().map(|cost| Cost(*cost)).collect(alloc)
}

/// Adds what it costs to come back over a link: costs joined by slashes, or `none`.
fn push_back<A: Allocator + Copy>(
    text: &mut Vec<u8, A>,
    names: &Names<'_, A>,
    costs: &[u32],
) -> Result<(), AllocError>
    ensures { OnOk result (text.new.items ≡ text.old.items ++ back_text costs.now) }
{
    let shown = costs_shown(*text.allocator(), costs)?;
    push_word(text, ", back ")?;
    push_joined_or(text, names, "none", "", "/", &shown)
}

/// Adds the link whose interface has a link as its stub link, if there is one.
fn push_owner<A: Allocator + Copy>(
    text: &mut Vec<u8, A>,
    owner: Option<usize>,
) -> Result<(), AllocError>
    ensures { OnOk result (text.new.items ≡ text.old.items ++ owner_text owner) }
{
    match owner {
        Some(number) => push_number_after(text, ", of #", number as u64),
        None => Ok(()),
    }
}

/// Adds what stands in the description of a link after its cost.
fn push_rest<A: Allocator + Copy, B: Allocator + Copy>(
    text: &mut Vec<u8, A>,
    names: &Names<'_, A>,
    line: &LinkLine<B>,
) -> Result<(), AllocError>
    ensures { OnOk result (text.new.items ≡ text.old.items ++ rest_text line.now) }
{
    match line.link.kind {
        LinkKind::PointToPoint => {
            push_back(text, names, &line.back)?;
            push_word(text, ", peer ")?;
            push_joined_or(text, names, "none", "", "/", &line.peers)?;
            push_after(text, names, ", stub #", line.stub.as_ref())
        }
        LinkKind::Transit => {
            push_back(text, names, &line.back)?;
            push_word(text, ", network ")?;
            push_net(text, line.net)
        }
        LinkKind::Stub => push_owner(text, line.owner),
        LinkKind::Virtual | LinkKind::Other(_) => Ok(()),
    }
}

/// Adds the description of a link, as
/// `#1 point-to-point to r1, 10.0.13.2, cost 10, back 10, peer 10.0.13.1, stub #2 10.0.13.0/30 cost
/// 10`: its name, its cost, and what is known of its other end.
///
/// # Errors
///
/// Memory ran out. A part of the text may have been added.
pub fn push_link<A: Allocator + Copy, B: Allocator + Copy>(
    text: &mut Vec<u8, A>,
    names: &Names<'_, A>,
    line: &LinkLine<B>,
) -> Result<(), AllocError>
    ensures { OnOk result
        (text.new.items ≡ text.old.items ++ description (called names.now) line.now) }
{
    push_link_name(text, names, line)?;
    push_number_after(text, ", cost ", u64::from(line.link.metric))?;
    push_rest(text, names, line)
}
