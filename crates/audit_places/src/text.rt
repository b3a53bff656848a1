//! The texts of places, and their lines.

ghost use Rattle.std.specs.Prelude.{◌≡◌, ◌++◌, OnOk, codes};
ghost use Rattle.lsa_codec.specs.Spelling.{address_text, prefix_text};
ghost use Rattle.network_names.specs.Names.{called};
ghost use Rattle.study_text.specs.Shown.{shown};
ghost use Rattle.audit_places.specs.Places.{place_value};
ghost use Rattle.audit_places.specs.Texts.{area_text, costs_text, in_area_text, interface_text, networks_text, parts_text, place_text, router_text, routers_text};

use crate::cost::Cost;
use crate::form::Form;
use crate::part::Part;
use crate::place::Place;
use crate::routers_text::{push_area, push_end, push_in_area, push_link, push_one_router};
use crate::summaries_text::{push_member, push_not_due, push_not_there};
use lsa_codec::{Addr, AreaId, Prefix, RouterId};
use lsa_names::push_lsa_name;
use network_names::Names;
use std::alloc::{AllocError, Allocator};
use study_text::{
    Line, Shown, push_address, push_joined, push_list, push_number_after, push_prefix, push_router,
    push_word,
};

/// Adds a router and a prefix, as `router r1 10.1.0.0/24`.
fn push_route<A: Allocator + Copy>(
    text: &mut Vec<u8, A>,
    names: &Names<'_, A>,
    router: RouterId,
    prefix: Prefix,
) -> Result<(), AllocError>
    ensures { OnOk result (text.new.items ≡ text.old.items
        ++ (router_text (called names.now) router ++ codes " " ++ prefix_text prefix)) }
{
    push_one_router(text, names, router)?;
    push_word(text, " ")?;
    push_prefix(text, prefix)
}

impl<B: Allocator + Copy> Shown for Part<B> {
    ghost use Rattle.audit_places.specs.Texts.{routers_text};

    ghost shown_as = { routers_text };

    fn push_to<A: Allocator + Copy>(
        &self,
        text: &mut Vec<u8, A>,
        names: &Names<'_, A>,
    ) -> Result<(), AllocError> {
        push_list(text, names, &self.routers)
    }
}

/// Adds the parts of an area, as `area 0.0.0.1 parts r1,r2 | r3`.
fn push_parts<A: Allocator + Copy, B: Allocator + Copy>(
    text: &mut Vec<u8, A>,
    names: &Names<'_, A>,
    area: AreaId,
    parts: &[Part<B>],
) -> Result<(), AllocError>
    ensures { OnOk result (text.new.items ≡ text.old.items
        ++ (area_text area ++ parts_text (called names.now) parts.now)) }
{
    push_area(text, area)?;
    push_word(text, " parts ")?;
    push_joined(text, names, " | ", parts)
}

/// Adds a router that is not described, as `area 0.0.0.1 router r4 named by r2`.
fn push_undescribed<A: Allocator + Copy>(
    text: &mut Vec<u8, A>,
    names: &Names<'_, A>,
    area: AreaId,
    router: RouterId,
    named_by: RouterId,
) -> Result<(), AllocError>
    ensures { OnOk result (text.new.items ≡ text.old.items
        ++ (in_area_text (called names.now) area router ++ codes " named by "
        ++ shown (called names.now) named_by)) }
{
    push_in_area(text, names, area, router)?;
    push_word(text, " named by ")?;
    push_router(text, names, named_by)
}

/// Adds a prefix of several networks, as `10.1.0.0/24 networks 10.1.0.1,10.1.0.2`.
fn push_networks<A: Allocator + Copy>(
    text: &mut Vec<u8, A>,
    names: &Names<'_, A>,
    prefix: Prefix,
    addresses: &[Addr],
) -> Result<(), AllocError>
    ensures { OnOk result
        (text.new.items ≡ text.old.items ++ (prefix_text prefix ++ networks_text addresses.now)) }
{
    push_prefix(text, prefix)?;
    push_word(text, " networks ")?;
    push_list(text, names, addresses)
}

/// Adds an address of several routers, as `10.0.0.1 routers r1,r2`.
fn push_shared<A: Allocator + Copy>(
    text: &mut Vec<u8, A>,
    names: &Names<'_, A>,
    address: Addr,
    routers: &[RouterId],
) -> Result<(), AllocError>
    ensures { OnOk result (text.new.items ≡ text.old.items
        ++ (address_text address.0 ++ codes " routers "
        ++ routers_text (called names.now) routers.now)) }
{
    push_address(text, address)?;
    push_word(text, " routers ")?;
    push_list(text, names, routers)
}

/// Adds the cost of a link, and the costs back, as ` cost 10 back 7/9`.
fn push_costs<A: Allocator + Copy>(
    text: &mut Vec<u8, A>,
    names: &Names<'_, A>,
    cost: u16,
    back: &[Cost],
) -> Result<(), AllocError>
    ensures { OnOk result (text.new.items ≡ text.old.items ++ costs_text cost back.now) }
{
    push_number_after(text, " cost ", u64::from(cost))?;
    push_word(text, " back ")?;
    push_joined(text, names, "/", back)
}

/// Adds an interface, up to its neighbors, as ` interface 10.0.0.1 to `.
fn push_interface_at<A: Allocator + Copy>(
    text: &mut Vec<u8, A>,
    address: Addr,
) -> Result<(), AllocError>
    ensures { OnOk result (text.new.items ≡ text.old.items ++ interface_text address) }
{
    push_word(text, " interface ")?;
    push_address(text, address)?;
    push_word(text, " to ")
}

/// Adds an interface of a router and its neighbors, as
/// `area 0.0.0.1 router r1 interface 10.0.0.1 to r2,r3`.
fn push_interface<A: Allocator + Copy>(
    text: &mut Vec<u8, A>,
    names: &Names<'_, A>,
    area: AreaId,
    router: RouterId,
    address: Addr,
    neighbors: &[RouterId],
) -> Result<(), AllocError>
    ensures { OnOk result (text.new.items ≡ text.old.items
        ++ (in_area_text (called names.now) area router ++ interface_text address
        ++ routers_text (called names.now) neighbors.now)) }
{
    push_in_area(text, names, area, router)?;
    push_interface_at(text, address)?;
    push_list(text, names, neighbors)
}

/// Adds a form of a place.
fn push_form<A: Allocator + Copy, B: Allocator + Copy>(
    text: &mut Vec<u8, A>,
    names: &Names<'_, A>,
    form: &Form<B>,
) -> Result<(), AllocError>
    ensures { OnOk result (text.new.items
        ≡ text.old.items ++ place_text (called names.now) (place_value form.now)) }
{
    match form {
        Form::Lsa(lsa) => push_lsa_name(text, names, lsa),
        Form::Due { lsa, metric, due } => push_not_due(text, names, lsa, *metric, *due),
        Form::Missing { lsa, metric } => push_not_there(text, names, lsa, *metric),
        Form::Router(router) => push_one_router(text, names, *router),
        Form::Route { router, prefix } => push_route(text, names, *router, *prefix),
        Form::Parts { area, parts } => push_parts(text, names, *area, parts),
        Form::Undescribed {
            area,
            router,
            named_by,
        } => push_undescribed(text, names, *area, *router, *named_by),
        Form::Networks { prefix, addresses } => push_networks(text, names, *prefix, addresses),
        Form::SharedAddress { address, routers } => push_shared(text, names, *address, routers),
        Form::OneWay {
            area,
            router,
            number,
            to,
        } => {
            push_link(text, names, *area, *router, *number)?;
            push_end(text, names, *to)
        }
        Form::Member { lsa, router } => push_member(text, names, lsa, *router),
        Form::Unequal {
            area,
            router,
            number,
            to,
            cost,
            back,
        } => {
            push_link(text, names, *area, *router, *number)?;
            push_router(text, names, *to)?;
            push_costs(text, names, *cost, back)
        }
        Form::Interface {
            area,
            router,
            data,
            neighbors,
        } => push_interface(text, names, *area, *router, *data, neighbors),
    }
}

impl<B: Allocator + Copy> Shown for Place<B> {
    ghost use Rattle.audit_places.specs.Texts.{place_text as text_of_place};

    ghost shown_as = { text_of_place };

    fn push_to<A: Allocator + Copy>(
        &self,
        text: &mut Vec<u8, A>,
        names: &Names<'_, A>,
    ) -> Result<(), AllocError> {
        push_form(text, names, self.form())
    }
}

impl<B: Allocator + Copy> Line for Place<B> {
    ghost use Rattle.audit_places.specs.Texts.{place_text as line_of_place};

    ghost line_as = { line_of_place };

    fn push_line<A: Allocator + Copy>(
        &self,
        text: &mut Vec<u8, A>,
        names: &Names<'_, A>,
    ) -> Result<(), AllocError> {
        push_form(text, names, self.form())?;
        push_word(text, "\n")
    }
}
