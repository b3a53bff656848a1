//! The text of what a router does with a packet.

ghost use Rattle.std.specs.Prelude.{◌≡◌, ◌++◌, OnOk, codes, decimal};
ghost use Rattle.lsa_codec.specs.Spelling.{prefix_text};
ghost use Rattle.network_names.specs.Names.{called};
ghost use Rattle.study_text.specs.Shown.{shown};
ghost use Rattle.route_lines.specs.PathTexts.{leading_text, step_by, step_way_text};
ghost use Rattle.route_lines.specs.RouteTexts.{address_after, out_text, source_text};

use crate::path_step::{PathStep, StepTarget, StepWay};
use crate::route_source::RouteSource;
use crate::route_text::push_source;
use lsa_codec::{Addr, Prefix, RouterId};
use network_names::Names;
use std::alloc::{AllocError, Allocator};
use study_text::{Line, push_after, push_number_after, push_prefix, push_router, push_word};

/// Adds the router that a way leads to, the interface, and the cost.
fn push_to_router<A: Allocator + Copy>(
    text: &mut Vec<u8, A>,
    names: &Names<'_, A>,
    router: RouterId,
    out: Option<Addr>,
    cost: u32,
) -> Result<(), AllocError>
    ensures { OnOk result (text.new.items ≡ text.old.items
        ++ (codes " -> " ++ shown (called names.now) router ++ out_text out ++ codes " cost "
        ++ decimal cost)) }
{
    push_word(text, " -> ")?;
    push_router(text, names, router)?;
    push_after(text, names, " out ", out.as_ref())?;
    push_number_after(text, " cost ", u64::from(cost))
}

/// Adds `delivered`, and the interface, if there is one.
fn push_delivered<A: Allocator + Copy>(
    text: &mut Vec<u8, A>,
    names: &Names<'_, A>,
    out: Option<Addr>,
) -> Result<(), AllocError>
    ensures { OnOk result
        (text.new.items ≡ text.old.items ++ (codes " delivered" ++ out_text out)) }
{
    push_word(text, " delivered")?;
    push_after(text, names, " out ", out.as_ref())
}

/// Adds `external`, and the interface and the address, if they are known.
fn push_external<A: Allocator + Copy>(
    text: &mut Vec<u8, A>,
    names: &Names<'_, A>,
    out: Option<Addr>,
    address: Option<Addr>,
) -> Result<(), AllocError>
    ensures { OnOk result (text.new.items ≡ text.old.items
        ++ (codes " external" ++ out_text out ++ address_after (codes " to ") address)) }
{
    push_word(text, " external")?;
    push_after(text, names, " out ", out.as_ref())?;
    push_after(text, names, " to ", address.as_ref())
}

/// Adds where a way leads, out of this interface.
fn push_leading<A: Allocator + Copy>(
    text: &mut Vec<u8, A>,
    names: &Names<'_, A>,
    out: Option<Addr>,
    target: StepTarget,
) -> Result<(), AllocError>
    ensures { OnOk result
        (text.new.items ≡ text.old.items ++ leading_text (called names.now) out target) }
{
    match target {
        StepTarget::To(router, cost) => push_to_router(text, names, router, out, cost),
        StepTarget::Delivered => push_delivered(text, names, out),
        StepTarget::External(address) => push_external(text, names, out, address),
    }
}

/// Adds a prefix and the costs of its route, after a comma.
fn push_taken<A: Allocator + Copy>(
    text: &mut Vec<u8, A>,
    net: Prefix,
    source: RouteSource,
) -> Result<(), AllocError>
    ensures { OnOk result (text.new.items ≡ text.old.items
        ++ (codes ", " ++ prefix_text net ++ codes " " ++ source_text source)) }
{
    push_word(text, ", ")?;
    push_prefix(text, net)?;
    push_word(text, " ")?;
    push_source(text, source)
}

/// Adds a way, and the route that it is of.
fn push_way<A: Allocator + Copy>(
    text: &mut Vec<u8, A>,
    names: &Names<'_, A>,
    way: StepWay,
) -> Result<(), AllocError>
    ensures { OnOk result
        (text.new.items ≡ text.old.items ++ step_way_text (called names.now) way) }
{
    push_leading(text, names, way.out, way.target)?;
    push_taken(text, way.net, way.source)
}

/// Adds what a router does by one of its ways, or that it drops the packet.
fn push_doing<A: Allocator + Copy>(
    text: &mut Vec<u8, A>,
    names: &Names<'_, A>,
    way: Option<StepWay>,
) -> Result<(), AllocError>
    ensures { OnOk result (text.new.items ≡ text.old.items ++ step_by (called names.now) way) }
{
    match way {
        Some(way) => push_way(text, names, way),
        None => push_word(text, " blackhole"),
    }
}

impl Line for PathStep {
    ghost use Rattle.route_lines.specs.PathTexts.{step_text};

    ghost line_as = { step_text };

    fn push_line<A: Allocator + Copy>(
        &self,
        text: &mut Vec<u8, A>,
        names: &Names<'_, A>,
    ) -> Result<(), AllocError> {
        push_router(text, names, self.router)?;
        push_doing(text, names, self.way)?;
        push_word(text, "\n")
    }
}
