//! The texts of routes. A route is shown without its prefix; its line begins with it.

ghost use Rattle.std.specs.Prelude.{◌≡◌, ◌++◌, OnOk, codes, decimal};
ghost use Rattle.network_names.specs.Names.{called};
ghost use Rattle.study_words.specs.RouteKinds.{route_kind_text};
ghost use Rattle.route_lines.specs.RouteLines.{external_kind};
ghost use Rattle.route_lines.specs.RouteTexts.{area_text, forward_text, metric_text, rest_by, route_text, routes_text, source_text, ways_text};

use crate::own_source::OwnSource;
use crate::route_line::RouteLine;
use crate::route_source::RouteSource;
use crate::route_way::RouteWay;
use lsa_codec::{Addr, AreaId};
use network_names::Names;
use std::alloc::{AllocError, Allocator};
use study_text::{
    Line, Shown, push_address, push_after, push_joined, push_lines, push_number_after, push_prefix,
    push_word,
};
use study_words::{RouteKind, Word};

/// Adds the metric of a route of a kind that has one.
fn push_metric<A: Allocator + Copy>(
    text: &mut Vec<u8, A>,
    kind: RouteKind,
    metric: u32,
) -> Result<(), AllocError>
    ensures { OnOk result (text.new.items ≡ text.old.items ++ metric_text kind metric) }
{
    match kind {
        RouteKind::External2 => push_number_after(text, " metric ", u64::from(metric)),
        RouteKind::Intra | RouteKind::Inter | RouteKind::External1 | RouteKind::Own => Ok(()),
    }
}

/// Adds kind, cost and metric of a route of a table.
fn push_cost<A: Allocator + Copy>(
    text: &mut Vec<u8, A>,
    source: RouteSource,
) -> Result<(), AllocError>
    ensures { OnOk result (text.new.items ≡ text.old.items
        ++ (route_kind_text source.kind ++ codes " cost " ++ decimal source.cost
        ++ metric_text source.kind source.metric)) }
{
    push_word(text, source.kind.text())?;
    push_number_after(text, " cost ", source.cost)?;
    push_metric(text, source.kind, source.metric)
}

/// Adds kind and metric of an external prefix of the router itself.
fn push_own<A: Allocator + Copy>(text: &mut Vec<u8, A>, own: OwnSource) -> Result<(), AllocError>
    ensures { OnOk result (text.new.items ≡ text.old.items
        ++ (codes "own " ++ route_kind_text (external_kind own.is_type2) ++ codes " metric "
        ++ decimal own.metric)) }
{
    push_word(text, "own ")?;
    push_word(text, own.kind().text())?;
    push_number_after(text, " metric ", u64::from(own.metric))
}

/// Adds kind, cost and metric of a route.
pub(crate) fn push_source<A: Allocator + Copy>(
    text: &mut Vec<u8, A>,
    source: RouteSource,
) -> Result<(), AllocError>
    ensures { OnOk result (text.new.items ≡ text.old.items ++ source_text source) }
{
    match source.own {
        Some(own) => push_own(text, own),
        None => push_cost(text, source),
    }
}

/// Adds a forwarding address, where it is not 0.0.0.0.
fn push_forward<A: Allocator + Copy>(text: &mut Vec<u8, A>, forward: Addr) -> Result<(), AllocError>
    ensures { OnOk result (text.new.items ≡ text.old.items ++ forward_text forward) }
{
    if forward.0 == 0 {
        return Ok(());
    }
    push_word(text, " forward ")?;
    push_address(text, forward)
}

/// Adds the area and the ways of a route.
fn push_ways<A: Allocator + Copy, B: Allocator + Copy>(
    text: &mut Vec<u8, A>,
    names: &Names<'_, A>,
    area: Option<AreaId>,
    ways: &[RouteWay<B>],
) -> Result<(), AllocError>
    ensures { OnOk result (text.new.items ≡ text.old.items
        ++ (area_text area ++ codes " " ++ ways_text (called names.now) ways.now)) }
{
    push_after(text, names, " area ", area.as_ref())?;
    push_word(text, " ")?;
    push_joined(text, names, ", ", ways)
}

/// Adds what follows the costs of a route.
fn push_rest<A: Allocator + Copy, B: Allocator + Copy>(
    text: &mut Vec<u8, A>,
    names: &Names<'_, A>,
    route: &RouteLine<B>,
) -> Result<(), AllocError>
    ensures { OnOk result (text.new.items
        ≡ text.old.items ++ rest_by (called names.now) route.now route.now.source.own) }
{
    match route.source.own {
        Some(own) => push_forward(text, own.forward),
        None => push_ways(text, names, route.area, &route.ways),
    }
}

/// Adds a route without its prefix, as `intra cost 10 area 0.0.0.1 direct out 10.1.0.3`.
///
/// # Errors
///
/// Memory ran out. A part of the text may have been added.
pub fn push_route<A: Allocator + Copy, B: Allocator + Copy>(
    text: &mut Vec<u8, A>,
    names: &Names<'_, A>,
    route: &RouteLine<B>,
) -> Result<(), AllocError>
    ensures { OnOk result
        (text.new.items ≡ text.old.items ++ route_text (called names.now) route.now) }
{
    push_source(text, route.source)?;
    push_rest(text, names, route)
}

impl<A: Allocator + Copy> Line for RouteLine<A> {
    ghost use Rattle.route_lines.specs.RouteTexts.{route_line};

    ghost line_as = { route_line };

    fn push_line<B: Allocator + Copy>(
        &self,
        text: &mut Vec<u8, B>,
        names: &Names<'_, B>,
    ) -> Result<(), AllocError> {
        push_prefix(text, self.net)?;
        push_word(text, " ")?;
        push_route(text, names, self)?;
        push_word(text, "\n")
    }
}

impl<A: Allocator + Copy> Shown for RouteLine<A> {
    ghost use Rattle.route_lines.specs.RouteTexts.{route_text};

    ghost shown_as = { route_text };

    fn push_to<B: Allocator + Copy>(
        &self,
        text: &mut Vec<u8, B>,
        names: &Names<'_, B>,
    ) -> Result<(), AllocError> {
        push_route(text, names, self)
    }
}

/// Adds a line for each of some routes, as `routes` shows them.
///
/// # Errors
///
/// Memory ran out. A part of the text may have been added.
pub fn push_routes<A: Allocator + Copy>(
    text: &mut Vec<u8, A>,
    names: &Names<'_, A>,
    routes: &[RouteLine<A>],
) -> Result<(), AllocError>
    ensures { OnOk result
        (text.new.items ≡ text.old.items ++ routes_text (called names.now) routes.now) }
{
    push_lines(text, names, routes)
}
