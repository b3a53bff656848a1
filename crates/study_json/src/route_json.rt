//! Routes.

ghost use Rattle.std.specs.Prelude.{◌≡◌, ◌++◌, OnOk, Some, None};
ghost use Rattle.study_json.specs.Fields.{HaveNumbers, more_text};
ghost use Rattle.study_json.specs.Routes.{forward_of, metric_of, route_rest};

use crate::document::Document;
use crate::member::{push_first, push_next};
use lsa_codec::Addr;
use route_lines::{OwnSource, RouteLine};
use std::alloc::{AllocError, Allocator};
use study_text::push_word;
use study_words::RouteKind;

/// The metric of type 2, of a route that has one.
pub(crate) fn metric_of(kind: RouteKind, metric: u32) -> Option<u32>
    ensures { result ≡ metric_of kind metric }
{
    match kind {
        RouteKind::External2 => Some(metric),
        RouteKind::Intra | RouteKind::Inter | RouteKind::External1 | RouteKind::Own => None,
    }
}

/// A forwarding address, where it is not 0.0.0.0.
fn forward_of(forward: Addr) -> Option<Addr>
    ensures { result ≡ forward_of forward }
{
    if forward.0 == 0 { None } else { Some(forward) }
}

/// Adds what stands after the prefix of an external prefix of the router itself.
fn push_own<A: Allocator + Copy, B: Allocator>(
    text: &mut Vec<u8, A>,
    route: &RouteLine<B>,
    own: OwnSource,
) -> Result<(), AllocError>
    ensures pushed { OnOk result
        (text.new.items ≡ text.old.items ++ more_text (route_rest route.now (Some own))) }
    ensures numbers { OnOk result (HaveNumbers (route_rest route.now (Some own))) }
{
    push_next(text, "kind", &"own")?;
    push_next(text, "external", &own.kind())?;
    push_next(text, "metric", &own.metric)?;
    push_next(text, "forward", &forward_of(own.forward))?;
    push_word(text, "}")
}

/// Adds what stands after the prefix of a route of a table.
fn push_table_route<A: Allocator + Copy, B: Allocator>(
    text: &mut Vec<u8, A>,
    route: &RouteLine<B>,
) -> Result<(), AllocError>
    ensures pushed { OnOk result
        (text.new.items ≡ text.old.items ++ more_text (route_rest route.now None)) }
    ensures numbers { OnOk result (HaveNumbers (route_rest route.now None)) }
{
    let source = route.source;
    push_next(text, "kind", &source.kind)?;
    push_next(text, "cost", &source.cost)?;
    push_next(text, "metric", &metric_of(source.kind, source.metric))?;
    push_next(text, "area", &route.area)?;
    push_next(text, "ways", &route.ways)?;
    push_word(text, "}")
}

impl<B: Allocator> Document for RouteLine<B> {
    ghost use Rattle.study_json.specs.Routes.{route_json};

    ghost json_as = { route_json };

    fn push_json<A: Allocator + Copy>(&self, text: &mut Vec<u8, A>) -> Result<(), AllocError> {
        push_first(text, "prefix", &self.net)?;
        match self.source.own {
            Some(own) => push_own(text, self, own),
            None => push_table_route(text, self),
        }
    }
}
