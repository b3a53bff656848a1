//! The routes that packets take, in steps of paths.

ghost use Rattle.std.specs.Prelude.{◌≡◌, ◌++◌, OnOk};
ghost use Rattle.study_json.specs.Fields.{HaveNumbers, more_text};
ghost use Rattle.study_json.specs.Steps.{own_fields, taken_by};

use crate::document::Document;
use crate::member::{push_first, push_next};
use crate::route_json::metric_of;
use lsa_codec::Prefix;
use route_lines::{OwnSource, RouteSource};
use std::alloc::{AllocError, Allocator};
use study_text::push_word;

/// The route that a packet takes: its prefix, and where it comes from.
#[derive(Clone, Copy, Debug)]
pub(crate) struct Taken {
    /// The prefix.
    pub(crate) net: Prefix,
    /// Where the route comes from, and what it costs.
    pub(crate) source: RouteSource,
}

/// Adds kind and metric of an external prefix of the router itself.
fn push_own<A: Allocator + Copy>(text: &mut Vec<u8, A>, own: OwnSource) -> Result<(), AllocError>
    ensures pushed { OnOk result
        (text.new.items ≡ text.old.items ++ more_text (own_fields own)) }
    ensures numbers { OnOk result (HaveNumbers (own_fields own)) }
{
    push_next(text, "kind", &"own")?;
    push_next(text, "metric", &own.metric)?;
    push_next(text, "external", &own.kind())?;
    push_word(text, "}")
}

/// Adds kind, cost and metric of a route.
fn push_source<A: Allocator + Copy>(
    text: &mut Vec<u8, A>,
    source: RouteSource,
) -> Result<(), AllocError>
    ensures pushed { OnOk result
        (text.new.items ≡ text.old.items ++ more_text (taken_by source source.own)) }
    ensures numbers { OnOk result (HaveNumbers (taken_by source source.own)) }
{
    match source.own {
        Some(own) => push_own(text, own),
        None => {
            push_next(text, "kind", &source.kind)?;
            push_next(text, "cost", &source.cost)?;
            push_next(text, "metric", &metric_of(source.kind, source.metric))?;
            push_word(text, "}")
        }
    }
}

impl Document for Taken {
    ghost use Rattle.study_json.specs.Steps.{taken_json};

    ghost json_as = { λ taken. taken_json taken.net taken.source };

    fn push_json<A: Allocator + Copy>(&self, text: &mut Vec<u8, A>) -> Result<(), AllocError> {
        push_first(text, "prefix", &self.net)?;
        push_source(text, self.source)
    }
}
