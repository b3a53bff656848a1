//! Steps of paths, and loops that paths reach.

ghost use Rattle.std.specs.Prelude.{◌≡◌, ◌++◌, OnOk};
ghost use Rattle.study_json.specs.Fields.{HaveNumbers, more_text};
ghost use Rattle.study_json.specs.Steps.{leading_fields, step_rest};

use crate::document::Document;
use crate::member::{push_first, push_next};
use crate::taken_json::Taken;
use lsa_codec::Addr;
use network_names::Names;
use route_lines::{PathEnd, PathLoop, PathStep, StepTarget, StepWay};
use std::alloc::{AllocError, Allocator};
use study_text::{Shown, push_word};

/// Adds where a way leads, out of this interface.
fn push_leading<A: Allocator + Copy>(
    text: &mut Vec<u8, A>,
    out: Option<Addr>,
    target: StepTarget,
) -> Result<(), AllocError>
    ensures pushed { OnOk result
        (text.new.items ≡ text.old.items ++ more_text (leading_fields out target)) }
    ensures numbers { OnOk result (HaveNumbers (leading_fields out target)) }
{
    match target {
        StepTarget::To(router, cost) => {
            push_next(text, "to", &router)?;
            push_next(text, "out", &out)?;
            push_next(text, "cost", &cost)?;
            push_word(text, "}")
        }
        StepTarget::Delivered => {
            push_next(text, "end", &"delivered")?;
            push_next(text, "out", &out)?;
            push_word(text, "}")
        }
        StepTarget::External(address) => {
            push_next(text, "end", &"external")?;
            push_next(text, "out", &out)?;
            push_next(text, "address", &address)?;
            push_word(text, "}")
        }
    }
}

/// Adds what a router does by one of its ways, or that it drops the packet.
fn push_doing<A: Allocator + Copy>(
    text: &mut Vec<u8, A>,
    way: Option<StepWay>,
) -> Result<(), AllocError>
    ensures pushed { OnOk result
        (text.new.items ≡ text.old.items ++ more_text (step_rest way)) }
    ensures numbers { OnOk result (HaveNumbers (step_rest way)) }
{
    match way {
        Some(way) => {
            let (net, source) = (way.net, way.source);
            push_next(text, "route", &Taken { net, source })?;
            push_leading(text, way.out, way.target)
        }
        None => {
            push_next(text, "end", &"blackhole")?;
            push_word(text, "}")
        }
    }
}

impl Document for PathStep {
    ghost use Rattle.study_json.specs.Steps.{step_json};

    ghost json_as = { step_json };

    fn push_json<A: Allocator + Copy>(&self, text: &mut Vec<u8, A>) -> Result<(), AllocError> {
        push_first(text, "router", &self.router)?;
        push_doing(text, self.way)
    }
}

impl<B: Allocator> Document for PathLoop<B> {
    ghost use Rattle.study_json.specs.Leaves.{array_json, router_json};

    ghost json_as = { λ routers. array_json router_json routers };

    fn push_json<A: Allocator + Copy>(&self, text: &mut Vec<u8, A>) -> Result<(), AllocError> {
        self.routers.push_json(text)
    }
}

impl Document for PathEnd {
    ghost use Rattle.study_json.specs.Steps.{end_json};

    ghost json_as = { end_json };

    fn push_json<A: Allocator + Copy>(&self, text: &mut Vec<u8, A>) -> Result<(), AllocError> {
        // The word of an end has no names.
        let no_names = Names::new(*text.allocator());
        push_word(text, "\"")?;
        self.push_to(text, &no_names)?;
        push_word(text, "\"")
    }
}
