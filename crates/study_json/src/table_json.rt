//! Routing tables.

ghost use Rattle.std.specs.Prelude.{◌≡◌, ◌++◌, OnOk};
ghost use Rattle.next_hops.specs.Hop.{hop_text};
ghost use Rattle.table_report.specs.Texts.{kind_text};
ghost use Rattle.study_json.specs.Fields.{HaveNumbers, more_text};
ghost use Rattle.study_json.specs.Tables.{way_fields};

use crate::document::Document;
use crate::member::{push_first, push_next};
use best_ways::{PathType, Route};
use next_hops::Hop;
use routing_table::Table;
use std::alloc::{AllocError, Allocator};
use study_text::{push_address, push_word};

/// Adds the text of a next hop, as `link:10.0.0.1`.
fn push_hop<A: Allocator + Copy>(text: &mut Vec<u8, A>, hop: Hop) -> Result<(), AllocError>
    ensures { OnOk result (text.new.items ≡ text.old.items ++ hop_text hop) }
{
    match hop {
        Hop::Connected => push_word(text, "connected"),
        Hop::Link(interface) => {
            push_word(text, "link:")?;
            push_address(text, interface)
        }
        Hop::Attached(interface) => {
            push_word(text, "attached:")?;
            push_address(text, interface)
        }
        Hop::Gateway(interface, gateway) => {
            push_word(text, "gateway:")?;
            push_address(text, interface)?;
            push_word(text, ":")?;
            push_address(text, gateway)
        }
    }
}

impl Document for Hop {
    ghost use Rattle.study_json.specs.Tables.{hop_json};

    ghost json_as = { hop_json };

    fn push_json<A: Allocator + Copy>(&self, text: &mut Vec<u8, A>) -> Result<(), AllocError> {
        text.extend_from_slice(b"\"")?;
        push_hop(text, *self)?;
        push_word(text, "\"")
    }
}

/// The word for a type of paths.
fn path_word(path: PathType) -> &'static str
    ensures { result.now ≡ kind_text path }
{
    match path {
        PathType::Intra => "intra",
        PathType::Inter => "inter",
        PathType::Ext1 => "ext1",
        PathType::Ext2 => "ext2",
    }
}

impl Document for PathType {
    ghost use Rattle.study_json.specs.Tables.{path_json};

    ghost json_as = { path_json };

    fn push_json<A: Allocator + Copy>(&self, text: &mut Vec<u8, A>) -> Result<(), AllocError> {
        path_word(*self).push_json(text)
    }
}

/// Adds the lowest area of a route, and its next hops.
fn push_ways<A: Allocator + Copy, B: Allocator + Copy>(
    text: &mut Vec<u8, A>,
    route: &Route<B>,
) -> Result<(), AllocError>
    ensures pushed { OnOk result
        (text.new.items ≡ text.old.items ++ more_text (way_fields route.now)) }
    ensures numbers { OnOk result (HaveNumbers (way_fields route.now)) }
{
    push_next(text, "area", &route.areas.as_slice().first().copied())?;
    push_next(text, "hops", &route.hops.as_slice())?;
    push_word(text, "}")
}

impl<B: Allocator + Copy> Document for Route<B> {
    ghost use Rattle.study_json.specs.Tables.{table_route_json};

    ghost json_as = { table_route_json };

    fn push_json<A: Allocator + Copy>(&self, text: &mut Vec<u8, A>) -> Result<(), AllocError> {
        push_first(text, "prefix", &self.net)?;
        push_next(text, "kind", &self.kind)?;
        push_next(text, "cost", &self.cost)?;
        push_next(text, "cost2", &self.cost2)?;
        push_ways(text, self)
    }
}

impl<B: Allocator + Copy> Document for Table<B> {
    ghost use Rattle.study_json.specs.Tables.{table_json};

    ghost json_as = { table_json };

    fn push_json<A: Allocator + Copy>(&self, text: &mut Vec<u8, A>) -> Result<(), AllocError> {
        push_first(text, "router", &self.router())?;
        push_next(text, "routes", &self.routes().as_slice())?;
        push_word(text, "}")
    }
}
