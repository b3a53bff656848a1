//! Links.

ghost use Rattle.std.specs.Prelude.{◌≡◌, ◌++◌, OnOk, codes, decimal};
ghost use Rattle.study_json.specs.Fields.{HaveNumbers, more_text};
ghost use Rattle.study_json.specs.JsonText.{json_text, member_text, string_text};
ghost use Rattle.study_json.specs.Leaves.{address_json};
ghost use Rattle.study_json.specs.Links.{rest_by, transit_fields};

use crate::document::Document;
use crate::member::{push_first, push_next};
use crate::string::push_string;
use link_report::{InterfaceStub, LinkLine};
use lsa_codec::{Link, LinkKind};
use std::alloc::{AllocError, Allocator};
use study_text::{push_number_after, push_word};

/// Adds what a link leads to, and its Link Data.
fn push_far<A: Allocator + Copy>(text: &mut Vec<u8, A>, link: Link) -> Result<(), AllocError>
    ensures { OnOk result (text.new.items ≡ text.old.items
        ++ ((codes "," ++ member_text (codes "to") (json_text (address_json link.id)))
        ++ (codes "," ++ member_text (codes "data") (json_text (address_json link.link_data))))) }
{
    push_next(text, "to", &link.id)?;
    push_next(text, "data", &link.link_data)
}

/// Adds what stands after the cost of a link to a transit network.
fn push_transit<A: Allocator + Copy, B: Allocator>(
    text: &mut Vec<u8, A>,
    line: &LinkLine<B>,
) -> Result<(), AllocError>
    ensures pushed { OnOk result
        (text.new.items ≡ text.old.items ++ more_text (transit_fields line.now)) }
    ensures numbers { OnOk result (HaveNumbers (transit_fields line.now)) }
{
    push_far(text, line.link)?;
    push_next(text, "back", &line.back)?;
    push_next(text, "prefix", &line.net)?;
    push_word(text, "}")
}

/// Adds what stands after the cost of a link.
fn push_rest<A: Allocator + Copy, B: Allocator>(
    text: &mut Vec<u8, A>,
    line: &LinkLine<B>,
) -> Result<(), AllocError>
    ensures pushed { OnOk result (text.new.items
        ≡ text.old.items ++ more_text (rest_by line.now.link.kind line.now)) }
    ensures numbers { OnOk result (HaveNumbers (rest_by line.now.link.kind line.now)) }
{
    match line.link.kind {
        LinkKind::PointToPoint => {
            push_far(text, line.link)?;
            push_next(text, "back", &line.back)?;
            push_next(text, "peers", &line.peers)?;
            push_next(text, "stub", &line.stub)?;
            push_word(text, "}")
        }
        LinkKind::Transit => push_transit(text, line),
        LinkKind::Stub => {
            push_next(text, "prefix", &line.net)?;
            push_next(text, "of", &line.owner)?;
            push_word(text, "}")
        }
        LinkKind::Virtual | LinkKind::Other(_) => {
            push_far(text, line.link)?;
            push_word(text, "}")
        }
    }
}

/// Adds the number of a type of links that has no word.
fn push_type<A: Allocator + Copy>(text: &mut Vec<u8, A>, code: u8) -> Result<(), AllocError>
    ensures { OnOk result
        (text.new.items ≡ text.old.items ++ string_text (codes "type " ++ decimal code)) }
{
    push_word(text, "\"")?;
    push_number_after(text, "type ", u64::from(code))?;
    push_word(text, "\"")
}

impl Document for LinkKind {
    ghost use Rattle.study_json.specs.Links.{link_kind_json};

    ghost json_as = { link_kind_json };

    fn push_json<A: Allocator + Copy>(&self, text: &mut Vec<u8, A>) -> Result<(), AllocError> {
        match self {
            LinkKind::PointToPoint => push_string(text, b"point-to-point"),
            LinkKind::Transit => push_string(text, b"transit"),
            LinkKind::Stub => push_string(text, b"stub"),
            LinkKind::Virtual => push_string(text, b"virtual"),
            LinkKind::Other(code) => push_type(text, *code),
        }
    }
}

impl Document for InterfaceStub {
    ghost use Rattle.study_json.specs.Links.{stub_json};

    ghost json_as = { stub_json };

    fn push_json<A: Allocator + Copy>(&self, text: &mut Vec<u8, A>) -> Result<(), AllocError> {
        push_first(text, "number", &self.number)?;
        push_next(text, "prefix", &self.link.net())?;
        push_next(text, "cost", &self.link.metric)?;
        push_word(text, "}")
    }
}

impl<B: Allocator> Document for LinkLine<B> {
    ghost use Rattle.study_json.specs.Links.{link_json};

    ghost json_as = { link_json };

    fn push_json<A: Allocator + Copy>(&self, text: &mut Vec<u8, A>) -> Result<(), AllocError> {
        push_first(text, "router", &self.router)?;
        push_next(text, "area", &self.area)?;
        push_next(text, "number", &self.number)?;
        push_next(text, "type", &self.link.kind)?;
        push_next(text, "cost", &self.link.metric)?;
        push_rest(text, self)
    }
}
