//! Routers.

ghost use Rattle.std.specs.Prelude.{◌≡◌, ◌++◌, OnOk, codes, option_map};
ghost use Rattle.json.specs.Json.{string};
ghost use Rattle.json.specs.Tree.{HasNumbers};
ghost use Rattle.study_json.specs.Fields.{HaveNumbers, more_text};
ghost use Rattle.study_json.specs.JsonText.{json_text, member_text};
ghost use Rattle.study_json.specs.Leaves.{option_json};
ghost use Rattle.study_json.specs.Routers.{link_counts};

use crate::document::Document;
use crate::leaf::Text;
use crate::member::{push_first, push_next};
use link_report::RouterLine;
use std::alloc::{AllocError, Allocator};
use study_text::push_word;

/// The roles of a router.
#[derive(Clone, Copy, Debug)]
struct Roles {
    /// Whether it is an area border router.
    is_abr: bool,
    /// Whether it is an AS boundary router.
    is_asbr: bool,
}

impl Roles {
    /// Those of a router.
    fn of<B: Allocator>(line: &RouterLine<B>) -> Roles
        ensures { result ≡ record { is_abr = line.now.is_abr; is_asbr = line.now.is_asbr } }
    {
        let (is_abr, is_asbr) = (line.is_abr, line.is_asbr);
        Roles { is_abr, is_asbr }
    }
}

#[tactic(auto, unfolding(json::specs::Print::escape_byte, crate::specs::JsonText::string_text))]
impl Document for Roles {
    ghost use Rattle.study_json.specs.Routers.{roles_json};

    ghost json_as = { λ roles. roles_json roles.is_abr roles.is_asbr };

    fn push_json<A: Allocator + Copy>(&self, text: &mut Vec<u8, A>) -> Result<(), AllocError> {
        match (self.is_abr, self.is_asbr) {
            (true, true) => push_word(text, "[\"abr\",\"asbr\"]"),
            (true, false) => push_word(text, "[\"abr\"]"),
            (false, true) => push_word(text, "[\"asbr\"]"),
            (false, false) => push_word(text, "[]"),
        }
    }
}

/// Adds the name of a router, if it has one.
fn push_name<A: Allocator + Copy>(
    text: &mut Vec<u8, A>,
    name: Option<&[u8]>,
) -> Result<(), AllocError>
    ensures pushed { OnOk result (text.new.items ≡ text.old.items ++ (codes ","
        ++ member_text (codes "name")
        (json_text (option_json string (option_map (λ bytes. bytes.now) name.entry))))) }
    ensures numbers { OnOk result
        (HasNumbers (option_json string (option_map (λ bytes. bytes.now) name.entry))) }
{
    match name {
        Some(bytes) => push_next(text, "name", &Text(bytes)),
        None => {
            let nothing: Option<Text<'_>> = None;
            push_next(text, "name", &nothing)
        }
    }
}

/// Adds how many links a router has.
fn push_link_counts<A: Allocator + Copy, B: Allocator>(
    text: &mut Vec<u8, A>,
    line: &RouterLine<B>,
) -> Result<(), AllocError>
    ensures pushed { OnOk result
        (text.new.items ≡ text.old.items ++ more_text (link_counts line.now)) }
    ensures numbers { OnOk result (HaveNumbers (link_counts line.now)) }
{
    push_next(text, "links", &line.links)?;
    push_next(text, "transit", &line.transit)?;
    push_next(text, "stubs", &line.stubs)?;
    push_word(text, "}")
}

/// A router, and its name, if it has one.
#[derive(Clone, Copy)]
pub struct NamedRouter<'a, B: Allocator> {
    /// The router.
    pub line: &'a RouterLine<B>,
    /// Its name.
    pub name: Option<&'a [u8]>,
}

impl<B: Allocator> Document for NamedRouter<'_, B> {
    ghost use Rattle.study_json.specs.Routers.{router_line_json};

    ghost json_as = { λ r. router_line_json (option_map (λ name. name.now) r.name) r.line.now };

    fn push_json<A: Allocator + Copy>(&self, text: &mut Vec<u8, A>) -> Result<(), AllocError> {
        let (line, name) = (self.line, self.name);
        push_first(text, "router", &line.router)?;
        push_name(text, name)?;
        push_next(text, "areas", &line.areas)?;
        push_next(text, "roles", &Roles::of(line))?;
        push_link_counts(text, line)
    }
}
