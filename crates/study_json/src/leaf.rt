//! Numbers, addresses, prefixes and words.

ghost use Rattle.std.specs.Prelude.{◌≡◌, ◌++◌, OnOk};
ghost use Rattle.lsa_codec.specs.Spelling.{address_text};
ghost use Rattle.study_json.specs.JsonText.{string_text};

use crate::document::Document;
use crate::string::push_string;
use lsa_codec::{Addr, AreaId, Prefix, RouterId};
use std::alloc::{AllocError, Allocator};
use study_text::{push_address, push_number, push_number_after, push_word};
use study_words::{RouteKind, Word};

impl Document for u64 {
    ghost use Rattle.study_json.specs.Leaves.{number_json};

    ghost json_as = { number_json };

    fn push_json<A: Allocator + Copy>(&self, text: &mut Vec<u8, A>) -> Result<(), AllocError> {
        push_number(text, *self)
    }
}

impl Document for u32 {
    ghost use Rattle.study_json.specs.Leaves.{number_json};

    ghost json_as = { number_json };

    fn push_json<A: Allocator + Copy>(&self, text: &mut Vec<u8, A>) -> Result<(), AllocError> {
        push_number(text, u64::from(*self))
    }
}

impl Document for u16 {
    ghost use Rattle.study_json.specs.Leaves.{number_json};

    ghost json_as = { number_json };

    fn push_json<A: Allocator + Copy>(&self, text: &mut Vec<u8, A>) -> Result<(), AllocError> {
        u32::from(*self).push_json(text)
    }
}

impl Document for usize {
    ghost use Rattle.study_json.specs.Leaves.{number_json};

    ghost json_as = { number_json };

    fn push_json<A: Allocator + Copy>(&self, text: &mut Vec<u8, A>) -> Result<(), AllocError> {
        push_number(text, *self as u64)
    }
}

impl Document for &str {
    ghost use Rattle.json.specs.Json.{string};

    ghost json_as = { λ word. string word.now };

    fn push_json<A: Allocator + Copy>(&self, text: &mut Vec<u8, A>) -> Result<(), AllocError> {
        push_string(text, self.as_bytes())
    }
}

impl<B: Allocator> Document for String<B> {
    ghost use Rattle.std.specs.String.{string_bytes};
    ghost use Rattle.json.specs.Json.{string};

    ghost json_as = { λ word. string (string_bytes word) };

    fn push_json<A: Allocator + Copy>(&self, text: &mut Vec<u8, A>) -> Result<(), AllocError> {
        push_string(text, self.as_bytes())
    }
}

/// A string of these bytes.
#[derive(Clone, Copy, Debug)]
pub struct Text<'a>(pub &'a [u8]);

impl Document for Text<'_> {
    ghost use Rattle.json.specs.Json.{string};

    ghost json_as = { λ word. string word.0.now };

    fn push_json<A: Allocator + Copy>(&self, text: &mut Vec<u8, A>) -> Result<(), AllocError> {
        push_string(text, self.0)
    }
}

/// Adds a string of a number in dotted form.
fn push_dotted<A: Allocator + Copy>(text: &mut Vec<u8, A>, number: u32) -> Result<(), AllocError>
    ensures { OnOk result
        (text.new.items ≡ text.old.items ++ string_text (address_text number)) }
{
    push_word(text, "\"")?;
    push_address(text, Addr(number))?;
    push_word(text, "\"")
}

impl Document for Addr {
    ghost use Rattle.study_json.specs.Leaves.{address_json};

    ghost json_as = { address_json };

    fn push_json<A: Allocator + Copy>(&self, text: &mut Vec<u8, A>) -> Result<(), AllocError> {
        push_dotted(text, self.0)
    }
}

impl Document for AreaId {
    ghost use Rattle.study_json.specs.Leaves.{area_json};

    ghost json_as = { area_json };

    fn push_json<A: Allocator + Copy>(&self, text: &mut Vec<u8, A>) -> Result<(), AllocError> {
        push_dotted(text, self.0)
    }
}

impl Document for RouterId {
    ghost use Rattle.study_json.specs.Leaves.{router_json};

    ghost json_as = { router_json };

    fn push_json<A: Allocator + Copy>(&self, text: &mut Vec<u8, A>) -> Result<(), AllocError> {
        push_dotted(text, self.0)
    }
}

impl Document for Prefix {
    ghost use Rattle.study_json.specs.Leaves.{prefix_json};

    ghost json_as = { prefix_json };

    fn push_json<A: Allocator + Copy>(&self, text: &mut Vec<u8, A>) -> Result<(), AllocError> {
        push_word(text, "\"")?;
        push_address(text, self.addr())?;
        push_number_after(text, "/", u64::from(self.len()))?;
        push_word(text, "\"")
    }
}

impl Document for RouteKind {
    ghost use Rattle.study_json.specs.Leaves.{kind_json};

    ghost json_as = { kind_json };

    fn push_json<A: Allocator + Copy>(&self, text: &mut Vec<u8, A>) -> Result<(), AllocError> {
        self.text().push_json(text)
    }
}
