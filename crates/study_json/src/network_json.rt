//! Transit networks.

ghost use Rattle.std.specs.Prelude.{◌≡◌, ◌++◌, OnOk};
ghost use Rattle.study_json.specs.Fields.{HaveNumbers, more_text};
ghost use Rattle.study_json.specs.Networks.{member_fields};

use crate::document::Document;
use crate::member::{push_first, push_next};
use link_report::NetworkLine;
use std::alloc::{AllocError, Allocator};
use study_text::push_word;

/// Adds the routers that a network lists.
fn push_members<A: Allocator + Copy, B: Allocator>(
    text: &mut Vec<u8, A>,
    line: &NetworkLine<B>,
) -> Result<(), AllocError>
    ensures pushed { OnOk result
        (text.new.items ≡ text.old.items ++ more_text (member_fields line.now)) }
    ensures numbers { OnOk result (HaveNumbers (member_fields line.now)) }
{
    push_next(text, "members", &line.members)?;
    push_next(text, "one_way", &line.one_way)?;
    push_word(text, "}")
}

impl<B: Allocator> Document for NetworkLine<B> {
    ghost use Rattle.study_json.specs.Networks.{network_json};

    ghost json_as = { network_json };

    fn push_json<A: Allocator + Copy>(&self, text: &mut Vec<u8, A>) -> Result<(), AllocError> {
        push_first(text, "area", &self.area)?;
        push_next(text, "prefix", &self.place.net)?;
        push_next(text, "address", &self.place.address)?;
        push_next(text, "router", &self.router)?;
        push_members(text, self)
    }
}
