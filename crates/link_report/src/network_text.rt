//! The line of a network, as `10.2.0.0/24 area 0.0.0.1 dr r5 10.2.0.5 members r5 one-way r6,r7`:
//! the prefix, the area, the Designated Router with its address, and the routers that are listed.

ghost use Rattle.std.specs.Prelude.{◌≡◌, ◌++◌, OnOk};
ghost use Rattle.network_names.specs.Names.{called};
ghost use Rattle.link_report.specs.NetworkTexts.{designated_text, members_text};

use crate::network_line::NetworkLine;
use lsa_codec::{Addr, RouterId};
use network_names::Names;
use std::alloc::{AllocError, Allocator};
use study_text::{
    Line, push_address, push_joined_or, push_list, push_prefix, push_router, push_word,
};

/// Adds the prefix of a network, its area and its Designated Router.
fn push_designated<A: Allocator + Copy, B: Allocator>(
    text: &mut Vec<u8, A>,
    names: &Names<'_, A>,
    line: &NetworkLine<B>,
) -> Result<(), AllocError>
    ensures { OnOk result
        (text.new.items ≡ text.old.items ++ designated_text (called names.now) line.now) }
{
    push_prefix(text, line.place.net)?;
    push_word(text, " area ")?;
    push_address(text, Addr(line.area.0))?;
    push_word(text, " dr ")?;
    push_router(text, names, line.router)?;
    push_word(text, " ")?;
    push_address(text, line.place.address)
}

/// Adds the routers that are listed and have a link to the network, and those that have none, if
/// there are any.
fn push_members<A: Allocator + Copy>(
    text: &mut Vec<u8, A>,
    names: &Names<'_, A>,
    members: &[RouterId],
    one_way: &[RouterId],
) -> Result<(), AllocError>
    ensures { OnOk result (text.new.items ≡ text.old.items
        ++ members_text (called names.now) members.now one_way.now) }
{
    push_word(text, " members ")?;
    push_list(text, names, members)?;
    push_joined_or(text, names, "", " one-way ", ",", one_way)
}

impl<A: Allocator + Copy> Line for NetworkLine<A> {
    ghost use Rattle.link_report.specs.NetworkTexts.{network_line};

    ghost line_as = { network_line };

    fn push_line<B: Allocator + Copy>(
        &self,
        text: &mut Vec<u8, B>,
        names: &Names<'_, B>,
    ) -> Result<(), AllocError> {
        push_designated(text, names, self)?;
        push_members(text, names, &self.members, &self.one_way)?;
        push_word(text, "\n")
    }
}
