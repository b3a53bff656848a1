//! Loops that paths reach.

use lsa_codec::RouterId;
use network_names::Names;
use std::alloc::{AllocError, Allocator, Global};
use std::marker::Model;
use study_text::{Line, push_list, push_word};

/// The routers of a loop, in rising order. Contracts see it as this list.
#[derive(Drop)]
pub struct PathLoop<A: Allocator = Global> {
    /// The routers.
    pub routers: Vec<RouterId, A>,
}

impl<A: Allocator> Model for PathLoop<A> {
    ghost use Rattle.std.specs.Prelude.{List};
    ghost use Rattle.lsa_codec.specs.declared.address.RouterId.{RouterId as AnyRouter};

    ghost Value = { List AnyRouter };

    ghost view = { λ l. l.routers.items };
}

impl<A: Allocator + Copy> Line for PathLoop<A> {
    ghost use Rattle.route_lines.specs.PathTexts.{loop_text};

    ghost line_as = { loop_text };

    fn push_line<B: Allocator + Copy>(
        &self,
        text: &mut Vec<u8, B>,
        names: &Names<'_, B>,
    ) -> Result<(), AllocError> {
        push_word(text, "loop ")?;
        push_list(text, names, &self.routers)?;
        push_word(text, "\n")
    }
}
