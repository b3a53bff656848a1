//! Lines of pairs.

use crate::change_name::push_at;
use crate::pair::Pair;
use lsa_codec::RouterId;
use network_names::Names;
use route_lines::RouteLine;
use std::alloc::{AllocError, Allocator, Global};
use std::marker::Model;
use study_text::{Line, push_after, push_joined_or, push_word};

/// A router and a prefix that it has no entry for any more.
#[derive(Drop)]
pub struct PairLine<A: Allocator = Global> {
    /// The router and the prefix.
    pub pair: Pair,
    /// The route that the router had.
    pub was: Option<RouteLine<A>>,
    /// The routers that announce the prefix still, in order.
    pub announced: Vec<RouterId, A>,
}

impl<A: Allocator> Model for PairLine<A> {
    ghost use Rattle.change_lines.specs.PairTexts.{PairLineValue};

    ghost Value = { PairLineValue };

    ghost view = { λ l. record { pair = l.pair; was = l.was; announced = l.announced.items } };
}

impl<A: Allocator + Copy> Line for PairLine<A> {
    ghost use Rattle.change_lines.specs.PairTexts.{pair_line};

    ghost line_as = { pair_line };

    fn push_line<B: Allocator + Copy>(
        &self,
        text: &mut Vec<u8, B>,
        names: &Names<'_, B>,
    ) -> Result<(), AllocError> {
        push_at(text, names, self.pair.router, Some(&self.pair.net))?;
        push_after(text, names, " was ", self.was.as_ref())?;
        push_joined_or(text, names, "", " announced ", ",", &self.announced)?;
        push_word(text, "\n")
    }
}
