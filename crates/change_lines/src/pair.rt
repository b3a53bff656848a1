//! Pairs of a router and a prefix.

use crate::change_name::push_at;
use lsa_codec::{Prefix, RouterId};
use network_names::Names;
use std::alloc::{AllocError, Allocator};
use study_text::Shown;

/// A router, and a prefix that it has no entry for any more.
#[derive(Clone, Copy, Debug, PartialEq, Eq)]
pub struct Pair {
    /// The router.
    pub router: RouterId,
    /// The prefix.
    pub net: Prefix,
}

impl Shown for Pair {
    ghost use Rattle.change_lines.specs.PairTexts.{pair_text};

    ghost shown_as = { pair_text };

    fn push_to<A: Allocator + Copy>(
        &self,
        text: &mut Vec<u8, A>,
        names: &Names<'_, A>,
    ) -> Result<(), AllocError> {
        push_at(text, names, self.router, Some(&self.net))
    }
}
