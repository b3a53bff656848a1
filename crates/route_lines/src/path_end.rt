//! How paths end.

ghost use Rattle.std.specs.Prelude.{◌≡◌};
ghost use Rattle.route_lines.specs.PathTexts.{end_text};

use network_names::Names;
use std::alloc::{AllocError, Allocator};
use study_text::{Shown, push_word};

/// How walks of a packet end.
#[derive(Clone, Copy, Debug, PartialEq, Eq)]
pub enum PathEnd {
    /// On a network of a router that they reach.
    Delivered,
    /// Out of the network.
    External,
    /// At a router without a match, which drops the packet.
    Blackhole,
    /// Never: they reach a loop.
    Loop,
}

impl PathEnd {
    /// The word for it.
    fn word(self) -> &'static str
        ensures { result.now ≡ end_text self }
    {
        match self {
            PathEnd::Delivered => "delivered",
            PathEnd::External => "external",
            PathEnd::Blackhole => "blackhole",
            PathEnd::Loop => "loop",
        }
    }
}

impl Shown for PathEnd {
    ghost use Rattle.route_lines.specs.PathTexts.{end_text};

    ghost shown_as = { λ called end. end_text end };

    fn push_to<A: Allocator + Copy>(
        &self,
        text: &mut Vec<u8, A>,
        _names: &Names<'_, A>,
    ) -> Result<(), AllocError> {
        push_word(text, self.word())
    }
}
