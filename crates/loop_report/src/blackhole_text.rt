//! The texts of blackholes, and their lines.

use crate::blackhole::Blackhole;
use crate::text::push_at;
use network_names::Names;
use std::alloc::{AllocError, Allocator};
use study_text::{Line, Shown, push_list, push_word};

impl<B: Allocator + Copy> Shown for Blackhole<B> {
    ghost use Rattle.loop_report.specs.Texts.{blackhole_text};

    ghost shown_as = { blackhole_text };

    fn push_to<A: Allocator + Copy>(
        &self,
        text: &mut Vec<u8, A>,
        names: &Names<'_, A>,
    ) -> Result<(), AllocError> {
        push_at(text, names, "", self.net(), &[self.router()])
    }
}

impl<B: Allocator + Copy> Line for Blackhole<B> {
    ghost use Rattle.loop_report.specs.Texts.{blackhole_line};

    ghost line_as = { blackhole_line };

    fn push_line<A: Allocator + Copy>(
        &self,
        text: &mut Vec<u8, A>,
        names: &Names<'_, A>,
    ) -> Result<(), AllocError> {
        push_at(text, names, "blackhole ", self.net(), &[self.router()])?;
        push_word(text, " from ")?;
        push_list(text, names, self.senders())?;
        push_word(text, "\n")
    }
}
