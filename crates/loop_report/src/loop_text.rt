//! The texts of loops, and their lines.

use crate::loops::PrefixLoop;
use crate::text::push_at;
use network_names::Names;
use std::alloc::{AllocError, Allocator};
use study_text::{Line, Shown, push_word};

impl<L: Allocator + Copy> Shown for PrefixLoop<L> {
    ghost use Rattle.loop_report.specs.Texts.{loop_text};

    ghost shown_as = { loop_text };

    fn push_to<A: Allocator + Copy>(
        &self,
        text: &mut Vec<u8, A>,
        names: &Names<'_, A>,
    ) -> Result<(), AllocError> {
        push_at(text, names, "", self.net(), self.routers())
    }
}

impl<L: Allocator + Copy> Line for PrefixLoop<L> {
    ghost use Rattle.loop_report.specs.Texts.{loop_line};

    ghost line_as = { loop_line };

    fn push_line<A: Allocator + Copy>(
        &self,
        text: &mut Vec<u8, A>,
        names: &Names<'_, A>,
    ) -> Result<(), AllocError> {
        push_at(text, names, "loop ", self.net(), self.routers())?;
        push_word(text, "\n")
    }
}
