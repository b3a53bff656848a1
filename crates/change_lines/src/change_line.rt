//! Lines of changes.

use crate::change_name::ChangeName;
use network_names::Names;
use route_lines::RouteLine;
use std::alloc::{AllocError, Allocator, Global};
use std::marker::Model;
use study_text::{Line, Shown, push_after, push_word};

/// What differs, with the route of now and the one before.
#[derive(Drop)]
pub struct ChangeLine<A: Allocator = Global> {
    /// What differs, by name.
    pub name: ChangeName,
    /// The route of now, if there is one.
    pub now: Option<RouteLine<A>>,
    /// The route before, if there was one.
    pub was: Option<RouteLine<A>>,
}

impl<A: Allocator> Model for ChangeLine<A> {
    ghost use Rattle.change_lines.specs.ChangeTexts.{ChangeLineValue};

    ghost Value = { ChangeLineValue };

    ghost view = { λ l. record { name = l.name; now = l.now; was = l.was } };
}

impl<A: Allocator + Copy> Line for ChangeLine<A> {
    ghost use Rattle.change_lines.specs.ChangeTexts.{change_text};

    ghost line_as = { change_text };

    fn push_line<B: Allocator + Copy>(
        &self,
        text: &mut Vec<u8, B>,
        names: &Names<'_, B>,
    ) -> Result<(), AllocError> {
        self.name.push_to(text, names)?;
        push_after(text, names, " ", self.now.as_ref())?;
        push_after(text, names, " was ", self.was.as_ref())?;
        push_word(text, "\n")
    }
}
