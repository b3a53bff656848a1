//! The texts of paths. A path is shown as how walks end, and the routers that they reach.

ghost use Rattle.std.specs.Prelude.{◌≡◌, ◌++◌, OnOk};
ghost use Rattle.network_names.specs.Names.{called};
ghost use Rattle.route_lines.specs.PathTexts.{ends_text, path_text};

use crate::path::Path;
use crate::path_end::PathEnd;
use network_names::Names;
use std::alloc::{AllocError, Allocator};
use study_text::{Shown, push_lines, push_list, push_word};

/// Adds the lines of a path: one for each step, and one for each loop.
///
/// # Errors
///
/// Memory ran out. A part of the text may have been added.
pub fn push_path<A: Allocator + Copy, B: Allocator + Copy>(
    text: &mut Vec<u8, A>,
    names: &Names<'_, A>,
    path: &Path<B>,
) -> Result<(), AllocError>
    ensures { OnOk result
        (text.new.items ≡ text.old.items ++ path_text (called names.now) path.now) }
{
    push_lines(text, names, &path.steps)?;
    push_lines(text, names, &path.loops)
}

impl<A: Allocator + Copy> Shown for Path<A> {
    ghost use Rattle.route_lines.specs.PathTexts.{through_text};

    ghost shown_as = { through_text };

    fn push_to<B: Allocator + Copy>(
        &self,
        text: &mut Vec<u8, B>,
        names: &Names<'_, B>,
    ) -> Result<(), AllocError> {
        push_ends(text, names, &self.ends)?;
        push_word(text, " through ")?;
        push_list(text, names, &self.routers)
    }
}

/// Adds how walks end, joined by commas.
///
/// # Errors
///
/// Memory ran out. A part of the text may have been added.
pub fn push_ends<A: Allocator + Copy>(
    text: &mut Vec<u8, A>,
    names: &Names<'_, A>,
    ends: &[PathEnd],
) -> Result<(), AllocError>
    ensures { OnOk result (text.new.items ≡ text.old.items ++ ends_text ends.now) }
{
    push_list(text, names, ends)
}
