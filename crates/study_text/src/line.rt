//! Lines.

ghost use Rattle.std.specs.Prelude.{◌≡◌, ◌++◌, OnOk};
ghost use Rattle.network_names.specs.Names.{called};
ghost use Rattle.study_text.specs.Lists.{lines_of};

use network_names::Names;
use std::alloc::{AllocError, Allocator};

/// What has a line of its own, where routers have names.
pub trait Line {
    ghost use Rattle.std.specs.Prelude.{◌≡◌, ◌++◌, OnOk, codes};
    ghost use Rattle.network_names.specs.Names.{called};
    ghost use Rattle.study_text.specs.Shown.{Text};

    /// The line without its end, by the names of routers.
    ghost line_as: { Text Self };

    /// Adds the line and its end.
    ///
    /// # Errors
    ///
    /// Memory ran out.
    fn push_line<A: Allocator + Copy>(
        &self,
        text: &mut Vec<u8, A>,
        names: &Names<'_, A>,
    ) -> Result<(), AllocError>
        ensures { OnOk result (text.new.items
            ≡ text.old.items ++ (line_as (called names.now) self.now ++ codes "\n")) };
}

/// Adds a line for each of some items.
///
/// # Errors
///
/// Memory ran out. A part of the text may have been added.
pub fn push_lines<T: Line, A: Allocator + Copy>(
    text: &mut Vec<u8, A>,
    names: &Names<'_, A>,
    items: &[T],
) -> Result<(), AllocError>
    ensures { OnOk result (text.new.items
        ≡ text.old.items ++ lines_of (T.line_as (called names.now)) items.now) }
{
    for item in items {
        item.push_line(text, names)?;
    }
    Ok(())
}
