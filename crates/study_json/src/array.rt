//! Arrays.

ghost use Rattle.std.specs.Prelude.{◌≡◌, ◌++◌, OnOk, codes, flat_map, map};
ghost use Rattle.json.specs.Tree.{HasNumbers, ItemsHaveNumbers};
ghost use Rattle.json.specs.Value.{items_of};
ghost use Rattle.study_json.specs.JsonText.{json_text};
ghost use Rattle.study_json.specs.Leaves.{array_json};

use crate::document::Document;
use std::alloc::{AllocError, Allocator};
use study_text::push_word;

/// Adds the values of items, each after a comma.
fn push_after_commas<T: Document, A: Allocator + Copy>(
    text: &mut Vec<u8, A>,
    items: &[T],
) -> Result<(), AllocError>
    ensures pushed { OnOk result (text.new.items ≡ text.old.items
        ++ flat_map (λ item. codes "," ++ json_text (T.json_as item))
        items.now) }
    ensures numbers { OnOk result
        (ItemsHaveNumbers (items_of (map (T.json_as) items.now))) }
{
    for item in items {
        push_word(text, ",")?;
        item.push_json(text)?;
    }
    Ok(())
}

/// Adds an array of the values of items.
///
/// # Errors
///
/// Memory ran out. A part of the text may have been added.
pub fn push_array<T: Document, A: Allocator + Copy>(
    text: &mut Vec<u8, A>,
    items: &[T],
) -> Result<(), AllocError>
    ensures pushed { OnOk result (text.new.items ≡ text.old.items
        ++ json_text (array_json (T.json_as) items.now)) }
    ensures numbers { OnOk result
        (HasNumbers (array_json (T.json_as) items.now)) }
{
    let Some((first, more)) = items.split_first() else {
        return push_word(text, "[]");
    };
    push_word(text, "[")?;
    first.push_json(text)?;
    push_after_commas(text, more)?;
    push_word(text, "]")
}

impl<T: Document> Document for &[T] {
    ghost use Rattle.study_json.specs.Leaves.{array_json as listed_json};

    ghost json_as = { λ items. listed_json T.json_as items.now };

    fn push_json<A: Allocator + Copy>(&self, text: &mut Vec<u8, A>) -> Result<(), AllocError> {
        push_array(text, self)
    }
}

impl<T: Document, B: Allocator> Document for Vec<T, B> {
    ghost use Rattle.study_json.specs.Leaves.{array_json as listed_json};

    ghost json_as = { λ items. listed_json T.json_as items.items };

    fn push_json<A: Allocator + Copy>(&self, text: &mut Vec<u8, A>) -> Result<(), AllocError> {
        push_array(text, self.as_slice())
    }
}
