//! Replies with one member.

ghost use Rattle.std.specs.Prelude.{◌≡◌, ◌∷◌, [], ◌++◌, OnOk};
ghost use Rattle.study_documents.specs.Replies.{listing};
ghost use Rattle.study_json.specs.Fields.{HaveNumbers, more_text};

use std::alloc::{AllocError, Allocator};
use study_json::{Document, push_next};
use study_text::push_word;

/// Adds a reply with one member: what is asked for, by its key.
///
/// # Errors
///
/// Memory ran out. A part of the text may have been added.
pub fn push_single<T: Document, A: Allocator + Copy>(
    text: &mut Vec<u8, A>,
    key: &str,
    item: &T,
) -> Result<(), AllocError>
    ensures pushed { OnOk result (text.new.items
        ≡ text.old.items ++ more_text ((key.now, T.json_as item.now) ∷ [])) }
    ensures numbers { OnOk result (HaveNumbers ((key.now, T.json_as item.now) ∷ [])) }
{
    push_next(text, key, item)?;
    push_word(text, "}")
}

/// Adds a reply with one list, by its key, as `,"pairs":[..]}`.
///
/// # Errors
///
/// Memory ran out. A part of the text may have been added.
pub fn push_listing<T: Document, A: Allocator + Copy>(
    text: &mut Vec<u8, A>,
    key: &str,
    items: &[T],
) -> Result<(), AllocError>
    ensures pushed { OnOk result (text.new.items
        ≡ text.old.items ++ more_text (listing key.now T.json_as items.now)) }
    ensures numbers { OnOk result (HaveNumbers (listing key.now T.json_as items.now)) }
{
    push_single(text, key, &items)
}
