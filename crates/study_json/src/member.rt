//! Members of objects.

ghost use Rattle.std.specs.Prelude.{◌≡◌, ◌++◌, OnOk, codes};
ghost use Rattle.json.specs.Tree.{HasNumbers};
ghost use Rattle.study_json.specs.JsonText.{json_text, member_text};

use crate::document::Document;
use crate::string::push_string;
use std::alloc::{AllocError, Allocator};
use study_text::push_word;

/// Adds a member after a mark: a key, and the value of an item.
fn push_member<T: Document, A: Allocator + Copy>(
    text: &mut Vec<u8, A>,
    mark: &str,
    key: &str,
    item: &T,
) -> Result<(), AllocError>
    ensures pushed { OnOk result (text.new.items ≡ text.old.items ++ (mark.now
        ++ member_text key.now (json_text (T.json_as item.now)))) }
    ensures numbers { OnOk result (HasNumbers (T.json_as item.now)) }
{
    push_word(text, mark)?;
    push_string(text, key.as_bytes())?;
    push_word(text, ":")?;
    item.push_json(text)
}

/// Adds the beginning of an object and its first member, as `{"router":"1.1.1.1"`.
///
/// # Errors
///
/// Memory ran out. A part of the text may have been added.
pub fn push_first<T: Document, A: Allocator + Copy>(
    text: &mut Vec<u8, A>,
    key: &str,
    item: &T,
) -> Result<(), AllocError>
    ensures pushed { OnOk result (text.new.items ≡ text.old.items ++ (codes "{"
        ++ member_text key.now (json_text (T.json_as item.now)))) }
    ensures numbers { OnOk result (HasNumbers (T.json_as item.now)) }
{
    push_member(text, "{", key, item)
}

/// Adds a further member of an object, as `,"cost":10`.
///
/// # Errors
///
/// Memory ran out. A part of the text may have been added.
pub fn push_next<T: Document, A: Allocator + Copy>(
    text: &mut Vec<u8, A>,
    key: &str,
    item: &T,
) -> Result<(), AllocError>
    ensures pushed { OnOk result (text.new.items ≡ text.old.items ++ (codes ","
        ++ member_text key.now (json_text (T.json_as item.now)))) }
    ensures numbers { OnOk result (HasNumbers (T.json_as item.now)) }
{
    push_member(text, ",", key, item)
}
