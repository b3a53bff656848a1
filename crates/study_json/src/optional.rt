//! What may be missing.

use crate::document::Document;
use std::alloc::{AllocError, Allocator};
use study_text::push_word;

impl<T: Document> Document for Option<T> {
    ghost use Rattle.study_json.specs.Leaves.{option_json};

    ghost json_as = { λ item. option_json T.json_as item };

    fn push_json<A: Allocator + Copy>(&self, text: &mut Vec<u8, A>) -> Result<(), AllocError> {
        match self {
            Some(item) => item.push_json(text),
            None => push_word(text, "null"),
        }
    }
}
