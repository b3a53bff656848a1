//! What has a JSON value.

use std::alloc::{AllocError, Allocator};

/// What has a JSON value.
pub trait Document {
    ghost use Rattle.std.specs.Prelude.{◌≡◌, ◌++◌, OnOk};
    ghost use Rattle.json.specs.Json.{Json};
    ghost use Rattle.json.specs.Tree.{HasNumbers};
    ghost use Rattle.study_json.specs.JsonText.{json_text};

    /// The value.
    ghost json_as: { Self → Json };

    /// Adds the text of the value. Its numbers are numbers of JSON.
    ///
    /// # Errors
    ///
    /// Memory ran out.
    fn push_json<A: Allocator + Copy>(&self, text: &mut Vec<u8, A>) -> Result<(), AllocError>
        ensures pushed { OnOk result
            (text.new.items ≡ text.old.items ++ json_text (json_as self.now)) }
        ensures numbers { OnOk result (HasNumbers (json_as self.now)) };
}
