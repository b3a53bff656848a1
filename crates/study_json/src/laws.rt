//! What holds of the texts of JSON values.

ghost use Rattle.std.specs.Prelude.{◌≡◌, ◌≤◌, Some};
ghost use Rattle.json.specs.Json.{Json, document, max_depth};
ghost use Rattle.json.specs.Print.{print};
ghost use Rattle.json.specs.Tree.{HasNumbers, depth, json_tokens};
ghost use Rattle.study_json.specs.JsonText.{json_text};

/// The text of a JSON value is read as that value, where its numbers are numbers of JSON, and
/// arrays and objects in it nest no deeper than readers allow; and it is what a writer of JSON
/// prints for the value.
///
/// The function does nothing: its contract is the law.
pub fn json_is_read_back()
    ensures printed { (v : Json) → json_text v ≡ print (json_tokens v) }
    ensures read { (v : Json) → HasNumbers v → depth v ≤ max_depth
        → document (json_text v) ≡ Some v }
{}
