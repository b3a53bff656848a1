//! What holds of the JSON of explanations.

ghost use Rattle.std.specs.Prelude.{◌<◌};
ghost use Rattle.json.specs.Json.{max_depth};
ghost use Rattle.lsa_codec.specs.Prefix.{Net};
ghost use Rattle.lsa_codec.specs.declared.address.RouterId.{RouterId as AnyRouter};
ghost use Rattle.explanation.specs.Texts.{ExplanationValue};
ghost use Rattle.study_documents.specs.Documents.{fields_depth};
ghost use Rattle.explanation_json.specs.Explanations.{explain_reply};

use study_documents::replies_nest_little;

/// No reply to `explain` nests as deep as readers of JSON allow.
///
/// The function does nothing: its contract is the law.
pub fn explanations_nest_little()
    ensures { (router : AnyRouter) (net : Net) (e : ExplanationValue)
        → fields_depth (explain_reply router net e) < max_depth }
{
    replies_nest_little();
}
