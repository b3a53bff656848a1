//! What holds of the JSON of differences and findings.

ghost use Rattle.std.specs.Prelude.{◌<◌, List};
ghost use Rattle.json.specs.Json.{max_depth};
ghost use Rattle.study_words.specs.declared.audit_kind.AuditKind.{AuditKind as AnyKind};
ghost use Rattle.lsa_differences.specs.declared.line.DifferenceLine.{DifferenceLine as AnyLine};
ghost use Rattle.audit_places.specs.Places.{PlaceValue};
ghost use Rattle.audit_report.specs.Findings.{FindingValue};
ghost use Rattle.study_documents.specs.Documents.{fields_depth};
ghost use Rattle.finding_json.specs.Differences.{differences_reply};
ghost use Rattle.finding_json.specs.Findings.{findings_reply, places_reply};

/// No reply nests as deep as readers of JSON allow.
///
/// The function does nothing: its contract is the law.
pub fn findings_nest_little()
    ensures differences { (lines : List AnyLine)
        → fields_depth (differences_reply lines) < max_depth }
    ensures findings { (findings : List FindingValue)
        → fields_depth (findings_reply findings) < max_depth }
    ensures places { (kind : AnyKind) (places : List PlaceValue)
        → fields_depth (places_reply kind places) < max_depth }
{}
