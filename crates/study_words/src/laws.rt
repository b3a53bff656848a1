//! Laws of the words.

ghost use Rattle.std.specs.Prelude.{◌≡◌, Some};
ghost use Rattle.study_words.specs.declared.plan_word.PlanWord.{PlanWord as AnyPlanWord};
ghost use Rattle.study_words.specs.declared.see_word.SeeWord.{SeeWord as AnySeeWord};
ghost use Rattle.study_words.specs.declared.event_word.EventWord.{EventWord as AnyEventWord};
ghost use Rattle.study_words.specs.declared.condition_word.ConditionWord.{ConditionWord as AnyConditionWord};
ghost use Rattle.study_words.specs.declared.route_kind.RouteKind.{RouteKind as AnyRouteKind};
ghost use Rattle.study_words.specs.declared.audit_kind.AuditKind.{AuditKind as AnyAuditKind};
ghost use Rattle.study_words.specs.declared.failure_kind.FailureKind.{FailureKind as AnyFailureKind};
ghost use Rattle.study_words.specs.declared.comparison.Comparison.{Comparison as AnyComparison};
ghost use Rattle.study_words.specs.PlanWords.{plan_text, plan_word_of};
ghost use Rattle.study_words.specs.SeeWords.{see_text, see_word_of};
ghost use Rattle.study_words.specs.EventWords.{event_text, event_word_of};
ghost use Rattle.study_words.specs.ConditionWords.{condition_text, condition_word_of};
ghost use Rattle.study_words.specs.RouteKinds.{route_kind_text, route_kind_of};
ghost use Rattle.study_words.specs.AuditKinds.{audit_kind_text, audit_kind_of};
ghost use Rattle.study_words.specs.FailureKinds.{failure_kind_text, failure_kind_of};
ghost use Rattle.study_words.specs.Comparisons.{comparison_text, comparison_of};
ghost use Rattle.study_words.specs.declared.study_word.StudyWord.{StudyWord as AnyStudyWord};
ghost use Rattle.study_words.specs.StudyWords.{study_text, study_word_of};

/// Each word is found by its text, so no two words of a kind have one text.
///
/// The function does nothing: its contract is the law.
pub fn texts_are_found()
    ensures command { (w : AnyStudyWord) → study_word_of (study_text w) ≡ Some w }
    ensures plan { (w : AnyPlanWord) → plan_word_of (plan_text w) ≡ Some w }
    ensures see { (w : AnySeeWord) → see_word_of (see_text w) ≡ Some w }
    ensures event { (w : AnyEventWord) → event_word_of (event_text w) ≡ Some w }
    ensures condition { (w : AnyConditionWord) → condition_word_of (condition_text w) ≡ Some w }
    ensures route { (w : AnyRouteKind) → route_kind_of (route_kind_text w) ≡ Some w }
    ensures audit { (w : AnyAuditKind) → audit_kind_of (audit_kind_text w) ≡ Some w }
    ensures failure { (w : AnyFailureKind) → failure_kind_of (failure_kind_text w) ≡ Some w }
    ensures comparison { (w : AnyComparison) → comparison_of (comparison_text w) ≡ Some w }
{}
