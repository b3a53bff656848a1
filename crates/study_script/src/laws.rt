//! Laws between the lines of studies and those of `ospf-plan`.

ghost use Rattle.std.specs.Prelude.{◌≡◌, ℕ, Bool, List, [], ◌∷◌, Ok, Err, Some, None, codes, slice_index};
ghost use Rattle.edit_script.specs.declared.command.Command.{Command as AnyCommand};
ghost use Rattle.edit_script.specs.declared.fault.ScriptFault.TheVariants.{UnknownWord as NotKnown};
ghost use Rattle.edit_script.specs.Line.{meaning as plan_meaning};
ghost use Rattle.edit_script.specs.Reading.{command_of};
ghost use Rattle.edit_script.specs.Words.{Word, words};
ghost use Rattle.study_words.specs.SeeWords.{see_text};
ghost use Rattle.study_words.specs.EventWords.{event_text};
ghost use Rattle.study_words.specs.declared.event_word.EventWord.{EventWord as AnyEventWord};
ghost use Rattle.study_words.specs.declared.see_word.SeeWord.{SeeWord as AnySeeWord};
ghost use Rattle.study_arguments.specs.Values.{Lookup};
ghost use Rattle.study_script.specs.declared.question.Question.{Question as AnyQuestion};
ghost use Rattle.study_script.specs.Expected.{Expected};
ghost use Rattle.study_script.specs.Line.{expect, meaning, plan, see};
ghost use Rattle.study_script.specs.Spelling.{IsExpectedInRange, IsQuestionInRange, Spells, expectation_words, question_words};

/// Each line that `ospf-plan` takes means the same in a study, whatever names there are; a line
/// without words, and a comment, have no reply.
///
/// The function does nothing: its contract is the law.
pub fn plan_lines_mean_the_same()
    ensures taken { (names : Lookup) (line : List ℕ) (branch : ℕ) (c : AnyCommand)
        → plan_meaning line ≡ Ok (branch, c)
        → meaning names line ≡ Ok (Some (branch, plan c)) }
    ensures empty { (names : Lookup) (line : List ℕ)
        → words line ≡ [] → meaning names line ≡ Ok None }
    ensures comment { (names : Lookup) (line : List ℕ) (first : Word) (others : List Word)
        → words line ≡ first ∷ others → slice_index first 0 ≡ 35
        → meaning names line ≡ Ok None }
{}

/// `ospf-plan` knows none of the words that only studies have, whatever words follow.
///
/// The function does nothing: its contract is the law.
pub fn new_words_are_unknown_to_plans()
    ensures question { (word : AnySeeWord) (arguments : List Word)
        → command_of (see_text word) arguments ≡ Err NotKnown }
    ensures event { (word : AnyEventWord) (arguments : List Word)
        → command_of (event_text word) arguments ≡ Err NotKnown }
    ensures expect { (arguments : List Word)
        → command_of (codes "expect") arguments ≡ Err NotKnown }
{}

/// The words of a question are read as this question, and those of an expectation as this
/// expectation, in the branch that the line names.
///
/// The function does nothing: its contract is the law.
pub fn reads_what_is_said()
    ensures question { (names : Lookup) (line : List ℕ) (branch : ℕ) (q : AnyQuestion)
        → IsQuestionInRange q → Spells (words line) branch (question_words q)
        → meaning names line ≡ Ok (Some (branch, see q)) }
    ensures expectation { (names : Lookup) (line : List ℕ) (branch : ℕ) (is_not : Bool)
        (what : Expected)
        → IsExpectedInRange what → Spells (words line) branch (expectation_words is_not what)
        → meaning names line ≡ Ok (Some (branch, expect is_not what)) }
{}
