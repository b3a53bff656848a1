//! The lines of `help`.

ghost use Rattle.std.specs.Prelude.{◌≡◌, ◌++◌, OnOk, flat_map, length, map};
ghost use Rattle.study_words.specs.declared.study_word.StudyWord.TheVariants.{Event, Plan, See};
ghost use Rattle.study_hints.specs.Help.{command_line, command_meaning, commands, condition_lines, conditions_after, help_lines, with_end};
ghost use Rattle.study_hints.specs.Grammar.{expectation_text};

use crate::grammar::{command_text, expectation_text};
use std::alloc::{AllocError, Allocator};
use study_words::{ConditionWord, EventWord, PlanWord, SeeWord, StudyWord, Word};

/// All command words, in the order of `help`.
pub fn commands() -> &'static [StudyWord]
    ensures { result.now ≡ commands }
{
    &[
        StudyWord::Plan(PlanWord::Cost),
        StudyWord::Plan(PlanWord::DropLink),
        StudyWord::Plan(PlanWord::FailLink),
        StudyWord::Plan(PlanWord::FailNet),
        StudyWord::Plan(PlanWord::FailRouter),
        StudyWord::Plan(PlanWord::AddStub),
        StudyWord::Plan(PlanWord::Summary),
        StudyWord::Plan(PlanWord::AddSummary),
        StudyWord::Plan(PlanWord::AddExternal),
        StudyWord::Plan(PlanWord::DropExternal),
        StudyWord::Plan(PlanWord::Refresh),
        StudyWord::Plan(PlanWord::Undo),
        StudyWord::Plan(PlanWord::Redo),
        StudyWord::Plan(PlanWord::Table),
        StudyWord::Plan(PlanWord::Tables),
        StudyWord::Plan(PlanWord::Compare),
        StudyWord::Plan(PlanWord::Info),
        StudyWord::Event(EventWord::Cut),
        StudyWord::Event(EventWord::SetCost),
        StudyWord::Event(EventWord::Drain),
        StudyWord::Event(EventWord::Fail),
        StudyWord::Event(EventWord::Back),
        StudyWord::See(SeeWord::Routers),
        StudyWord::See(SeeWord::Links),
        StudyWord::See(SeeWord::Networks),
        StudyWord::See(SeeWord::Routes),
        StudyWord::See(SeeWord::Path),
        StudyWord::See(SeeWord::Explain),
        StudyWord::See(SeeWord::Changes),
        StudyWord::See(SeeWord::Differences),
        StudyWord::See(SeeWord::Lost),
        StudyWord::See(SeeWord::Gone),
        StudyWord::See(SeeWord::Loops),
        StudyWord::See(SeeWord::Microloops),
        StudyWord::See(SeeWord::Sweep),
        StudyWord::See(SeeWord::Audit),
        StudyWord::See(SeeWord::Log),
        StudyWord::See(SeeWord::Help),
        StudyWord::Expect,
    ]
}

/// What a command does that `ospf-plan` has, too.
#[tactic(auto, unfolding(crate::specs::Help::command_meaning))]
fn plan_command_meaning(word: PlanWord) -> &'static str
    ensures { result.now ≡ command_meaning (Plan word) }
{
    match word {
        PlanWord::Cost => "sets the cost of a link",
        PlanWord::DropLink => "removes one link of a router",
        PlanWord::FailLink => "removes the point-to-point links of two routers",
        PlanWord::FailNet => "removes a transit network, named by its Designated Router's address",
        PlanWord::FailRouter => "removes all LSAs of a router",
        PlanWord::AddStub => "adds a stub network",
        PlanWord::Summary => "sets the metric of a summary",
        PlanWord::AddSummary => "adds a summary",
        PlanWord::AddExternal => "adds an external prefix",
        PlanWord::DropExternal => "removes an external prefix",
        PlanWord::Refresh => "sets the metrics of summaries as their originators announce them",
        PlanWord::Undo => "takes the last edits back",
        PlanWord::Redo => "carries out undone edits again",
        PlanWord::Table => "the routing table of a router, as ospf-plan prints it",
        PlanWord::Tables => "the routing tables of all routers",
        PlanWord::Compare => "how a table differs from that of the loaded database",
        PlanWord::Info => "counts of the database and of the edits",
    }
}

/// What a question asks that only studies have.
#[tactic(auto, unfolding(crate::specs::Help::command_meaning))]
fn see_command_meaning(word: SeeWord) -> &'static str
    ensures { result.now ≡ command_meaning (See word) }
{
    match word {
        SeeWord::Routers => "each router with its areas, roles and numbers of links",
        SeeWord::Links => "each link with its number, cost, cost back and addresses",
        SeeWord::Networks => "each transit network with its Designated Router and members",
        SeeWord::Routes => "what a router uses, by neighbor; with an address the longest match",
        SeeWord::Path => "the ways of a packet, router by router, and how they end",
        SeeWord::Explain => "why a route is what it is, by the rules of RFC 2328",
        SeeWord::Changes => "what differs from the baseline, by kind of change",
        SeeWord::Differences => "the LSAs that differ from the baseline, by meaning",
        SeeWord::Lost => "routes that are gone though their prefix is still announced",
        SeeWord::Gone => "routes that are gone because nobody announces their prefix",
        SeeWord::Loops => "forwarding loops, and blackholes that the baseline does not have",
        SeeWord::Microloops => "what may loop while routers change over the last edits",
        SeeWord::Sweep => {
            "what each single failure takes away: its lost, gone and changed routes, and loops"
        }
        SeeWord::Audit => "what the answers may not be trusted for; with a kind each place",
        SeeWord::Log => "the edits that are done, as lines",
        SeeWord::Help => "the words, or what one means",
    }
}

/// What an event is, and taking events back.
#[tactic(auto, unfolding(crate::specs::Help::command_meaning))]
fn event_command_meaning(word: EventWord) -> &'static str
    ensures { result.now ≡ command_meaning (Event word) }
{
    match word {
        EventWord::Cut => {
            "links of two routers go with their stubs, one by an address; a router leaves a network"
        }
        EventWord::SetCost => {
            "sets the cost of the interfaces to a neighbor, or of that with an address"
        }
        EventWord::Drain => "the links of a router to routers and networks cost 65535",
        EventWord::Fail => "a router goes, with the links to it; others become Designated Router",
        EventWord::Back => "takes the last edits and events back",
    }
}

/// What a command does.
#[tactic(auto, unfolding(crate::specs::Help::command_meaning))]
pub fn command_meaning(word: StudyWord) -> &'static str
    ensures { result.now ≡ command_meaning word }
{
    match word {
        StudyWord::Plan(word) => plan_command_meaning(word),
        StudyWord::See(word) => see_command_meaning(word),
        StudyWord::Event(word) => event_command_meaning(word),
        StudyWord::Expect => "answers ok where the condition holds, else failed and what was found",
    }
}

/// Adds the line of a command.
fn push_command<A: Allocator + Copy>(
    text: &mut Vec<u8, A>,
    word: StudyWord,
) -> Result<(), AllocError>
    ensures { OnOk result
        (text.new.items ≡ text.old.items ++ with_end (command_line word)) }
{
    text.extend_from_slice(command_text(word).as_bytes())?;
    text.extend_from_slice(b": ")?;
    text.extend_from_slice(command_meaning(word).as_bytes())?;
    text.extend_from_slice(b"\n")
}

/// Adds the line of a condition.
fn push_condition<A: Allocator + Copy>(
    text: &mut Vec<u8, A>,
    word: ConditionWord,
) -> Result<(), AllocError>
    ensures { OnOk result
        (text.new.items ≡ text.old.items ++ with_end (expectation_text word)) }
{
    text.extend_from_slice(expectation_text(word).as_bytes())?;
    text.extend_from_slice(b"\n")
}

/// Adds the lines of all commands.
fn push_commands<A: Allocator + Copy>(text: &mut Vec<u8, A>) -> Result<(), AllocError>
    ensures { OnOk result (text.new.items
        ≡ text.old.items ++ flat_map with_end (map command_line commands)) }
{
    for word in commands() {
        push_command(text, *word)?;
    }
    Ok(())
}

/// Adds the lines of all conditions.
fn push_conditions<A: Allocator + Copy>(text: &mut Vec<u8, A>) -> Result<(), AllocError>
    ensures { OnOk result (text.new.items
        ≡ text.old.items ++ flat_map with_end condition_lines) }
{
    for word in ConditionWord::all() {
        push_condition(text, *word)?;
    }
    Ok(())
}

/// Adds the lines of all conditions after that of `expect`, and nothing after that of another word.
fn push_conditions_after<A: Allocator + Copy>(
    text: &mut Vec<u8, A>,
    word: StudyWord,
) -> Result<(), AllocError>
    ensures { OnOk result (text.new.items
        ≡ text.old.items ++ flat_map with_end (conditions_after word)) }
{
    match word {
        StudyWord::Plan(_) | StudyWord::See(_) | StudyWord::Event(_) => Ok(()),
        StudyWord::Expect => push_conditions(text),
    }
}

/// How many lines `help` answers after that of a word.
fn count_conditions_after(word: StudyWord) -> usize
    ensures { result ≡ length (conditions_after word) }
{
    match word {
        StudyWord::Plan(_) | StudyWord::See(_) | StudyWord::Event(_) => 0,
        StudyWord::Expect => ConditionWord::all().len(),
    }
}

/// How many lines `help` answers, with a word or without one.
pub fn count_help(word: Option<StudyWord>) -> usize
    ensures { result ≡ length (help_lines word) }
{
    match word {
        None => commands().len() + ConditionWord::all().len(),
        Some(word) => 1 + count_conditions_after(word),
    }
}

/// Adds the lines that `help` answers, each with its end: the line of a word, with those of all
/// conditions after that of `expect`; and where no word is given, the lines of all words.
///
/// # Errors
///
/// Memory ran out.
pub fn push_help<A: Allocator + Copy>(
    text: &mut Vec<u8, A>,
    word: Option<StudyWord>,
) -> Result<(), AllocError>
    ensures { OnOk result (text.new.items
        ≡ text.old.items ++ flat_map with_end (help_lines word)) }
{
    match word {
        None => {
            push_commands(text)?;
            push_conditions(text)
        }
        Some(word) => {
            push_command(text, word)?;
            push_conditions_after(text, word)
        }
    }
}
