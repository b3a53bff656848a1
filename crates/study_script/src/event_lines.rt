//! Reading an event.

ghost use Rattle.std.specs.Prelude.{◌≡◌};
ghost use Rattle.network_names.specs.Names.{stands_for};
ghost use Rattle.study_arguments.specs.Fault.{Is};
ghost use Rattle.study_arguments.specs.Positions.{words_at};
ghost use Rattle.study_script.specs.EventLines.{cut_of, event_line_of, happens, names_network};

use crate::named_command::NamedCommand;
use crate::plan_edits::edited;
use edit_script::{Command, Edit, Event};
use lsa_codec::Addr;
use network_names::Names;
use std::alloc::Allocator;
use study_arguments::{
    Ends, Fault, Position, first_word, is_like_prefix, one, three_or_four, two, two_or_three,
};
use study_words::EventWord;

/// An event is carried out as an edit.
fn happens(event: Event) -> NamedCommand
    ensures { result ≡ happens event }
{
    edited(Edit::Event(event))
}

/// Whether the second argument of a command, where there is one, is meant as a prefix.
fn names_network(line: Position<'_>) -> bool
    ensures { result ≡ names_network (words_at line.entry) }
{
    let Some(first) = first_word(line.rest) else {
        return false;
    };
    match first_word(first.rest) {
        Some(second) => is_like_prefix(second.word),
        None => false,
    }
}

/// What `cut` and the words after it mean: a router leaves a network, or links of two routers go.
#[tactic(auto, unfolding(crate::specs::EventLines::cut_of))]
fn cut_line<'a, A: Allocator + Copy>(
    names: &Names<'_, A>,
    line: Position<'a>,
) -> Result<NamedCommand, Fault<'a>>
    ensures { Is result (cut_of (stands_for names.now) (words_at line.entry)) }
{
    if names_network(line) {
        let (router, prefix) = two(names, line)?;
        return Ok(happens(Event::Leave { router, prefix }));
    }
    let (router, neighbor, address) = two_or_three(names, line)?;
    Ok(happens(Event::Cut {
        router,
        neighbor,
        address,
    }))
}

/// What a command word of an event, or of taking events back, and the words after it mean.
#[tactic(auto, unfolding(crate::specs::EventLines::event_line_of))]
pub(crate) fn event_line<'a, A: Allocator + Copy>(
    names: &Names<'_, A>,
    word: EventWord,
    line: Position<'a>,
) -> Result<NamedCommand, Fault<'a>>
    ensures { Is result (event_line_of (stands_for names.now) word (words_at line.entry)) }
{
    match word {
        EventWord::Cut => cut_line(names, line),
        EventWord::SetCost => {
            let (router, far, metric, ends): (_, Addr, _, Option<Ends>) = three_or_four(
                names, line,
            )?;
            Ok(happens(Event::SetCost {
                router,
                far,
                metric,
                both: ends.is_some(),
            }))
        }
        EventWord::Drain => {
            let router = one(names, line)?;
            Ok(happens(Event::Drain { router }))
        }
        EventWord::Fail => {
            let router = one(names, line)?;
            Ok(happens(Event::Fail { router }))
        }
        EventWord::Back => Ok(NamedCommand::Command(Command::Undo(one(names, line)?))),
    }
}
