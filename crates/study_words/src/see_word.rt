//! The command words of questions that only studies have.
#![tactic(auto, unfolding(crate::specs::Written::written))]

use crate::word::{Word, list_of, text_of};

/// A command word of a question that only studies have.
#[derive(Clone, Copy, Debug, PartialEq, Eq)]
pub enum SeeWord {
    /// `routers`: each router with its areas, roles and numbers of links.
    Routers,
    /// `links [ROUTER]`: each link with its number, cost, cost back and addresses.
    Links,
    /// `networks`: each transit network with its Designated Router and members.
    Networks,
    /// `routes ROUTER [ADDRESS]`: what a router uses, by neighbor; with an address the longest
    /// match.
    Routes,
    /// `path ROUTER ADDRESS`: the ways of a packet, router by router, and how they end.
    Path,
    /// `explain ROUTER PREFIX`: why a route is what it is, by the rules of RFC 2328.
    Explain,
    /// `changes [ROUTER]`: what differs from the baseline, by kind of change.
    Changes,
    /// `differences`: the LSAs that differ from the baseline, by meaning.
    Differences,
    /// `lost`: routes that are gone though their prefix is still announced.
    Lost,
    /// `gone`: routes that are gone because nobody announces their prefix.
    Gone,
    /// `loops`: forwarding loops, and blackholes that the baseline does not have.
    Loops,
    /// `microloops [COUNT]`: what may loop while routers change over the last edits.
    Microloops,
    /// `sweep (links | networks | routers | all) [within AREA]`: what each single failure takes
    /// away.
    Sweep,
    /// `audit [KIND]`: what the answers may not be trusted for; with a kind each place.
    Audit,
    /// `log`: the edits that are done, as lines.
    Log,
    /// `help [WORD]`: the words, or what one means.
    Help,
}

/// The words in their order and how each is written, handed to a macro.
macro_rules! see_words {
    ($take:ident $($word:tt)?) => {
        $take!($($word)? SeeWord
            Routers "routers"
            Links "links"
            Networks "networks"
            Routes "routes"
            Path "path"
            Explain "explain"
            Changes "changes"
            Differences "differences"
            Lost "lost"
            Gone "gone"
            Loops "loops"
            Microloops "microloops"
            Sweep "sweep"
            Audit "audit"
            Log "log"
            Help "help"
        )
    };
}

impl Word for SeeWord {
    ghost use Rattle.study_words.specs.SeeWords.{see_text, see_words};

    ghost all = { see_words };

    ghost spelled = { see_text };

    fn all() -> &'static [SeeWord] {
        see_words!(list_of)
    }

    fn text(self) -> &'static str {
        see_words!(text_of self)
    }
}
