//! Reading a command from its command word and its arguments.

ghost use Rattle.std.specs.Prelude.{◌≡◌};
ghost use Rattle.edit_script.specs.Words.{words};
ghost use Rattle.edit_script.specs.Reading.{command_of};

use crate::command::Command;
use crate::edits::edit;
use crate::fault::ScriptFault;
use crate::reading::{count, none, router};

/// The command of a command word and its arguments: `undo COUNT`, `redo COUNT`, `table ROUTER`,
/// `tables`, `compare ROUTER`, `info`, or an edit.
#[tactic(auto, unfolding(crate::specs::Reading::command_of))]
pub(crate) fn command(word: &[u8], arguments: &[u8]) -> Result<Command, ScriptFault>
    ensures { result ≡ command_of word.now (words arguments.now) }
{
    if word == b"undo".as_slice() {
        Ok(Command::Undo(count(arguments)?))
    } else if word == b"redo".as_slice() {
        Ok(Command::Redo(count(arguments)?))
    } else if word == b"table".as_slice() {
        Ok(Command::Table(router(arguments)?))
    } else if word == b"tables".as_slice() {
        none(arguments)?;
        Ok(Command::Tables)
    } else if word == b"compare".as_slice() {
        Ok(Command::Compare(router(arguments)?))
    } else if word == b"info".as_slice() {
        none(arguments)?;
        Ok(Command::Info)
    } else {
        Ok(Command::Edit(edit(word, arguments)?))
    }
}
