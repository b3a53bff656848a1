//! Edits, as the lines of a script that mean them.

ghost use Rattle.std.specs.Prelude.{◌≡◌};
ghost use Rattle.std.specs.Result.{result_ok};
ghost use Rattle.test_databases.specs.Lines.{edit_in};

use edit_script::{Command, Edit, parse};
use std::test::Fail;

/// The edit that a line means, in any branch.
///
/// # Errors
///
/// The line does not mean an edit.
pub fn edit_of(line: &str) -> Result<Edit, Fail>
    ensures { result_ok result ≡ edit_in line.now }
{
    match parse(line.as_bytes()) {
        Ok((_, Command::Edit(edit))) => Ok(edit),
        _ => Err("an edit")?,
    }
}
