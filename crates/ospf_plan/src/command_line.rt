//! The command line, read by clap.

ghost use Rattle.std.specs.Prelude.{◌≡◌, false, [], map, string_bytes, IfOk, IfErr, OnOk};
ghost use Rattle.clap.specs.Words.{app_of, fault_of, found_of, rule_of};
ghost use Rattle.host_arguments.specs.OptionsFaults.{IsRefusal};
ghost use Rattle.ospf_plan.specs.CommandLine.{file_rule, ospf_plan, IsGiven};
ghost use Rattle.ospf_plan.specs.steps.FoundFiles.{IsRead};

use crate::arguments::Options;
use crate::help::TEXTS;
use clap::{Arg, ArgAction, ArgMatches, Command};
use host_arguments::{OptionsFault, named_command, value_option};
use std::alloc::{AllocError, Global};

/// The options that the words of a command line give. The first word is the program's name.
///
/// Each field is the value that clap gives the option of its name for these words, and `None`
/// where there is none.
///
/// # Errors
///
/// `Refused` for words that clap refuses, `--help` and `--version` among them, with clap's own
/// error. `OutOfMemory` where a growth was refused.
pub(crate) fn options<'a>(alloc: Global, words: &'a [String]) -> Result<Options<'a>, OptionsFault>
    ensures given { IfOk result (IsGiven (map string_bytes words.now)) }
    ensures accepted { OnOk result (fault_of ospf_plan (map string_bytes words.now) ≡ []) }
    ensures refused { IfErr result (IsRefusal (fault_of ospf_plan (map string_bytes words.now))) }
{
    let matches = command(alloc)?.try_get_matches_from(words)?;
    Ok(named_files(&matches))
}

/// The program's command. Its name in help and usage is `ospf-plan`, whatever file it is run from.
fn command<'a>(alloc: Global) -> Result<Command<'a>, AllocError>
    ensures { IfOk result (λ command. app_of command ≡ ospf_plan) }
{
    named_command(alloc, "ospf-plan", TEXTS)?
        .arg(file_option(
            alloc,
            "dump",
            "The dump or the saved session to open, in place of a small sample",
        ))?
        .arg(file_option(alloc, "script", "The script, in place of standard input"))?
        .arg(file_option(alloc, "out", "Where to write the dump after the script"))?
        .arg(file_option(alloc, "save", "Where to save the session after the script"))
}

/// An option `--NAME FILE`.
fn file_option<'a>(alloc: Global, name: &'a str, help: &'a str) -> Arg<'a>
    ensures rule { rule_of result ≡ file_rule name.entry.now }
    ensures local { result.global ≡ false }
{
    value_option(alloc, name, "FILE", help, ArgAction::Set)
}

/// The files that clap found.
fn named_files<'a>(matches: &ArgMatches<'a>) -> Options<'a>
    ensures { IsRead (found_of matches.now) result }
{
    Options {
        dump: matches.get_str("dump"),
        script: matches.get_str("script"),
        out: matches.get_str("out"),
        save: matches.get_str("save"),
    }
}
