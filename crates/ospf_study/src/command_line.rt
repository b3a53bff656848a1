//! The command line, read by clap.

ghost use Rattle.std.specs.Prelude.{◌≡◌, false, [], codes, map, nat_lt, string_bytes, IfOk, IfErr, OnOk};
ghost use Rattle.clap.specs.Words.{app_of, count_of, fault_of, found_of, rows_of, rule_of};
ghost use Rattle.host_arguments.specs.Commands.{value_rule};
ghost use Rattle.host_arguments.specs.OptionsFaults.{IsRefusal};
ghost use Rattle.ospf_study.specs.CommandLine.{dump_rule, studies_rule, IsFormatRule, IsGiven, OfProgram};
ghost use Rattle.ospf_study.specs.steps.FoundFiles.{IsRead};

use crate::arguments::Options;
use crate::help::TEXTS;
use clap::builder::ValueParser;
use clap::{Arg, ArgAction, ArgMatches, Command};
use host_arguments::{OptionsFault, flag_option, named_command, value_option, values_found};
use std::alloc::{AllocError, Global};

/// The options that the words of a command line give. The first word is the program's name.
///
/// Each field is what clap gives the argument of its name for these words.
///
/// # Errors
///
/// `Refused` for words that clap refuses, `--help` and `--version` among them, with clap's own
/// error. `OutOfMemory` where memory ran out.
pub(crate) fn options<'a>(alloc: Global, words: &'a [String]) -> Result<Options<'a>, OptionsFault>
    ensures given { IfOk result
        (λ options. OfProgram (λ app. IsGiven app (map string_bytes words.now) options)) }
    ensures accepted { OnOk result
        (OfProgram (λ app. fault_of app (map string_bytes words.now) ≡ [])) }
    ensures refused { IfErr result
        (λ fault. OfProgram (λ app. IsRefusal (fault_of app (map string_bytes words.now)) fault)) }
{
    let matches = command(alloc)?.try_get_matches_from(words)?;
    Ok(named_files(alloc, &matches)?)
}

/// The program's command. Its name in help and usage is `ospf-study`, whatever file it is run from.
fn command<'a>(alloc: Global) -> Result<Command<'a>, AllocError>
    ensures { IfOk result (λ command. OfProgram (λ app. app_of command ≡ app)) }
{
    named_command(alloc, "ospf-study", TEXTS)?
        .arg(dump_option(alloc))?
        .arg(file_option(
            alloc,
            "baseline",
            "DUMP",
            "The dump or the saved session to compare with",
        ))?
        .arg(file_option(
            alloc,
            "names",
            "FILE",
            "The names of routers, as /etc/hosts has them",
        ))?
        .arg(flag_option(
            alloc,
            "keep-going",
            "Carry out all lines, also after one that is refused or fails",
        ))?
        .arg(flag_option(alloc, "verbose", "Say of each edit what it changed"))?
        .arg(format_option(alloc))?
        .arg(file_option(
            alloc,
            "out",
            "DUMP",
            "Where to write the dump after the studies",
        ))?
        .arg(study_words(alloc))
}

/// The option `--dump DUMP`, which has to be given.
fn dump_option<'a>(alloc: Global) -> Arg<'a>
    ensures rule { rule_of result ≡ dump_rule }
    ensures local { result.global ≡ false }
{
    file_option(
        alloc,
        "dump",
        "DUMP",
        "The dump or the saved session to open",
    )
    .required(true)
}

/// An option `--NAME VALUE`.
fn file_option<'a>(alloc: Global, name: &'a str, value: &'a str, help: &'a str) -> Arg<'a>
    ensures rule { rule_of result ≡ value_rule name.entry.now ArgAction.Set }
    ensures local { result.global ≡ false }
{
    value_option(alloc, name, value, help, ArgAction::Set)
}

/// The forms of the answers.
const FORMATS: ValueParser<'static> = ValueParser::Names(&["text", "json"]);

/// The option `--format text|json`.
fn format_option<'a>(alloc: Global) -> Arg<'a>
    ensures rule { IsFormatRule (rule_of result) }
    ensures local { result.global ≡ false }
{
    file_option(
        alloc,
        "format",
        "FORMAT",
        "Answer with texts, or with JSON documents, one a line",
    )
    .value_parser(FORMATS)
}

/// The words `STUDY..`.
fn study_words<'a>(alloc: Global) -> Arg<'a>
    ensures rule { rule_of result ≡ studies_rule }
    ensures local { result.global ≡ false }
{
    Arg::new(alloc, "studies")
        .value_name("STUDY")
        .help("The studies, carried out one after another; - or none: standard input")
        .action(ArgAction::Append)
}

/// The files and the options that clap found.
fn named_files<'a>(alloc: Global, matches: &ArgMatches<'a>) -> Result<Options<'a>, AllocError>
    ensures { IfOk result (IsRead (found_of matches.now)) }
{
    Ok(Options {
        dump: matches.get_str("dump"),
        baseline: matches.get_str("baseline"),
        names: matches.get_str("names"),
        keep_going: is_given(matches, "keep-going"),
        verbose: is_given(matches, "verbose"),
        format: matches.get_str("format"),
        out: matches.get_str("out"),
        studies: values_found(alloc, matches, "studies")?,
    })
}

/// Whether an option without a value is given.
fn is_given(matches: &ArgMatches<'_>, id: &str) -> bool
    ensures { result ≡ nat_lt 0 (count_of id.now (rows_of (found_of matches.now))) }
{
    0 < matches.get_count(id)
}
