//! The command line, read by clap.

ghost use Rattle.std.specs.Prelude.{◌≡◌, false, [], codes, map, string_bytes, IfOk, IfErr, OnOk};
ghost use Rattle.clap.specs.Words.{app_of, count_of, fault_of, found_of, rows_of, rule_of};
ghost use Rattle.host_arguments.specs.OptionsFaults.{IsRefusal};
ghost use Rattle.ospf_capture.specs.CommandLine.{files_rule};
ghost use Rattle.ospf_capture.specs.CommandLine.{kept_where, ospf_capture, IsGiven};
ghost use Rattle.ospf_capture.specs.steps.FoundFiles.{IsRead};

use crate::arguments::Options;
use crate::help::TEXTS;
use clap::{Arg, ArgAction, ArgMatches, Command};
use host_arguments::{OptionsFault, flag_option, named_command, value_option, values_found};
use lsa_instances::FlushedLsas;
use std::alloc::{AllocError, Global};

/// The options that the words of a command line give. The first word is the program's name.
///
/// Each field is what clap gives the argument of its name for these words.
///
/// # Errors
///
/// `Refused` for words that clap refuses, `--help` and `--version` among them, with clap's own
/// error. `OutOfMemory` where memory ran out.
pub(crate) fn options<'a>(alloc: Global, words: &'a [String]) -> Result<Options<'a>, OptionsFault>
    ensures given { IfOk result (IsGiven (map string_bytes words.now)) }
    ensures accepted { OnOk result (fault_of ospf_capture (map string_bytes words.now) ≡ []) }
    ensures refused { IfErr result
        (IsRefusal (fault_of ospf_capture (map string_bytes words.now))) }
{
    let matches = command(alloc)?.try_get_matches_from(words)?;
    Ok(named_files(alloc, &matches)?)
}

/// The program's command. Its name in help and usage is `ospf-capture`, whatever file it is run
/// from.
fn command<'a>(alloc: Global) -> Result<Command<'a>, AllocError>
    ensures { IfOk result (λ command. app_of command ≡ ospf_capture) }
{
    named_command(alloc, "ospf-capture", TEXTS)?
        .arg(value_option(
            alloc,
            "out",
            "DUMP",
            "Where to write the dump; without it none is written",
            ArgAction::Set,
        ))?
        .arg(value_option(
            alloc,
            "against",
            "LIST",
            "Compare the dump with this list of another router's LSAs; may be given again",
            ArgAction::Append,
        ))?
        .arg(flag_option(
            alloc,
            "keep-flushed",
            "Keep flushed LSAs in the dump, at MaxAge",
        ))?
        .arg(file_words(alloc))
}

/// The words `FILE..`.
fn file_words<'a>(alloc: Global) -> Arg<'a>
    ensures rule { rule_of result ≡ files_rule }
    ensures local { result.global ≡ false }
{
    Arg::new(alloc, "files")
        .value_name("FILE")
        .help("Packet captures, SNMP walks and printed databases, recognized by their content")
        .required(true)
        .action(ArgAction::Append)
}

/// The files and the options that clap found.
fn named_files<'a>(alloc: Global, matches: &ArgMatches<'a>) -> Result<Options<'a>, AllocError>
    ensures { IfOk result (IsRead (found_of matches.now)) }
{
    Ok(Options {
        out: matches.get_str("out"),
        flushed: flushed_lsas(matches),
        against: values_found(alloc, matches, "against")?,
        files: values_found(alloc, matches, "files")?,
    })
}

/// What becomes of flushed LSAs: they are kept where the option is given.
fn flushed_lsas(matches: &ArgMatches<'_>) -> FlushedLsas
    ensures { result
        ≡ kept_where (count_of (codes "keep-flushed") (rows_of (found_of matches.now))) }
{
    if matches.get_count("keep-flushed") == 0 {
        FlushedLsas::LeftOut
    } else {
        FlushedLsas::Kept
    }
}
