//! The words that a program is given, and those that clap found for an argument.

ghost use Rattle.std.specs.Prelude.{◌≡◌, IfErr, IfOk, map};
ghost use Rattle.clap.specs.Words.{found_of};
ghost use Rattle.host_arguments.specs.Commands.{values_in};
ghost use Rattle.host_arguments.specs.OptionsFaults.{IsWordFault};

use crate::fault::OptionsFault;
use clap::ArgMatches;
use std::alloc::{AllocError, Global};
use std::env;

/// The words of the command line, the program's name first.
///
/// # Errors
///
/// `NotText` for a word that is not UTF-8 text, and `OutOfMemory` where memory ran out.
pub fn words(rt: &HostRuntime) -> Result<Vec<String>, OptionsFault>
    ensures { IfErr result IsWordFault }
{
    Ok(env::args(rt)?.collect::<Vec<String>>(rt.alloc())?)
}

/// The words that clap found for an argument; none where it is not given.
///
/// # Errors
///
/// Memory ran out.
pub fn values_found<'a>(
    alloc: Global,
    matches: &ArgMatches<'a>,
    id: &str,
) -> Result<Vec<&'a str>, AllocError>
    ensures { IfOk result (λ names.
        map (λ name. name.now) names.items ≡ values_in (found_of matches.now) id.now) }
{
    match matches.get_strs(id) {
        None => Ok(Vec::new(alloc)),
        Some(words) => Vec::from_slice(alloc, words),
    }
}
