//! Commands as clap reads them.

ghost use Rattle.std.specs.Prelude.{◌≡◌, false, IfOk};
ghost use Rattle.clap.specs.Words.{app_of, rule_of};
ghost use Rattle.host_arguments.specs.Commands.{flag_rule, named, value_rule};

use clap::{Arg, ArgAction, Command};
use std::alloc::{AllocError, Global};

/// What a command prints about itself.
#[derive(Clone, Copy, Debug)]
pub struct CommandTexts<'a> {
    /// What the program is, at the top of `--help`.
    pub about: &'a str,
    /// What `--version` prints after the name.
    pub version: &'a str,
    /// What `--help` has after the options.
    pub after_help: &'a str,
}

/// A command without arguments but for `--help` and `--version`. Its name in help and usage is this
/// one, whatever file it is run from.
///
/// # Errors
///
/// Memory ran out.
pub fn named_command<'a>(
    alloc: Global,
    name: &'a str,
    texts: CommandTexts<'a>,
) -> Result<Command<'a>, AllocError>
    ensures { IfOk result (λ command. app_of command ≡ named name.entry.now) }
{
    Ok(
        Command::new(alloc, name)
            .bin_name(name)?
            .about(texts.about)
            .version(texts.version)
            .after_help(texts.after_help),
    )
}

/// An option `--NAME VALUE`. With the action `Set` it may be given once, with `Append` again.
pub fn value_option<'a>(
    alloc: Global,
    name: &'a str,
    value: &'a str,
    help: &'a str,
    action: ArgAction,
) -> Arg<'a>
    ensures rule { rule_of result ≡ value_rule name.entry.now action }
    ensures local { result.global ≡ false }
{
    Arg::new(alloc, name)
        .long(name)
        .value_name(value)
        .help(help)
        .action(action)
}

/// An option `--NAME` without a value. It may be given again.
pub fn flag_option<'a>(alloc: Global, name: &'a str, help: &'a str) -> Arg<'a>
    ensures rule { rule_of result ≡ flag_rule name.entry.now }
    ensures local { result.global ≡ false }
{
    Arg::new(alloc, name)
        .long(name)
        .help(help)
        .action(ArgAction::Count)
}
