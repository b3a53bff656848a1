//! The texts of `--help` and `--version`.

use host_arguments::CommandTexts;

/// What the program prints about itself.
pub(crate) const TEXTS: CommandTexts<'static> = CommandTexts {
    about: ABOUT,
    version: VERSION,
    after_help: DETAILS,
};

/// What the program is.
const ABOUT: &str = "Studies what a change does to a network of OSPF routers";

/// The version of the program, and the logic that it was proved in, as `rt version` prints it.
const VERSION: &str = "0.10.0, proved in the Rattle logic dac8208d650f15bf";

/// What the lines of studies are, an example, and the exit status.
const DETAILS: &str =
    "A study has a line for each command. All commands of ospf-plan are taken; these see what comes
of them, and `help` lists all of them with their arguments:
  routers, links, networks          what the database has
  routes ROUTER, path ROUTER ADDR   how packets go
  explain ROUTER PREFIX             why a route is what it is
  changes, differences, lost, gone  what differs from the baseline
  loops, microloops                 where packets would go round, also while routers change over
  sweep KIND                        what each single failure takes away
  audit                             what the answers may not be trusted for
  expect CONDITION                  says what must hold
A line may be preceded by its branch, @0 to @7. A line that begins with # is a comment. Names of a
names file stand for their addresses.

Standard output has the reply to each line, and as the last line the summary; with --format json
each is a JSON document. Standard error has a line FILE:LINE: for each line that is refused, and for
each expectation that does not hold. The run ends after the first of these, unless --keep-going is
given.

Example:
  printf 'fail-router 3.3.3.3\\nexpect lost none\\n' | ospf-study --dump net.oswp

Manual: `man ospf-study` explains each line.

Exit status: 0 each line accepted, 1 a line refused or an expectation failed, 2 command line
refused, 3 dump, baseline or names refused, 4 a file failed, 5 no memory.";
