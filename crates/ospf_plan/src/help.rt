//! The texts of `--help` and `--version`.

use host_arguments::CommandTexts;

/// What the program prints about itself.
pub(crate) const TEXTS: CommandTexts<'static> = CommandTexts {
    about: ABOUT,
    version: VERSION,
    after_help: COMMANDS,
};

/// What the program is.
const ABOUT: &str = "A what-if planner for OSPF";

/// The version of the program, and the logic that it was proved in, as `rt version` prints it.
const VERSION: &str = "0.10.0, proved in the Rattle logic dac8208d650f15bf";

/// The commands of a script with their arguments, examples, where the manual is, and the exit
/// status.
const COMMANDS: &str = "Commands, each on a line of the script:
  cost AREA ROUTER LINK METRIC                set the metric of a link
  drop-link AREA ROUTER LINK                  remove a link
  fail-link AREA ROUTER NEIGHBOR              remove the point-to-point links of two routers
  fail-net AREA ADDRESS                       remove the transit network with this DR address
  fail-router ROUTER                          remove all LSAs of a router
  add-stub AREA ROUTER PREFIX METRIC          add a stub network to a router
  summary AREA ROUTER PREFIX METRIC           set the metric of a summary-LSA
  add-summary AREA ROUTER PREFIX METRIC       add a summary-LSA
  add-external ROUTER PREFIX TYPE METRIC FORWARD TAG
                                              add an AS-external-LSA
  drop-external ROUTER PREFIX                 remove an AS-external-LSA
  refresh                                     recalculate the metrics of the summary-LSAs
  undo COUNT                                  undo the last edits
  redo COUNT                                  redo edits that were undone
  table ROUTER                                show the routing table of a router
  tables                                      show the routing tables of all routers
  compare ROUTER                              show what has changed in the table of a router
  info                                        show counts of the database and of the edits

A command may be preceded by its branch, @0 to @7; without one it is for branch 0. Each branch is a
separate study of the loaded database. A line that begins with # is a comment.
AREA, ROUTER, NEIGHBOR, ADDRESS and FORWARD are written as 10.0.0.1, PREFIX as 10.2.0.0/16. LINK is
the position of a link in its router-LSA, counted from 1. TYPE is 1 or 2.

Without --script the script is standard input. It is read to its end before the first command is
carried out, so at a terminal end it with Ctrl-D.

Examples, on the sample and on a dump of your network:
  printf 'cost 0.0.0.0 1.1.1.1 1 65535\\ncompare 1.1.1.1\\n' | ospf-plan
  printf 'fail-link 0.0.0.0 1.1.1.1 2.2.2.2\\ncompare 1.1.1.1\\n' | ospf-plan --dump net.oswp

Manual: `man ospf-plan` explains each command, each reply and each code, such as E4 ZeroCost.
ospf-capture makes dumps from packet captures, SNMP walks and printed databases.

Exit status: 0 done, 2 command line refused, 3 dump refused, 4 a file failed, 5 no memory.";
