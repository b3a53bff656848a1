//! The texts of `--help` and `--version`.

use host_arguments::CommandTexts;

/// What the program prints about itself.
pub(crate) const TEXTS: CommandTexts<'static> = CommandTexts {
    about: ABOUT,
    version: VERSION,
    after_help: DETAILS,
};

/// What the program is.
const ABOUT: &str = "Makes a dump for ospf-plan from files that a network provides";

/// The version of the program, and the logic that it was proved in, as `rt version` prints it.
const VERSION: &str = "0.10.0, proved in the Rattle logic dac8208d650f15bf";

/// Where files come from, what is printed about them, an example, where the manual is, and the
/// exit status.
const DETAILS: &str = "Files that contain the LSAs of a network:
  an SNMP walk        snmpbulkwalk -v2c -c COMMUNITY -On -Ox ROUTER 1.3.6.1.2.1.14 > ROUTER.walk
  a packet capture    tcpdump -i INTERFACE -w LINK.pcap proto ospf
  a printed database  for type in router network summary asbr-summary external; do
                        vtysh -c \"show ip ospf database $type\"; done > ROUTER.txt
  the same in JSON    for type in router network summary asbr-summary external; do
                        vtysh -c \"show ip ospf database $type json\" > ROUTER.$type.json; done
Walks and captures contain the LSAs byte for byte. Printed LSAs are rebuilt from their fields, and
used only where they then have the printed length and checksum. JSON does not say which areas are
stub areas: where there is an area besides the backbone, name a file of another kind too.

The name - is standard input: what is compressed is read by zcat LINK.pcap.gz | ospf-capture -

Standard output has a line for each file: its kind and the number of its LSAs and areas; and lines
about opaque LSAs, which no table needs. Standard error has a line for each thing that is missing in
a file or cannot be used. Lines that begin with `database:` are about all files together. With
--against, lines that begin with the name of the list are about LSAs that the dump lacks, or has in
another instance. A list is what FRR prints for `show ip ospf database`, or BIRD for
`show ospf lsadb`.

The newest instance of each LSA goes into the dump. An LSA that was flushed and not announced again
is left out; with --keep-flushed it stays in the dump, at MaxAge, where no router uses it. The dump
replaces its file only once it is whole.

Example:
  ospf-capture --out net.oswp 1.1.1.1.walk r4-r5.pcap && ospf-plan --dump net.oswp

Manual: `man ospf-capture` explains each line and what to do about it.

Exit status: 0 done, 1 done, and something is missing, 2 command line refused, 3 a file refused,
4 a file failed, 5 no memory.";
