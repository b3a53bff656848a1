//! Pieces of walks of the router 1.1.1.1.

use lsa_codec::{Addr, Key, RouterId};

/// `snmpbulkwalk -On -Ox`: ospfLsdbAdvertisement of 192.168.50.4 of 4.4.4.4, in area 0.0.0.1.
pub(super) const NUMERIC: &[u8] = b".1.3.6.1.2.1.14.4.1.8.0.0.0.1.2.192.168.50.4.4.4.4.4 = \
    Hex-STRING: 00 01 02 02 C0 A8 32 04 04 04 04 04 80 00 00 01 \n\
    14 7E 00 20 FF FF FF 00 02 02 02 02 04 04 04 04 \n";

/// Its bytes.
pub(super) const NETWORK: &[u8] = &[
    0x00, 0x01, 0x02, 0x02, 0xc0, 0xa8, 0x32, 0x04, 4, 4, 4, 4, 0x80, 0, 0, 1, 0x14, 0x7e, 0, 0x20,
    0xff, 0xff, 0xff, 0, 2, 2, 2, 2, 4, 4, 4, 4,
];

/// With no MIB files: ospfExtLsdbAdvertisement of 10.98.0.255 of 3.3.3.3.
pub(super) const DEFAULT: &[u8] = b"iso.3.6.1.2.1.14.12.1.7.5.10.98.0.255.3.3.3.3 = \
    Hex-STRING: 00 04 02 05 0A 62 00 FF 03 03 03 03 80 00 00 01 \n\
    CB 85 00 24 FF FF FF 00 80 00 00 08 00 00 00 00 \n00 00 00 01 \n";

/// Its bytes.
pub(super) const EXTERNAL: &[u8] = &[
    0x00, 0x04, 0x02, 0x05, 0x0a, 0x62, 0, 0xff, 3, 3, 3, 3, 0x80, 0, 0, 1, 0xcb, 0x85, 0, 0x24,
    0xff, 0xff, 0xff, 0, 0x80, 0, 0, 8, 0, 0, 0, 0, 0, 0, 0, 1,
];

/// The key of that LSA.
pub(super) const EXTERNAL_KEY: Key = Key {
    kind: 5,
    id: Addr(0x0a62_00ff),
    adv: RouterId(0x0303_0303),
};

/// The same object as `snmpbulkwalk -m OSPF-MIB` prints it.
pub(super) const NAMED: &[u8] =
    b"OSPF-MIB::ospfExtLsdbAdvertisement.asExternalLink.10.98.0.255.3.3.3.3 = \
    Hex-STRING: 00 04 02 05 0A 62 00 FF 03 03 03 03 80 00 00 01 \n\
    CB 85 00 24 FF FF FF 00 80 00 00 08 00 00 00 00 \n00 00 00 01 \n";

/// ospfImportAsExtern of an ordinary area and of a stub area, by number and by word.
pub(super) const KINDS: &[u8] = b".1.3.6.1.2.1.14.2.1.3.0.0.0.1 = INTEGER: 1\n\
    OSPF-MIB::ospfImportAsExtern.0.0.0.2 = INTEGER: importNoExternal(2)\n";

/// ospfLsdbSequence and ospfLsdbChecksum alone, of 192.168.0.1 of 1.1.1.1.
pub(super) const CUT_ROW: &[u8] =
    b".1.3.6.1.2.1.14.4.1.5.0.0.0.0.2.192.168.0.1.1.1.1.1 = INTEGER: 33554560\n\
    .1.3.6.1.2.1.14.4.1.7.0.0.0.0.2.192.168.0.1.1.1.1.1 = INTEGER: 54266\n";

/// A walk of both LSAs. Its router counts one LSA of area 0.0.0.1 and one AS-external-LSA.
pub(super) const COUNTED: &[u8] = b".1.3.6.1.2.1.14.1.6.0 = Gauge32: 1\n\
    .1.3.6.1.2.1.14.2.1.7.0.0.0.1 = Gauge32: 1\n\
    .1.3.6.1.2.1.14.4.1.8.0.0.0.1.2.192.168.50.4.4.4.4.4 = \
    Hex-STRING: 00 01 02 02 C0 A8 32 04 04 04 04 04 80 00 00 01 \n\
    14 7E 00 20 FF FF FF 00 02 02 02 02 04 04 04 04 \n\
    .1.3.6.1.2.1.14.12.1.7.5.10.98.0.255.3.3.3.3 = \
    Hex-STRING: 00 04 02 05 0A 62 00 FF 03 03 03 03 80 00 00 01 \n\
    CB 85 00 24 FF FF FF 00 80 00 00 08 00 00 00 00 \n00 00 00 01 \n";

/// The same where it counts 22 LSAs of the area, 18 of another one, and 8 AS-external-LSAs.
pub(super) const FEWER: &[u8] = b"OSPF-MIB::ospfExternLsaCount.0 = Gauge32: 8\n\
    OSPF-MIB::ospfAreaLsaCount.0.0.0.1 = Gauge32: 22\n\
    OSPF-MIB::ospfAreaLsaCount.0.0.0.2 = Gauge32: 18\n\
    .1.3.6.1.2.1.14.4.1.8.0.0.0.1.2.192.168.50.4.4.4.4.4 = \
    Hex-STRING: 00 01 02 02 C0 A8 32 04 04 04 04 04 80 00 00 01 \n\
    14 7E 00 20 FF FF FF 00 02 02 02 02 04 04 04 04 \n\
    .1.3.6.1.2.1.14.12.1.7.5.10.98.0.255.3.3.3.3 = \
    Hex-STRING: 00 04 02 05 0A 62 00 FF 03 03 03 03 80 00 00 01 \n\
    CB 85 00 24 FF FF FF 00 80 00 00 08 00 00 00 00 \n00 00 00 01 \n";

/// The bytes of 10.98.0.255 under the index of 10.98.0.0.
pub(super) const OTHER_INDEX: &[u8] = b".1.3.6.1.2.1.14.12.1.7.5.10.98.0.0.3.3.3.3 = \
    Hex-STRING: 00 04 02 05 0A 62 00 FF 03 03 03 03 80 00 00 01 \n\
    CB 85 00 24 FF FF FF 00 80 00 00 08 00 00 00 00 \n00 00 00 01 \n";

/// The last line of a walk by a community that sees nothing but the OSPF-MIB.
pub(super) const END_OF_VIEW: &[u8] =
    b".1.3.6.1.2.1.14.12.1.7.5.10.98.0.255.3.3.3.3 = No more variables left in this MIB View \
    (It is past the end of the MIB tree)\n";
