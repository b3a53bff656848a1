//! Pieces of what routers print.

use lsa_codec::{Addr, Key, RouterId};

/// `show ip ospf database summary`: the first LSA of the backbone.
pub(super) const SUMMARY: &[u8] = b"\n       OSPF Router with ID (1.1.1.1)\n\n\n                \
    Summary Link States (Area 0.0.0.0)\n\n  LS age: 23\n  Options: 0x2  : *|-|-|-|-|-|E|-\n  \
    LS Flags: 0xb  \n  LS Type: summary-LSA\n  \
    Link State ID: 10.1.0.0 (summary Network Number)\n  Advertising Router: 1.1.1.1\n  \
    LS Seq Number: 80000001\n  Checksum: 0x1136\n  Length: 28\n\n  Network Mask: /30\n        \
    TOS: 0  Metric: 10\n\n";

/// Its bytes.
pub(super) const SUMMARY_BYTES: &[u8] = &[
    0, 23, 2, 3, 10, 1, 0, 0, 1, 1, 1, 1, 0x80, 0, 0, 1, 0x11, 0x36, 0, 28, 0xff, 0xff, 0xff, 0xfc,
    0, 0, 0, 10,
];

/// What names it.
pub(super) const SUMMARY_KEY: Key = Key {
    kind: 3,
    id: Addr(0x0a01_0000),
    adv: RouterId(0x0101_0101),
};

/// `show ip ospf database asbr-summary`, under the heading of a stub area.
pub(super) const ASBR: &[u8] =
    b"                ASBR-Summary Link States (Area 0.0.0.2 [Stub])\n\n  \
    LS age: 17\n  Options: 0x2  : *|-|-|-|-|-|E|-\n  LS Flags: 0xb  \n  LS Type: summary-LSA\n  \
    Link State ID: 4.4.4.4 (AS Boundary Router address)\n  Advertising Router: 1.1.1.1\n  \
    LS Seq Number: 80000001\n  Checksum: 0xea53\n  Length: 28\n\n  Network Mask: /0\n        \
    TOS: 0  Metric: 10\n";

/// Its bytes.
pub(super) const ASBR_BYTES: &[u8] = &[
    0, 17, 2, 4, 4, 4, 4, 4, 1, 1, 1, 1, 0x80, 0, 0, 1, 0xea, 0x53, 0, 28, 0, 0, 0, 0, 0, 0, 0, 10,
];

/// The same LSA as the first, with another metric and the checksum of the first.
pub(in crate::tests) const OTHER_METRIC: &[u8] =
    b"Summary Link States (Area 0.0.0.0)\n\n  LS age: 23\n  \
    Options: 0x2  : *|-|-|-|-|-|E|-\n  LS Flags: 0xb  \n  LS Type: summary-LSA\n  \
    Link State ID: 10.1.0.0 (summary Network Number)\n  Advertising Router: 1.1.1.1\n  \
    LS Seq Number: 80000001\n  Checksum: 0x1136\n  Length: 28\n\n  Network Mask: /30\n        \
    TOS: 0  Metric: 11\n\n";

/// `show ip ospf database router`: a router-LSA with links of the types 1 to 3.
pub(super) const ROUTER: &[u8] = b"                Router Link States (Area 0.0.0.0)\n\n  \
    LS age: 25\n  Options: 0x2  : *|-|-|-|-|-|E|-\n  LS Flags: 0x3  \n  Flags: 0x0\n  \
    LS Type: router-LSA\n  Link State ID: 1.1.1.1 \n  Advertising Router: 1.1.1.1\n  \
    LS Seq Number: 80000008\n  Checksum: 0x1ac9\n  Length: 72\n\n   Number of Links: 4\n\n    \
    Link connected to: a Transit Network\n     \
    (Link ID) Designated Router address: 192.168.1.1\n     \
    (Link Data) Router Interface address: 192.168.1.1\n      Number of TOS metrics: 0\n       \
    TOS 0 Metric: 10\n\n    Link connected to: another Router (point-to-point)\n     \
    (Link ID) Neighboring Router ID: 5.5.5.5\n     \
    (Link Data) Router Interface address: 10.0.0.10\n      Number of TOS metrics: 0\n       \
    TOS 0 Metric: 7\n\n    Link connected to: Stub Network\n     (Link ID) Net: 10.0.0.8\n     \
    (Link Data) Network Mask: 255.255.255.252\n      Number of TOS metrics: 0\n       \
    TOS 0 Metric: 7\n\n    Link connected to: Stub Network\n     (Link ID) Net: 10.1.1.0\n     \
    (Link Data) Network Mask: 255.255.255.0\n      Number of TOS metrics: 0\n       \
    TOS 0 Metric: 1\n\n\n";

/// Its bytes.
pub(super) const ROUTER_BYTES: &[u8] = &[
    0, 25, 2, 1, 1, 1, 1, 1, 1, 1, 1, 1, 0x80, 0, 0, 8, 0x1a, 0xc9, 0, 72, 0, 0, 0, 4, 192, 168, 1,
    1, 192, 168, 1, 1, 2, 0, 0, 10, 5, 5, 5, 5, 10, 0, 0, 10, 1, 0, 0, 7, 10, 0, 0, 8, 255, 255,
    255, 252, 3, 0, 0, 7, 10, 1, 1, 0, 255, 255, 255, 0, 3, 0, 0, 1,
];

/// The router-LSA of an area border router, under the heading of a stub area.
pub(super) const BORDER: &[u8] = b"Router Link States (Area 0.0.0.2 [Stub])\n\n  \
    LS age: 20\n  Options: 0x0  : *|-|-|-|-|-|-|-\n  LS Flags: 0x3  \n  Flags: 0x1 : ABR\n  \
    LS Type: router-LSA\n  Link State ID: 1.1.1.1 \n  Advertising Router: 1.1.1.1\n  \
    LS Seq Number: 80000004\n  Checksum: 0xe7fd\n  Length: 48\n\n   Number of Links: 2\n\n    \
    Link connected to: another Router (point-to-point)\n     \
    (Link ID) Neighboring Router ID: 7.7.7.7\n     \
    (Link Data) Router Interface address: 10.2.0.10\n      Number of TOS metrics: 0\n       \
    TOS 0 Metric: 9\n\n    Link connected to: Stub Network\n     (Link ID) Net: 10.2.0.8\n     \
    (Link Data) Network Mask: 255.255.255.252\n      Number of TOS metrics: 0\n       \
    TOS 0 Metric: 9\n\n\n";

/// Its bytes.
pub(super) const BORDER_BYTES: &[u8] = &[
    0, 20, 0, 1, 1, 1, 1, 1, 1, 1, 1, 1, 0x80, 0, 0, 4, 0xe7, 0xfd, 0, 48, 1, 0, 0, 2, 7, 7, 7, 7,
    10, 2, 0, 10, 1, 0, 0, 9, 10, 2, 0, 8, 255, 255, 255, 252, 3, 0, 0, 9,
];

/// `show ip ospf database network`.
pub(super) const NETWORK: &[u8] = b"                Net Link States (Area 0.0.0.1)\n\n  \
    LS age: 17\n  Options: 0x42 : *|O|-|-|-|-|E|-\n  LS Flags: 0x6  \n  LS Type: network-LSA\n  \
    Link State ID: 192.168.50.4 (address of Designated Router)\n  Advertising Router: 4.4.4.4\n  \
    LS Seq Number: 80000001\n  Checksum: 0xc67f\n  Length: 32\n\n  Network Mask: /24\n        \
    Attached Router: 4.4.4.4\n\n        Attached Router: 5.5.5.5\n\n\n";

/// Its bytes.
pub(super) const NETWORK_BYTES: &[u8] = &[
    0, 17, 0x42, 2, 192, 168, 50, 4, 4, 4, 4, 4, 0x80, 0, 0, 1, 0xc6, 0x7f, 0, 32, 255, 255, 255,
    0, 4, 4, 4, 4, 5, 5, 5, 5,
];

/// `show ip ospf database external`: one LSA with a metric of type 2 and a forwarding address, and
/// one with a metric of type 1.
pub(super) const EXTERNALS: &[u8] = b"                AS External Link States \n\n  \
    LS age: 24\n  Options: 0x2  : *|-|-|-|-|-|E|-\n  LS Flags: 0x6  \n  \
    LS Type: AS-external-LSA\n  \
    Link State ID: 10.94.0.255 (External Network Number)\n  Advertising Router: 4.4.4.4\n  \
    LS Seq Number: 80000001\n  Checksum: 0x6fef\n  Length: 36\n\n  Network Mask: /24\n        \
    Metric Type: 2 (Larger than any link state path)\n        TOS: 0\n        Metric: 9\n        \
    Forward Address: 192.168.50.77\n        External Route Tag: 9\n\n  \
    LS age: 24\n  Options: 0x2  : *|-|-|-|-|-|E|-\n  LS Flags: 0x6  \n  \
    LS Type: AS-external-LSA\n  \
    Link State ID: 10.91.0.0 (External Network Number)\n  Advertising Router: 3.3.3.3\n  \
    LS Seq Number: 80000001\n  Checksum: 0xc65a\n  Length: 36\n\n  Network Mask: /16\n        \
    Metric Type: 1\n        TOS: 0\n        Metric: 30\n        Forward Address: 0.0.0.0\n        \
    External Route Tag: 4242\n\n";

/// The bytes of the first.
pub(super) const TYPE_2_BYTES: &[u8] = &[
    0, 24, 2, 5, 10, 94, 0, 255, 4, 4, 4, 4, 0x80, 0, 0, 1, 0x6f, 0xef, 0, 36, 255, 255, 255, 0,
    0x80, 0, 0, 9, 192, 168, 50, 77, 0, 0, 0, 9,
];

/// The bytes of the second.
pub(super) const TYPE_1_BYTES: &[u8] = &[
    0, 24, 2, 5, 10, 91, 0, 0, 3, 3, 3, 3, 0x80, 0, 0, 1, 0xc6, 0x5a, 0, 36, 255, 255, 0, 0, 0, 0,
    0, 30, 0, 0, 0, 0, 0, 0, 0x10, 0x92,
];

/// `show ip ospf database opaque-area`.
pub(super) const OPAQUE: &[u8] = b"                Area-Local Opaque-LSA (Area 0.0.0.0)\n\n  \
    LS age: 171\n  Options: 0x42 : *|O|-|-|-|-|E|-\n  LS Flags: 0x6  \n  \
    LS Type: Area-Local Opaque-LSA\n  \
    Link State ID: 4.0.0.0 (Area-Local Opaque-Type/ID)\n  Advertising Router: 10.255.0.3\n";

/// Headings of tables that have no LSA, of a stub area, an NSSA and the backbone.
pub(super) const HEADINGS: &[u8] =
    b"Net Link States (Area 0.0.0.2 [Stub])\nNet Link States (Area 0.0.0.7 [NSSA])\n\
    Net Link States (Area 0.0.0.0)\n";
