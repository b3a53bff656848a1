//! Pieces of what routers print.

/// FRR's `show ip ospf database` in a stub area: of each table the first rows.
pub(super) const STUB_AREA: &[u8] = b"\n       OSPF Router with ID (6.6.6.6)\n\n                \
    Router Link States (Area 0.0.0.2 [Stub])\n\n\
    Link ID         ADV Router      Age  Seq#       CkSum  Link count\n\
    1.1.1.1        1.1.1.1           33 0x80000004 0xe7fd 2\n\n                \
    Summary Link States (Area 0.0.0.2 [Stub])\n\n\
    Link ID         ADV Router      Age  Seq#       CkSum  Route\n\
    10.1.0.0       2.2.2.2         3600 0x80000002 0xb465 10.1.0.0/30\n\n\n";

/// FRR's tables of an ordinary area and of AS scope.
pub(in crate::tests) const TABLES: &[u8] =
    b"       OSPF Router with ID (10.255.0.1)\n\n                \
    Area-Local Opaque-LSA (Area 0.0.0.0)\n\n\
    Opaque-Type/Id  ADV Router      Age  Seq#       CkSum\n\
    4.0.0.0        10.255.0.3       165 0x80000001 0x31be\n\n                \
    AS External Link States\n\n\
    Link ID         ADV Router      Age  Seq#       CkSum  Route\n\
    10.91.0.0      10.255.0.5        34 0x80000001 0x84c3 E2 10.91.0.0/16 [0x1]\n";

/// BIRD's `show ospf lsadb`: of each section the first rows.
pub(super) const SECTIONS: &[u8] = b"BIRD 2.0.12 ready.\n\nGlobal\n\n \
    Type   LS ID           Router          Sequence   Age  Checksum\n \
    0005  0.0.0.0         3.3.3.3          80000001    31    eccf\n\nArea 0.0.0.1\n\n \
    Type   LS ID           Router          Sequence   Age  Checksum\n \
    0003  192.168.0.0     1.1.1.1          80000001    30    ffe5\n \
    0001  1.1.1.1         1.1.1.1          80000003    29    46bb\n";

/// The dump of a backbone with one summary-LSA: 10.1.0.0, of 1.1.1.1, with the LS sequence number
/// 80000001 and the LS checksum 1136.
pub(in crate::tests) const DUMP: &[u8] = b"OSWP\x01\x01\0\0\0\0\0\0\x01\0\x17\x02\x03\x0a\x01\0\0\
    \x01\x01\x01\x01\x80\0\0\x01\x11\x36\0\x1c\xff\xff\xff\xfc\0\0\0\x0a\0\0";

/// The same with the LSA at LS age 3600.
pub(super) const FLUSHED_DUMP: &[u8] = b"OSWP\x01\x01\0\0\0\0\0\0\x01\x0e\x10\x02\x03\x0a\x01\0\0\
    \x01\x01\x01\x01\x80\0\0\x01\x11\x36\0\x1c\xff\xff\xff\xfc\0\0\0\x0a\0\0";

/// FRR's `show ip ospf database router`: the first lines.
pub(super) const WHOLE_LSA: &[u8] = b"\n       OSPF Router with ID (1.1.1.1)\n\n\n                \
    Router Link States (Area 0.0.0.0)\n\n  LS age: 17\n  \
    Options: 0x2  : *|-|-|-|-|-|E|-\n  LS Flags: 0x3  \n  Flags: 0x1 : ABR\n  \
    LS Type: router-LSA\n";

/// The table of FRR and the section of BIRD of opaque LSAs of a link.
pub(super) const OF_LINKS: &[u8] = b"                Link-Local Opaque-LSA (Area 0.0.0.0)\n\n\
    Opaque-Type/Id  ADV Router      Age  Seq#       CkSum\n\
    3.0.0.1        10.255.0.3       165 0x80000001 0x31be\n\nLink eth0\n\n \
    Type   LS ID           Router          Sequence   Age  Checksum\n \
    0009  3.0.0.1         10.255.0.3       80000001   165    31be\n";
