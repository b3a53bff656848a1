//! Pieces of what one stub area of FRR routers was, 0.0.0.2, with the router-LSA of 1.1.1.1.

use crate::tests::parts::bytes;

/// A capture of the link between 7.7.7.7 and 1.1.1.1, two frames of it: a Hello packet, and from
/// byte 118 on a Link State Update packet with that LSA.
pub(in crate::tests) const CAPTURE: &[u8] = bytes!(
    [0xd4, 0xc3, 0xb2, 0xa1, 0x02, 0x00, 0x04, 0x00, 0x00, 0x00, 0x00, 0x00]
    [0x00, 0x00, 0x00, 0x00, 0x00, 0x00, 0x04, 0x00, 0x01, 0x00, 0x00, 0x00]
    [0x25, 0xa7, 0x03, 0x6b, 0x92, 0xb1, 0x09, 0x00, 0x4e, 0x00, 0x00, 0x00, 0x4e, 0x00, 0x00, 0x00]
    stub_hello
    [0x28, 0xa7, 0x03, 0x6b, 0x48, 0xb6, 0x09, 0x00, 0x6e, 0x00, 0x00, 0x00, 0x6e, 0x00, 0x00, 0x00]
    group [0xde, 0x9e, 0x2e, 0x42, 0x66, 0xc3, 0x08, 0x00]
    ipv4 [0x00, 0x60, 0xa7, 0x3e, 0x00, 0x00] [0x27, 0x36, 0x0a, 0x02, 0x00, 0x0a]
    [
        0x02, 0x04, 0x00, 0x4c, 0x01, 0x01, 0x01, 0x01, 0x00, 0x00, 0x00, 0x02, 0x68, 0x3d,
        0x00, 0x00, 0x00, 0x00, 0x00, 0x00, 0x00, 0x00, 0x00, 0x00, 0x00, 0x00, 0x00, 0x01
    ]
    router_lsa
);

/// What `snmpbulkwalk -On -Ox` prints of the same: the kind of the area, and the LSA.
pub(in crate::tests) const WALK: &[u8] = b".1.3.6.1.2.1.14.2.1.3.0.0.0.2 = INTEGER: 2\n\
    .1.3.6.1.2.1.14.4.1.8.0.0.0.2.1.1.1.1.1.1.1.1.1 = \
    Hex-STRING: 00 01 00 01 01 01 01 01 01 01 01 01 80 00 00 04 \n\
    E7 FD 00 30 01 00 00 02 07 07 07 07 0A 02 00 0A \n\
    01 00 00 09 0A 02 00 08 FF FF FF FC 03 00 00 09 \n";

/// What the FRR router 6.6.6.6 prints of the same, at LS age 33.
pub(in crate::tests) const TEXT: &[u8] = b"
       OSPF Router with ID (6.6.6.6)


                Router Link States (Area 0.0.0.2 [Stub])

  LS age: 33
  Options: 0x0  : *|-|-|-|-|-|-|-
  LS Flags: 0x6  
  Flags: 0x1 : ABR
  LS Type: router-LSA
  Link State ID: 1.1.1.1 
  Advertising Router: 1.1.1.1
  LS Seq Number: 80000004
  Checksum: 0xe7fd
  Length: 48

   Number of Links: 2

    Link connected to: another Router (point-to-point)
     (Link ID) Neighboring Router ID: 7.7.7.7
     (Link Data) Router Interface address: 10.2.0.10
      Number of TOS metrics: 0
       TOS 0 Metric: 9

    Link connected to: Stub Network
     (Link ID) Net: 10.2.0.8
     (Link Data) Network Mask: 255.255.255.252
      Number of TOS metrics: 0
       TOS 0 Metric: 9

";

/// The same LSA as that router prints it in JSON. No kind of an area is printed.
pub(in crate::tests) const JSON: &[u8] =
    b"{\"routerId\": \"6.6.6.6\", \"routerLinkStates\": {\"areas\": {\"0.0.0.2\": [{\"lsaAge\": \
    33, \"options\": \"*|-|-|-|-|-|-|-\", \"lsaFlags\": 6, \"flags\": 1, \"abr\": true, \
    \"lsaType\": \"router-LSA\", \"linkStateId\": \"1.1.1.1\", \"advertisingRouter\": \
    \"1.1.1.1\", \"lsaSeqNumber\": \"80000004\", \"checksum\": \"e7fd\", \"length\": 48, \
    \"numOfLinks\": 2, \"routerLinks\": {\"link0\": {\"linkType\": \
    \"another Router (point-to-point)\", \"neighborRouterId\": \"7.7.7.7\", \
    \"routerInterfaceAddress\": \"10.2.0.10\", \"numOfTosMetrics\": 0, \"tos0Metric\": 9}, \
    \"link1\": {\"linkType\": \"Stub Network\", \"networkAddress\": \"10.2.0.8\", \
    \"networkMask\": \"255.255.255.252\", \"numOfTosMetrics\": 0, \"tos0Metric\": 9}}}]}}}";

/// The dump of a database with this area and this LSA alone: `OSWP`, version 1, one area, its ID,
/// that it is a stub area, one LSA, its bytes, and no LSA of AS scope.
pub(super) const DUMP: &[u8] = bytes!(
    [0x4f, 0x53, 0x57, 0x50, 0x01, 0x01, 0x00, 0x00, 0x00, 0x02, 0x01, 0x00, 0x01]
    router_lsa
    [0x00, 0x00]
);
