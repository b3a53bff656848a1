//! Pieces of what routers print in JSON, and the bytes that the same LSAs had on the links.

use lsa_codec::{Addr, Key, RouterId};

/// `show ip ospf database router json`: a router-LSA of a transit and a stub link.
pub(super) const ROUTER: &[u8] =
    b"{\"routerId\": \"1.1.1.1\", \"routerLinkStates\": {\"areas\": {\"0.0.0.0\": [{\"lsaAge\": \
    17, \"options\": \"*|-|-|-|-|-|E|-\", \"lsaFlags\": 3, \"flags\": 1, \"abr\": true, \
    \"lsaType\": \"router-LSA\", \"linkStateId\": \"1.1.1.1\", \"advertisingRouter\": \
    \"1.1.1.1\", \"lsaSeqNumber\": \"80000007\", \"checksum\": \"1828\", \"length\": 48, \
    \"numOfLinks\": 2, \"routerLinks\": {\"link0\": {\"linkType\": \"a Transit Network\", \
    \"designatedRouterAddress\": \"192.168.0.1\", \"routerInterfaceAddress\": \"192.168.0.1\", \
    \"numOfTosMetrics\": 0, \"tos0Metric\": 10}, \"link1\": {\"linkType\": \"Stub Network\", \
    \"networkAddress\": \"10.10.1.0\", \"networkMask\": \"255.255.255.0\", \"numOfTosMetrics\": \
    0, \"tos0Metric\": 1}}}]}}}";

/// Its bytes.
pub(super) const ROUTER_BYTES: &[u8] = &[
    0, 17, 2, 1, 1, 1, 1, 1, 1, 1, 1, 1, 0x80, 0, 0, 7, 24, 40, 0, 48, 1, 0, 0, 2, 0xc0, 0xa8, 0,
    1, 0xc0, 0xa8, 0, 1, 2, 0, 0, 10, 10, 10, 1, 0, 0xff, 0xff, 0xff, 0, 3, 0, 0, 1,
];

/// A router-LSA of a point-to-point and a stub link.
pub(in crate::tests) const LINKS: &[u8] =
    b"{\"routerId\": \"1.1.1.1\", \"routerLinkStates\": {\"areas\": {\"0.0.0.1\": [{\"lsaAge\": \
    22, \"options\": \"*|-|-|-|-|-|E|-\", \"lsaFlags\": 3, \"flags\": 1, \"abr\": true, \
    \"lsaType\": \"router-LSA\", \"linkStateId\": \"1.1.1.1\", \"advertisingRouter\": \
    \"1.1.1.1\", \"lsaSeqNumber\": \"80000003\", \"checksum\": \"46bb\", \"length\": 48, \
    \"numOfLinks\": 2, \"routerLinks\": {\"link0\": {\"linkType\": \
    \"another Router (point-to-point)\", \"neighborRouterId\": \"4.4.4.4\", \
    \"routerInterfaceAddress\": \"10.1.0.1\", \"numOfTosMetrics\": 0, \"tos0Metric\": 10}, \
    \"link1\": {\"linkType\": \"Stub Network\", \"networkAddress\": \"10.1.0.0\", \
    \"networkMask\": \"255.255.255.252\", \"numOfTosMetrics\": 0, \"tos0Metric\": 10}}}]}}}";

/// Its bytes.
pub(in crate::tests) const LINKS_BYTES: &[u8] = &[
    0, 22, 2, 1, 1, 1, 1, 1, 1, 1, 1, 1, 0x80, 0, 0, 3, 70, 0xbb, 0, 48, 1, 0, 0, 2, 4, 4, 4, 4,
    10, 1, 0, 1, 1, 0, 0, 10, 10, 1, 0, 0, 0xff, 0xff, 0xff, 0xfc, 3, 0, 0, 10,
];

/// `show ip ospf database network json`, with the O bit.
pub(super) const NETWORK: &[u8] =
    b"{\"routerId\": \"1.1.1.1\", \"networkLinkStates\": {\"areas\": {\"0.0.0.1\": [{\"lsaAge\": \
    17, \"options\": \"*|O|-|-|-|-|E|-\", \"lsaFlags\": 6, \"lsaType\": \"network-LSA\", \
    \"linkStateId\": \"192.168.50.4\", \"advertisingRouter\": \"4.4.4.4\", \"lsaSeqNumber\": \
    \"80000001\", \"checksum\": \"c67f\", \"length\": 32, \"networkMask\": 24, \
    \"attchedRouters\": {\"4.4.4.4\": {\"attachedRouterId\": \"4.4.4.4\"}, \"5.5.5.5\": \
    {\"attachedRouterId\": \"5.5.5.5\"}}}]}}}";

/// Its bytes.
pub(super) const NETWORK_BYTES: &[u8] = &[
    0, 17, 66, 2, 0xc0, 0xa8, 50, 4, 4, 4, 4, 4, 0x80, 0, 0, 1, 0xc6, 127, 0, 32, 0xff, 0xff, 0xff,
    0, 4, 4, 4, 4, 5, 5, 5, 5,
];

/// `show ip ospf database summary json`.
pub(super) const SUMMARY: &[u8] =
    b"{\"routerId\": \"1.1.1.1\", \"summaryLinkStates\": {\"areas\": {\"0.0.0.0\": [{\"lsaAge\": \
    23, \"options\": \"*|-|-|-|-|-|E|-\", \"lsaFlags\": 11, \"lsaType\": \"summary-LSA\", \
    \"linkStateId\": \"10.1.0.0\", \"advertisingRouter\": \"1.1.1.1\", \"lsaSeqNumber\": \
    \"80000001\", \"checksum\": \"1136\", \"length\": 28, \"networkMask\": 30, \"tos0Metric\": \
    10}]}}}";

/// Its bytes.
pub(super) const SUMMARY_BYTES: &[u8] = &[
    0, 23, 2, 3, 10, 1, 0, 0, 1, 1, 1, 1, 0x80, 0, 0, 1, 17, 54, 0, 28, 0xff, 0xff, 0xff, 0xfc, 0,
    0, 0, 10,
];

/// `show ip ospf database asbr-summary json`, with three digits of the checksum.
pub(super) const ASBR: &[u8] =
    b"{\"routerId\": \"1.1.1.1\", \"asbrSummaryLinkStates\": {\"areas\": {\"0.0.0.0\": \
    [{\"lsaAge\": 15, \"options\": \"*|-|-|-|-|-|E|-\", \"lsaFlags\": 6, \"lsaType\": \
    \"summary-LSA\", \"linkStateId\": \"4.4.4.4\", \"advertisingRouter\": \"2.2.2.2\", \
    \"lsaSeqNumber\": \"80000001\", \"checksum\": \"e0c\", \"length\": 28, \"networkMask\": 0, \
    \"tos0Metric\": 42}]}}}";

/// Its bytes.
pub(super) const ASBR_BYTES: &[u8] = &[
    0, 15, 2, 4, 4, 4, 4, 4, 2, 2, 2, 2, 0x80, 0, 0, 1, 14, 12, 0, 28, 0, 0, 0, 0, 0, 0, 0, 42,
];

/// `show ip ospf database external json`: a metric of type 1.
pub(super) const TYPE_1: &[u8] =
    b"{\"routerId\": \"1.1.1.1\", \"asExternalLinkStates\": [{\"lsaAge\": 24, \"options\": \
    \"*|-|-|-|-|-|E|-\", \"lsaFlags\": 6, \"lsaType\": \"AS-external-LSA\", \"linkStateId\": \
    \"10.91.0.0\", \"advertisingRouter\": \"3.3.3.3\", \"lsaSeqNumber\": \"80000001\", \
    \"checksum\": \"c65a\", \"length\": 36, \"networkMask\": 16, \"metricType\": \"E1\", \
    \"tos\": 0, \"metric\": 30, \"forwardAddress\": \"0.0.0.0\", \"externalRouteTag\": 4242}]}";

/// Its bytes.
pub(super) const TYPE_1_BYTES: &[u8] = &[
    0, 24, 2, 5, 10, 91, 0, 0, 3, 3, 3, 3, 0x80, 0, 0, 1, 0xc6, 90, 0, 36, 0xff, 0xff, 0, 0, 0, 0,
    0, 30, 0, 0, 0, 0, 0, 0, 16, 0x92,
];

/// A metric of type 2, with a forwarding address.
pub(super) const TYPE_2: &[u8] =
    b"{\"routerId\": \"1.1.1.1\", \"asExternalLinkStates\": [{\"lsaAge\": 24, \"options\": \
    \"*|-|-|-|-|-|E|-\", \"lsaFlags\": 6, \"lsaType\": \"AS-external-LSA\", \"linkStateId\": \
    \"10.94.0.255\", \"advertisingRouter\": \"4.4.4.4\", \"lsaSeqNumber\": \"80000001\", \
    \"checksum\": \"6fef\", \"length\": 36, \"networkMask\": 24, \"metricType\": \
    \"E2 (Larger than any link state path)\", \"tos\": 0, \"metric\": 9, \"forwardAddress\": \
    \"192.168.50.77\", \"externalRouteTag\": 9}]}";

/// Its bytes.
pub(super) const TYPE_2_BYTES: &[u8] = &[
    0, 24, 2, 5, 10, 94, 0, 0xff, 4, 4, 4, 4, 0x80, 0, 0, 1, 111, 0xef, 0, 36, 0xff, 0xff, 0xff, 0,
    0x80, 0, 0, 9, 0xc0, 0xa8, 50, 77, 0, 0, 0, 9,
];

/// An opaque LSA of area scope: Router Information of 10.255.0.3.
pub(super) const OPAQUE: &[u8] =
    b"{\"routerId\": \"10.255.0.6\", \"areaLocalOpaqueLsa\": {\"areas\": {\"0.0.0.0\": [{ \
    \"lsaAge\": 201, \"options\": \"*|O|-|-|-|-|E|-\", \"lsaFlags\": 6, \"lsaType\": \
    \"Area-Local Opaque-LSA\", \"linkStateId\": \"4.0.0.0\", \"advertisingRouter\": \
    \"10.255.0.3\", \"lsaSeqNumber\": \"80000001\", \"checksum\": \"31be\", \"length\": 28, \
    \"opaqueType\": \
    \"Router Information LSA\", \"opaqueId\": 0, \"opaqueDataLength\": 8, \"opaqueData\": \
    \"0001000410000000\"}]}}}";

/// Its bytes.
pub(super) const OPAQUE_BYTES: &[u8] = &[
    0, 201, 0x42, 10, 4, 0, 0, 0, 10, 255, 0, 3, 0x80, 0, 0, 1, 0x31, 0xbe, 0, 28, 0, 1, 0, 4,
    0x10, 0, 0, 0,
];

/// The same with a byte less of its data.
pub(super) const OPAQUE_CUT: &[u8] =
    b"{\"routerId\": \"10.255.0.6\", \"areaLocalOpaqueLsa\": {\"areas\": {\"0.0.0.0\": [{ \
    \"lsaAge\": 201, \"options\": \"*|O|-|-|-|-|E|-\", \"lsaFlags\": 6, \"lsaType\": \
    \"Area-Local Opaque-LSA\", \"linkStateId\": \"4.0.0.0\", \"advertisingRouter\": \
    \"10.255.0.3\", \"lsaSeqNumber\": \"80000001\", \"checksum\": \"31be\", \"length\": 28, \
    \"opaqueType\": \
    \"Router Information LSA\", \"opaqueId\": 0, \"opaqueDataLength\": 8, \"opaqueData\": \
    \"00010004100000\"}]}}}";

/// The summary-LSA with another metric, and the checksum as before.
pub(super) const OTHER_METRIC: &[u8] =
    b"{\"routerId\": \"1.1.1.1\", \"summaryLinkStates\": {\"areas\": {\"0.0.0.0\": [{\"lsaAge\": \
    23, \"options\": \"*|-|-|-|-|-|E|-\", \"lsaFlags\": 11, \"lsaType\": \"summary-LSA\", \
    \"linkStateId\": \"10.1.0.0\", \"advertisingRouter\": \"1.1.1.1\", \"lsaSeqNumber\": \
    \"80000001\", \"checksum\": \"1136\", \"length\": 28, \"networkMask\": 30, \"tos0Metric\": \
    11}]}}}";

/// What names it.
pub(super) const SUMMARY_KEY: Key = Key {
    kind: 3,
    id: Addr(0x0a01_0000),
    adv: RouterId(0x0101_0101),
};

/// The summary-LSA in an area whose name is no address.
pub(super) const NO_AREA: &[u8] =
    b"{\"routerId\": \"1.1.1.1\", \"summaryLinkStates\": {\"areas\": {\"backbone\": [{\"lsaAge\": \
    23, \"options\": \"*|-|-|-|-|-|E|-\", \"lsaFlags\": 11, \"lsaType\": \"summary-LSA\", \
    \"linkStateId\": \"10.1.0.0\", \"advertisingRouter\": \"1.1.1.1\", \"lsaSeqNumber\": \
    \"80000001\", \"checksum\": \"1136\", \"length\": 28, \"networkMask\": 30, \"tos0Metric\": \
    10}]}}}";

/// The summary-LSA without its Link State ID, and an area that is no array.
pub(super) const UNREADABLE: &[u8] =
    b"{\"summaryLinkStates\": {\"areas\": {\"0.0.0.0\": [{\"lsaAge\": 23, \"options\": \
    \"*|-|-|-|-|-|E|-\", \"lsaFlags\": 11, \"lsaType\": \"summary-LSA\", \"advertisingRouter\": \
    \"1.1.1.1\", \"lsaSeqNumber\": \"80000001\", \"checksum\": \"1136\", \"length\": 28, \
    \"networkMask\": 30, \"tos0Metric\": 10}], \"0.0.0.1\": 7}}}";
