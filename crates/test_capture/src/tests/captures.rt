//! Small files made by hand, byte by byte, as the formats have them, and what is read of them.

mod pcap;
pub(super) mod pcapng;
mod reading;
