//! The fields of LSAs, in whatever form a router prints them, and the bytes that they make (RFC
//! 2328, A.4).

pub use crate::external::{External, external_bytes};
pub use crate::header::{
    AgeAndOptions, ChecksumAndLength, Header, Name, Origination, bytes_with_key, header_bytes,
};
pub use crate::ls_type::LsType;
pub use crate::router::{Link, LinkType, link_bytes};
pub use crate::summary::{Summary, summary_bytes};
