//! What paths to one destination are compared by.

/// The type of a path, the most preferred first (RFC 2328, 11).
#[derive(Clone, Copy, Debug, PartialEq, Eq, PartialOrd, Ord)]
pub enum PathType {
    /// Within one area.
    Intra,
    /// Into another area.
    Inter,
    /// Out of the AS, with a metric that is of the same kind as costs within the AS.
    Ext1,
    /// Out of the AS, with a metric that is larger than any cost within the AS.
    Ext2,
}

/// What paths to one destination are compared by, field by field; the least is the best (RFC 2328,
/// 11 and 16.4).
#[derive(Clone, Copy, Debug, PartialEq, Eq, PartialOrd, Ord)]
pub struct Rank {
    /// The type of the path.
    pub path: PathType,
    /// The type 2 metric, and 0 for paths of other types.
    pub cost2: u32,
    /// For external paths, 0 where the way leads through a non-backbone area alone, else 1 (RFC
    /// 2328, 16.4.1). For other paths, 0.
    pub class: u8,
    /// The cost, without a type 2 metric.
    pub cost: u64,
}
