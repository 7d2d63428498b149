//! Why a call of the publisher that writes is refused.

/// Why a call is refused. Each call names those that it may answer, in the order in which they are told; `Memory` may come before
/// any of them.
#[derive(Clone, Copy, Debug, PartialEq, Eq)]
pub enum PubFault {
    /// The commit of the durable store failed, and the publisher is stopped.
    KeeperFault,
    /// The number of the commit is not the next one. How many commits are applied.
    NotNext(u64),
    /// The mark was taken at a later count. How many commits are applied.
    Early(u64),
    /// More than 2^20 rows would be live.
    RowLimit,
    /// A row with the same primary key is there.
    Exists,
    /// Another row has one of the row's unique values.
    Taken,
    /// An equal skip rule is there.
    Twice,
    /// 2^20 logs are registered, or 256 skip rules are there.
    Limit,
    /// There is no memory.
    Memory,
}

/// Why a group of commits is refused as a whole.
#[derive(Clone, Copy, Debug, PartialEq, Eq)]
pub enum GroupFault {
    /// The commit of the durable store failed, and the publisher is stopped.
    KeeperFault,
    /// The number of the first commit is not the next one. How many commits are applied.
    NotNext(u64),
    /// More than 2^20 rows would be live behind one of the commits. How many before that one may be published.
    RowLimitAfter(u64),
    /// There is no memory.
    Memory,
}
