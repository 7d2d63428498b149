//! Why bytes give no chunk.

/// `Memory` may come before `Bad` is known.
#[derive(Clone, Copy, Debug, PartialEq, Eq)]
pub enum ChunkFault {
    /// The bytes are not the spelling of a chunk.
    Bad,
    /// There is no memory.
    Memory,
}
