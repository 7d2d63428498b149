//! What is kept of a log that was accepted.
use redo_wire::Header;

/// A registered log.
#[derive(Clone, Copy, Debug, PartialEq, Eq)]
pub struct LogEntry {
    pub head: Header,
    /// The whole log in bytes, as the archive gave it. The 40 bytes of the header count.
    pub length: u64,
}
