//! The header of an archived log.
/// What the first 40 bytes of a log say (docs/FORMATS.md).
#[derive(Clone, Copy, Debug, PartialEq, Eq)]
pub struct Header {
    /// The log sequence number.
    pub seq: u32,
    /// The database's id.
    pub dbid: u32,
    /// The least SCN that a record of the log may have.
    pub first: u64,
    /// The SCN that is above those of all its records, with which the next log begins.
    pub next: u64,
    /// How many records the log has.
    pub count: u32,
}
