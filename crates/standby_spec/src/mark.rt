//! The mark of a kept state.
use redo_reader::Place;

/// Where a run may begin again: a checkpoint. How it lies in a durable store stands in `specs/Layout`.
#[derive(Clone, Copy, Debug, PartialEq, Eq)]
pub struct Mark {
    /// The restart record: a run from the mark begins with record `q + 1`.
    pub q: u64,
    /// The mining record: the records up to it were built.
    pub m: u64,
    /// How many commits the first `q` records have.
    pub before: u64,
    /// The place behind record `q`.
    pub place: Place,
    /// The SCN of record `q`, or the base SCN.
    pub q_scn: u64,
    /// The SCN of record `m`, or the base SCN.
    pub m_scn: u64,
    /// The SCN of the last commit of the first `q` records, or the base SCN.
    pub commit_scn: u64,
    /// The count at which the mark was taken.
    pub n: u64,
}
