//! Which registered log comes next.
use crate::entry::LogEntry;

/// The log of a sequence, or what stands in its place.
#[derive(Clone, Copy, Debug)]
pub enum Next<'a> {
    /// The log of this sequence.
    Log(&'a LogEntry),
    /// Neither this sequence nor a greater one is there.
    End,
    /// Missing logs: the sequences `low` to `high`, both included. The log behind them is there.
    Gap { low: u32, high: u32 },
}
