//! What a store keeps of a standby itself.
use rl_value::Scn;
use skip_guard::Level;

/// The database of a standby, where its redo begins, and how far its users are kept from writing.
#[derive(Clone, Copy, Debug, PartialEq, Eq)]
pub struct Identity {
    /// The database's id.
    pub dbid: u32,
    /// The sequence of the first log.
    pub first: u32,
    /// The SCN before the first log.
    pub base: Scn,
    /// The level of the guard.
    pub level: Level,
}
