//! Which view of a standby is asked for.

/// A view.
#[derive(Clone, Copy, Debug, PartialEq, Eq)]
pub enum Which {
    /// How far the redo is applied.
    Progress,
    /// The archived logs that are registered.
    Log,
    /// The guard, the counts, and how the last run ended.
    State,
    /// The skip rules.
    Skip,
    /// What happened last.
    Events,
}
