//! What the words of the command line ask for.
//!
//! The words are read in `words.rt`, by the grammar of `specs/Command.antt`.

/// What the words ask for.
#[derive(Clone, Copy, Debug)]
pub enum Command {
    /// The fold of the log with this sequence, which is at least 1.
    Fold(u32),
    /// A command that is not built yet: the words begin with `run`, `mine` or `load`.
    Later,
    /// The words are none of a command.
    Wrong,
}
