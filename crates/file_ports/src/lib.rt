//! The devices of a real system: logs and spilled chunks in files of the current folder, and the standard streams.
//!
//! They tell nothing of what they hold, since nothing can be proved of a file or a stream. Each counts its failures.
#![tactic(auto)]

mod archive;
mod sink;
mod source;
mod spill;

pub use archive::FileArchive;
pub use sink::StdSink;
pub use source::StdSource;
pub use spill::DirSpill;

#[cfg(test)]
mod tests;
