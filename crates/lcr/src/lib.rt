//! Logical change records: changes with their positions in the redo, and chunks of them.
#![tactic(auto)]

mod change_record;
mod chunk;
mod chunk_form;
mod fault;
pub mod laws;
mod spilled;

pub use change_record::Lcr;
pub use chunk::Chunk;
pub use chunk_form::{MAX_CHUNK, is_chunk};
pub use fault::ChunkFault;
pub use spilled::{chunk_bytes, read_chunk};
