//! What a call has ready before the commit of the store.

use crate::next::Next;
use rl_ports::Batch;

/// The batch of the one commit of the store, and what is shown then.
#[derive(Drop)]
pub(crate) struct Prepared {
    pub(crate) next: Next,
    pub(crate) batch: Batch,
}
