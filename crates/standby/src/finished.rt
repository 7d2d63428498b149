//! What a command over the archive alone leaves.
use rl_base::Status;
use rl_ports::Archive;

/// How a command ended, and the archive that it was lent.
#[derive(Drop)]
pub struct Finished<A: Archive> {
    pub status: Status,
    pub archive: A,
}
