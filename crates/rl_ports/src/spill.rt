//! The spill store: chunks of change records that are out of memory, each under an id.
//!
//! A store may tell its chunks. A refused call leaves them as they were. What lies in a store outlasts no run:
//! it is cleared before the first chunk is put.

ghost use Rattle.std.specs.Prelude.{◌≡◌, [], ◌<◌, ℕ, Option, Bool, is_some, IsSome, OnOk, OnErr, Some};
ghost use Rattle.rl_ports.specs.Faults.{HasCause, HasPortCause, NoneCounted, UnlessFailed, Told};
ghost use Rattle.rl_ports.specs.Store.{Chunks, chunk_of, with_chunk, without};

use crate::fault::{Failed, PortFault};

/// A store of chunks.
pub trait Spill {
    /// Whether stores of this type tell their chunks.
    ghost tells: { Bool };

    /// The chunks by their ids, in rising order, where they are told.
    ghost chunks: { Self → Option Chunks };

    /// Whether the count of devices of this type rises at failures alone.
    ghost counts_failures_alone: { Bool };

    /// How often a call failed.
    ghost faults: { Self → ℕ };

    /// Puts a chunk. One that lies under this id is lost.
    fn put(&mut self, id: u64, bytes: &[u8]) -> Result<(), PortFault>
        ensures put { Told (chunks self.old) (λ old. OnOk result (chunks self.new ≡ Some (with_chunk id bytes.now old))) }
        ensures unchanged { OnErr result (chunks self.new ≡ chunks self.old) }
        ensures alone { UnlessFailed result (NoneCounted counts_failures_alone (faults self.old) (faults self.new)) }
        ensures cause { HasPortCause (faults self.old) (faults self.new) result };

    /// Reads the chunk that was put under this id and not dropped since. Its bytes take the place of what `into`
    /// holds; after a refusal `into` may hold anything. Where a store that tells nothing has no such chunk, it gives no
    /// bytes, which is no failure.
    fn get(&mut self, id: u64, into: &mut Vec<u8>) -> Result<(), PortFault>
        requires there { Told (chunks self.old) (λ old. IsSome (chunk_of old id)) }
        ensures got { Told (chunks self.old) (λ old. OnOk result (chunk_of old id ≡ Some into.new.items)) }
        ensures same { chunks self.new ≡ chunks self.old }
        ensures alone { UnlessFailed result (NoneCounted counts_failures_alone (faults self.old) (faults self.new)) }
        ensures cause { HasPortCause (faults self.old) (faults self.new) result };

    /// Drops the chunk that lies under this id. Where there is none, nothing changes.
    fn drop_id(&mut self, id: u64) -> Result<(), Failed>
        ensures dropped { Told (chunks self.old) (λ old. OnOk result (chunks self.new ≡ Some (without id old))) }
        ensures unchanged { OnErr result (chunks self.new ≡ chunks self.old) }
        ensures alone { OnOk result (NoneCounted counts_failures_alone (faults self.old) (faults self.new)) }
        ensures cause { HasCause (faults self.old) (faults self.new) result };

    /// Drops all chunks.
    fn clear(&mut self) -> Result<(), Failed>
        ensures cleared { Told (chunks self.old) (λ _. OnOk result (chunks self.new ≡ Some [])) }
        ensures unchanged { OnErr result (chunks self.new ≡ chunks self.old) }
        ensures alone { OnOk result (NoneCounted counts_failures_alone (faults self.old) (faults self.new)) }
        ensures cause { HasCause (faults self.old) (faults self.new) result };

    ghost telling: { (spill : Self) → is_some (chunks spill) ≡ tells };
}
