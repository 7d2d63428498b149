//! The durable store: pairs that outlast the program.
//!
//! A keeper may tell its pairs, in order of area and key (specs/Store.antt). A commit is atomic: after a crash,
//! or where it failed, the store holds the pairs from before it or those after it, and nothing in between.

ghost use Rattle.std.specs.Prelude.{◌≡◌, ◌<◌, ◌⊎◌, ℕ, Option, Bool, IsTrue, is_some, IfOk, OnOk, Some, IsErrOf};
ghost use Rattle.std.specs.Option.{option_map};
ghost use Rattle.rl_ports.specs.Faults.{HasPortCause, NoneCounted, UnlessFailed, Told};
ghost use Rattle.rl_ports.specs.Store.{Store, is_store, have_keys, after_batch, next_pair};
ghost use Rattle.rl_ports.specs.declared.fault.PortFault.TheVariants.{Failed as PortFailed, Memory};

use crate::batch::{Batch, Pair};
use crate::fault::PortFault;

/// A store of pairs.
pub trait Keeper {
    /// Whether keepers of this type tell their pairs.
    ghost tells: { Bool };

    /// The pairs, where they are told.
    ghost holds: { Self → Option Store };

    /// Whether the count of devices of this type rises at failures alone.
    ghost counts_failures_alone: { Bool };

    /// How often a call failed.
    ghost faults: { Self → ℕ };

    /// Does the items of the batch in their order, all or none. After `Failed` it is not known which; after
    /// `Memory` none was done.
    fn commit(&mut self, batch: &Batch) -> Result<(), PortFault>
        requires keys { IsTrue (have_keys batch.now) }
        ensures done { Told (holds self.old) (λ old. OnOk result (holds self.new ≡ Some (after_batch batch.now old))) }
        ensures failed { Told (holds self.old) (λ old. IsErrOf result PortFailed → (holds self.new ≡ Some old) ⊎
            (holds self.new ≡ Some (after_batch batch.now old))) }
        ensures memory { IsErrOf result Memory → holds self.new ≡ holds self.old }
        ensures alone { UnlessFailed result (NoneCounted counts_failures_alone (faults self.old) (faults self.new)) }
        ensures cause { HasPortCause (faults self.old) (faults self.new) result };

    /// The pair of the least key of the area above this one, or None where there is none. Above the key of no
    /// bytes is every key.
    fn after(&mut self, area: u8, key: &[u8]) -> Result<Option<Pair>, PortFault>
        ensures next { Told (holds self.old) (λ old. IfOk result
            (λ found. option_map (λ p. ((area, p.key), p.value)) found ≡ next_pair area key.now old)) }
        ensures same { holds self.new ≡ holds self.old }
        ensures alone { UnlessFailed result (NoneCounted counts_failures_alone (faults self.old) (faults self.new)) }
        ensures cause { HasPortCause (faults self.old) (faults self.new) result };

    ghost telling: { (keeper : Self) → is_some (holds keeper) ≡ tells };

    ghost lawful: { (keeper : Self) → Told (holds keeper) (λ s. IsTrue (is_store s)) };
}
