//! The spill store and the keeper of a caller whose commands call neither of them yet.
//!
//! They stand for files in `spill` and the durable store, which come with the commands that call them.
ghost use Rattle.std.specs.Prelude.{None, true, false, refl};

use rl_ports::{Batch, Failed, Keeper, Pair, PortFault, Spill};

/// Stores that take nothing for want of memory.
#[derive(Drop)]
pub struct Unused;

impl Spill for Unused {
    ghost tells = { false };

    ghost chunks = { λ _. None };

    ghost counts_failures_alone = { true };

    ghost faults = { λ _. 0 };

    ghost telling = { λ _. refl };

    fn put(&mut self, _id: u64, _bytes: &[u8]) -> Result<(), PortFault> {
        Err(PortFault::Memory)
    }

    fn get(&mut self, _id: u64, _into: &mut Vec<u8>) -> Result<(), PortFault> {
        Err(PortFault::Memory)
    }

    fn drop_id(&mut self, _id: u64) -> Result<(), Failed> {
        Ok(())
    }

    fn clear(&mut self) -> Result<(), Failed> {
        Ok(())
    }
}

impl Keeper for Unused {
    ghost tells = { false };

    ghost holds = { λ _. None };

    ghost counts_failures_alone = { true };

    ghost faults = { λ _. 0 };

    ghost telling = { λ _. refl };

    ghost lawful = { λ _. tt };

    fn commit(&mut self, _batch: &Batch) -> Result<(), PortFault> {
        Err(PortFault::Memory)
    }

    fn after(&mut self, _area: u8, _key: &[u8]) -> Result<Option<Pair>, PortFault> {
        Ok(None)
    }
}
