//! The one commit of the durable store that a call makes.
ghost use Rattle.std.specs.Prelude.{◌≡◌, None, IsTrue};
ghost use Rattle.rl_ports.specs.Store.{have_keys};
ghost use Rattle.standby_spec.specs.Publishing.{StoreAfter, CountsAfter, is_failed};
ghost use Rattle.publisher.specs.Endings.{ending_of, kept_of, Refuses};

use crate::fault::PubFault;
use rl_ports::{Batch, Keeper, PortFault};

// The answer of the store, as that of a call.
fn kept(done: Result<(), PortFault>) -> Result<(), PubFault>
    ensures exact { result ≡ kept_of done }
{
    match done {
        Ok(()) => Ok(()),
        Err(PortFault::Failed) => Err(PubFault::KeeperFault),
        Err(PortFault::Memory) => Err(PubFault::Memory),
    }
}

/// Does the items of the batch, all or none. It is refused for the store's own reasons alone.
pub(crate) fn keep<K: Keeper>(keeper: &mut K, batch: &Batch) -> Result<(), PubFault>
    requires keys { IsTrue (have_keys batch.now) }
    ensures store { StoreAfter batch.now (ending_of result) (K.holds keeper.old) (K.holds keeper.new) }
    ensures count { CountsAfter K.counts_failures_alone (ending_of result) (K.faults keeper.old) (K.faults keeper.new) }
    ensures refused { Refuses None result }
{
    let done = keeper.commit(batch);
    kept(done)
}

/// Whether the commit of the store failed.
pub(crate) fn has_failed(kept: &Result<(), PubFault>) -> bool
    ensures exact { result ≡ is_failed (ending_of kept.now) }
{
    match kept {
        Ok(()) => false,
        Err(PubFault::KeeperFault) => true,
        Err(PubFault::NotNext(_) | PubFault::Early(_) | PubFault::RowLimit) => false,
        Err(PubFault::Exists | PubFault::Taken | PubFault::Twice) => false,
        Err(PubFault::Limit | PubFault::Memory) => false,
    }
}
