//! Keepers over pairs in memory.
//!
//! A commit copies its batch and takes room for all of its rows first, so that nothing of it is done where memory
//! wants.

ghost use Rattle.std.specs.Prelude.{◌≡◌, ◌<◌, ◌^◌, ◌⊎◌, [], Some, true, refl, IsTrue, IsErr, IsErrOf, IfOk, OnOk, OnErr, if◌then◌else◌};
ghost use Rattle.std.specs.Option.{option_map};
ghost use Rattle.rl_ports.specs.Faults.{HasPortCause, NoneCounted, UnlessFailed};
ghost use Rattle.rl_ports.specs.Store.{is_store, have_keys, after_batch, next_pair};
ghost use Rattle.rl_mem.specs.Calls.{before_calls, fails_next, after_call, passed, UnlessMemory};

use crate::calls::Calls;
use crate::rows::{Row, do_items, pair_after};
use rl_ports::{Batch, Keeper, Pair, PortFault};
use rl_value::NoMemory;
use std::alloc::Global;

/// A keeper that never fails.
#[derive(Drop)]
pub struct SureKeeper {
    rows: Vec<Row>,
    ghost lawful: { IsTrue (is_store rows.items) },
}

impl SureKeeper {
    ghost use Rattle.rl_mem.specs.Keepers.{pairs_of};

    /// A keeper of no pairs. It takes no memory.
    pub fn new(alloc: Global) -> SureKeeper
        ensures empty { pairs_of result ≡ [] }
    {
        SureKeeper {
            rows: Vec::new(alloc),
        }
    }

    fn do_batch(&mut self, batch: &Batch) -> Result<(), NoMemory>
        requires keys { IsTrue (have_keys batch.now) }
        ensures done { OnOk result (pairs_of self.new ≡ after_batch batch.now (pairs_of self.old)) }
        ensures unchanged { OnErr result (pairs_of self.new ≡ pairs_of self.old) }
    {
        let items = batch.copy()?.into_items();
        if self.rows.reserve(items.len()).is_err() {
            return Err(NoMemory);
        }
        do_items(&mut self.rows, items);
        Ok(())
    }

    fn next_pair(&self, area: u8, key: &[u8]) -> Result<Option<Pair>, NoMemory>
        ensures { IfOk result (λ found. option_map (λ p. ((area, p.key), p.value)) found ≡
            next_pair area key.now (pairs_of self.now)) }
    {
        pair_after(&self.rows, area, key)
    }
}

impl Keeper for SureKeeper {
    ghost tells = { true };

    ghost holds = { λ k. Some k.rows.items };

    ghost counts_failures_alone = { true };

    ghost faults = { λ k. 0 };

    ghost telling = { λ k. refl };

    ghost lawful = { λ k. k.lawful };

    fn commit(&mut self, batch: &Batch) -> Result<(), PortFault> {
        match self.do_batch(batch) {
            Ok(()) => Ok(()),
            Err(NoMemory) => Err(PortFault::Memory),
        }
    }

    fn after(&mut self, area: u8, key: &[u8]) -> Result<Option<Pair>, PortFault> {
        match self.next_pair(area, key) {
            Ok(found) => Ok(found),
            Err(NoMemory) => Err(PortFault::Memory),
        }
    }
}

/// A keeper that fails at the calls it is told to.
#[derive(Drop)]
pub struct MemKeeper {
    keeper: SureKeeper,
    calls: Calls,
    keeps: bool,
}

impl MemKeeper {
    ghost use Rattle.rl_mem.specs.Keepers.{pairs_in, calls_of, keeps_of};

    /// A keeper of no pairs. Its calls of these numbers fail, counted from 1; a commit among them makes its change
    /// where `keeps` is true. It takes no memory.
    pub fn new(alloc: Global, fails: Vec<u64>, keeps: bool) -> MemKeeper
        ensures empty { pairs_in result ≡ [] }
        ensures calls { calls_of result ≡ before_calls fails.items }
        ensures keeps { keeps_of result ≡ keeps }
    {
        MemKeeper {
            keeper: SureKeeper::new(alloc),
            calls: Calls::of(fails),
            keeps,
        }
    }

    /// A commit that is told to fail. Want of memory for what it keeps is no failure.
    fn fail(&mut self, batch: &Batch) -> Result<(), PortFault>
        requires keys { IsTrue (have_keys batch.now) }
        requires named { IsTrue (fails_next (calls_of self.old)) }
        ensures refused { IsErr result }
        ensures kept { IsErrOf result PortFault.Failed →
            pairs_in self.new ≡ (if keeps_of self.old then after_batch batch.now (pairs_in self.old) else pairs_in self.old) }
        ensures memory { IsErrOf result PortFault.Memory → pairs_in self.new ≡ pairs_in self.old }
        ensures counted { UnlessMemory result (calls_of self.new ≡ after_call (calls_of self.old)) }
        ensures memory_counted { IsErrOf result PortFault.Memory → calls_of self.new ≡ passed (calls_of self.old) }
        ensures within { IsErrOf result PortFault.Failed → (calls_of self.old).faults < 2 ^ 64 }
        ensures keeps { keeps_of self.new ≡ keeps_of self.old }
    {
        if self.keeps && self.keeper.do_batch(batch).is_err() {
            self.calls.pass();
            return Err(PortFault::Memory);
        }
        let _ = self.calls.next();
        Err(PortFault::Failed)
    }
}

impl Keeper for MemKeeper {
    ghost use Rattle.rl_mem.specs.Keepers.{pairs_in, calls_of, keeps_of};

    ghost tells = { true };

    ghost holds = { λ k. Some k.keeper.rows.items };

    ghost counts_failures_alone = { true };

    ghost faults = { λ k. k.calls.faults };

    ghost telling = { λ k. refl };

    ghost lawful = { λ k. k.keeper.lawful };

    fn commit(&mut self, batch: &Batch) -> Result<(), PortFault>
        requires keys { IsTrue (have_keys batch.now) }
        ensures done { OnOk result (Some (pairs_in self.new) ≡ Some (after_batch batch.now (pairs_in self.old))) }
        ensures failed { IsErrOf result PortFault.Failed → (Some (pairs_in self.new) ≡ Some (pairs_in self.old)) ⊎
            (Some (pairs_in self.new) ≡ Some (after_batch batch.now (pairs_in self.old))) }
        ensures kept { IsErrOf result PortFault.Failed →
            pairs_in self.new ≡ (if keeps_of self.old then after_batch batch.now (pairs_in self.old) else pairs_in self.old) }
        ensures memory { IsErrOf result PortFault.Memory → Some (pairs_in self.new) ≡ Some (pairs_in self.old) }
        ensures fails_only_named { IsErrOf result PortFault.Failed → IsTrue (fails_next (calls_of self.old)) }
        ensures named_is_refused { IsTrue (fails_next (calls_of self.old)) → IsErr result }
        ensures counted { UnlessMemory result (calls_of self.new ≡ after_call (calls_of self.old)) }
        ensures memory_counted { IsErrOf result PortFault.Memory → calls_of self.new ≡ passed (calls_of self.old) }
        ensures keeps { keeps_of self.new ≡ keeps_of self.old }
        ensures alone { UnlessFailed result (NoneCounted true (calls_of self.old).faults (calls_of self.new).faults) }
        ensures cause { HasPortCause (calls_of self.old).faults (calls_of self.new).faults result }
    {
        if self.calls.fails_next() {
            return self.fail(batch);
        }
        self.calls.pass();
        match self.keeper.do_batch(batch) {
            Ok(()) => Ok(()),
            Err(NoMemory) => Err(PortFault::Memory),
        }
    }

    fn after(&mut self, area: u8, key: &[u8]) -> Result<Option<Pair>, PortFault>
        ensures next { IfOk result (λ found. option_map (λ p. ((area, p.key), p.value)) found ≡
            next_pair area key.now (pairs_in self.old)) }
        ensures same { Some (pairs_in self.new) ≡ Some (pairs_in self.old) }
        ensures fails_only_named { IsErrOf result PortFault.Failed → IsTrue (fails_next (calls_of self.old)) }
        ensures named_is_refused { IsTrue (fails_next (calls_of self.old)) → IsErrOf result PortFault.Failed }
        ensures counted { calls_of self.new ≡ after_call (calls_of self.old) }
        ensures keeps { keeps_of self.new ≡ keeps_of self.old }
        ensures alone { UnlessFailed result (NoneCounted true (calls_of self.old).faults (calls_of self.new).faults) }
        ensures cause { HasPortCause (calls_of self.old).faults (calls_of self.new).faults result }
    {
        if self.calls.next() {
            return Err(PortFault::Failed);
        }
        match self.keeper.next_pair(area, key) {
            Ok(found) => Ok(found),
            Err(NoMemory) => Err(PortFault::Memory),
        }
    }
}
