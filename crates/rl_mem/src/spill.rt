//! Spill stores over chunks in memory.

ghost use Rattle.std.specs.Prelude.{◌≡◌, ◌↔◌, ◌<◌, [], List, ℕ, Some, true, refl, IsTrue, IsSome, IsErr, IsErrOf, OnOk, OnErr};
ghost use Rattle.std.specs.Option.{option_copied};
ghost use Rattle.rl_ports.specs.Faults.{HasCause, HasPortCause, NoneCounted, UnlessFailed};
ghost use Rattle.rl_ports.specs.Store.{chunk_of, with_chunk, without};
ghost use Rattle.rl_mem.specs.Calls.{before_calls, fails_next, after_call};

use crate::calls::Calls;
use rl_ports::{Failed, PortFault, Spill};
use rl_value::Bytes;
use std::alloc::Global;
use std::collections::BTreeMap;
use std::marker::Model;

/// A spill store that never fails.
#[derive(Drop)]
pub struct SureSpill {
    alloc: Global,
    chunks: BTreeMap<u64, Bytes>,
}

impl Model for SureSpill {
    ghost use Rattle.rl_mem.specs.Devices.{Numbered};

    ghost Value = { Numbered };

    ghost view = { λ s. s.chunks.entries };
}

impl SureSpill {
    /// A store of no chunks. It takes no memory.
    pub fn new(alloc: Global) -> SureSpill
        ensures empty { result ≡ [] }
    {
        SureSpill {
            alloc,
            chunks: BTreeMap::new(alloc),
        }
    }

    #[tactic(auto, using(crate::proofs::Maps::maps))]
    fn chunk(&self, id: u64) -> Option<&Bytes>
        ensures { option_copied result ≡ chunk_of self.now id }
    {
        self.chunks.get(&id)
    }
}

impl Spill for SureSpill {
    ghost tells = { true };

    ghost chunks = { λ s. Some s };

    ghost counts_failures_alone = { true };

    ghost faults = { λ s. 0 };

    ghost telling = { λ s. refl };

    #[tactic(auto, using(crate::proofs::Maps::maps))]
    fn put(&mut self, id: u64, bytes: &[u8]) -> Result<(), PortFault> {
        let Ok(bytes) = Vec::from_slice(self.alloc, bytes) else {
            return Err(PortFault::Memory);
        };
        match self.chunks.insert(id, Bytes::of(bytes)) {
            Ok(_) => Ok(()),
            Err(_) => Err(PortFault::Memory),
        }
    }

    fn get(&mut self, id: u64, into: &mut Vec<u8>) -> Result<(), PortFault> {
        let Some(chunk) = self.chunk(id) else {
            unreachable!()
        };
        into.clear();
        match into.extend_from_slice(chunk.bytes()) {
            Ok(()) => Ok(()),
            Err(_) => Err(PortFault::Memory),
        }
    }

    #[tactic(auto, using(crate::proofs::Maps::maps))]
    fn drop_id(&mut self, id: u64) -> Result<(), Failed> {
        // The ids differ from one another, so that one chunk goes.
        let _ = self.chunks.len();
        let _ = self.chunks.remove(&id);
        Ok(())
    }

    fn clear(&mut self) -> Result<(), Failed> {
        self.chunks.clear();
        Ok(())
    }
}

/// A spill store that fails at the calls it is told to.
#[derive(Drop)]
pub struct MemSpill {
    spill: SureSpill,
    calls: Calls,
}

impl Model for MemSpill {
    ghost use Rattle.rl_mem.specs.Devices.{NumberedState};

    ghost Value = { NumberedState };

    ghost view = { λ s. record { held = s.spill; calls = s.calls } };
}

impl MemSpill {
    /// A store of no chunks. Its calls of these numbers fail, counted from 1. It takes no memory.
    pub fn new(alloc: Global, fails: Vec<u64>) -> MemSpill
        ensures empty { result.held ≡ [] }
        ensures calls { result.calls ≡ before_calls fails.items }
    {
        MemSpill {
            spill: SureSpill::new(alloc),
            calls: Calls::of(fails),
        }
    }
}

impl Spill for MemSpill {
    ghost tells = { true };

    ghost chunks = { λ s. Some s.held };

    ghost counts_failures_alone = { true };

    ghost faults = { λ s. s.calls.faults };

    ghost telling = { λ s. refl };

    fn put(&mut self, id: u64, bytes: &[u8]) -> Result<(), PortFault>
        ensures fails { IsErrOf result PortFault.Failed ↔ IsTrue (fails_next self.old.calls) }
        ensures counted { self.new.calls ≡ after_call self.old.calls }
        ensures put { OnOk result (Some self.new.held ≡ Some (with_chunk id bytes.now self.old.held)) }
        ensures unchanged { OnErr result (Some self.new.held ≡ Some self.old.held) }
        ensures alone { UnlessFailed result (NoneCounted true self.old.calls.faults self.new.calls.faults) }
        ensures cause { HasPortCause self.old.calls.faults self.new.calls.faults result }
    {
        if self.calls.next() {
            return Err(PortFault::Failed);
        }
        self.spill.put(id, bytes)
    }

    fn get(&mut self, id: u64, into: &mut Vec<u8>) -> Result<(), PortFault>
        requires there { IsSome (chunk_of self.old.held id) }
        ensures fails { IsErrOf result PortFault.Failed ↔ IsTrue (fails_next self.old.calls) }
        ensures counted { self.new.calls ≡ after_call self.old.calls }
        ensures got { OnOk result (chunk_of self.old.held id ≡ Some into.new.items) }
        ensures same { Some self.new.held ≡ Some self.old.held }
        ensures alone { UnlessFailed result (NoneCounted true self.old.calls.faults self.new.calls.faults) }
        ensures cause { HasPortCause self.old.calls.faults self.new.calls.faults result }
    {
        if self.calls.next() {
            return Err(PortFault::Failed);
        }
        self.spill.get(id, into)
    }

    fn drop_id(&mut self, id: u64) -> Result<(), Failed>
        ensures fails { IsErr result ↔ IsTrue (fails_next self.old.calls) }
        ensures counted { self.new.calls ≡ after_call self.old.calls }
        ensures dropped { OnOk result (Some self.new.held ≡ Some (without id self.old.held)) }
        ensures unchanged { OnErr result (Some self.new.held ≡ Some self.old.held) }
        ensures alone { OnOk result (NoneCounted true self.old.calls.faults self.new.calls.faults) }
        ensures cause { HasCause self.old.calls.faults self.new.calls.faults result }
    {
        if self.calls.next() {
            return Err(Failed);
        }
        self.spill.drop_id(id)
    }

    fn clear(&mut self) -> Result<(), Failed>
        ensures fails { IsErr result ↔ IsTrue (fails_next self.old.calls) }
        ensures counted { self.new.calls ≡ after_call self.old.calls }
        ensures cleared { OnOk result (Some self.new.held ≡ Some []) }
        ensures unchanged { OnErr result (Some self.new.held ≡ Some self.old.held) }
        ensures alone { OnOk result (NoneCounted true self.old.calls.faults self.new.calls.faults) }
        ensures cause { HasCause self.old.calls.faults self.new.calls.faults result }
    {
        if self.calls.next() {
            return Err(Failed);
        }
        self.spill.clear()
    }
}
