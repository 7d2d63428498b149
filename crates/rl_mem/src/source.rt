//! Sources over bytes in memory.

ghost use Rattle.std.specs.Prelude.{◌≡◌, ◌↔◌, ◌<◌, List, ℕ, Some, true, IsTrue, IsErr, OnOk};
ghost use Rattle.std.specs.Io.{ReadsAtMost};
ghost use Rattle.std.specs.Io.KnownBytes.{ReadConsumes};
ghost use Rattle.rl_ports.specs.Faults.{HasCause, NoneCounted};
ghost use Rattle.rl_mem.specs.Calls.{before_calls, fails_next, after_call};

use crate::calls::Calls;
use crate::room::copy_front;
use rl_ports::{Failed, Source};
use std::marker::Model;

/// A source that never fails.
#[derive(Debug, Drop)]
pub struct SureSource {
    bytes: Vec<u8>,
    at: usize,
}

impl Model for SureSource {
    ghost use Rattle.std.specs.Prelude.{List, ℕ, ◌≤◌, length, drop};

    ghost Value = { List ℕ };

    ghost view = { λ s. drop s.at s.bytes.items };

    ghost invariant = { λ s. s.at ≤ length s.bytes.items };
}

impl SureSource {
    /// A source that has these bytes left.
    pub fn new(bytes: Vec<u8>) -> SureSource
        ensures left { result ≡ bytes.items }
    {
        SureSource { bytes, at: 0 }
    }
}

impl Source for SureSource {
    ghost left = { λ s. Some s };

    ghost counts_failures_alone = { true };

    ghost faults = { λ s. 0 };

    #[tactic(auto, using(crate::proofs::Maps::reads))]
    fn read(&mut self, into: &mut [u8]) -> Result<usize, Failed> {
        let (_, left) = self.bytes.split_at(self.at);
        let count = copy_front(left, into);
        self.at += count;
        Ok(count)
    }
}

/// A source that fails at the calls it is told to.
#[derive(Debug, Drop)]
pub struct MemSource {
    source: SureSource,
    calls: Calls,
}

impl Model for MemSource {
    ghost use Rattle.rl_mem.specs.Devices.{SourceState};

    ghost Value = { SourceState };

    ghost view = { λ s. record { bytes = s.source; calls = s.calls } };
}

impl MemSource {
    /// A source that has these bytes left. Its calls of these numbers fail, counted from 1.
    pub fn new(bytes: Vec<u8>, fails: Vec<u64>) -> MemSource
        ensures left { result.bytes ≡ bytes.items }
        ensures calls { result.calls ≡ before_calls fails.items }
    {
        MemSource {
            source: SureSource::new(bytes),
            calls: Calls::of(fails),
        }
    }
}

impl Source for MemSource {
    ghost left = { λ s. Some s.bytes };

    ghost counts_failures_alone = { true };

    ghost faults = { λ s. s.calls.faults };

    fn read(&mut self, into: &mut [u8]) -> Result<usize, Failed>
        ensures fails { IsErr result ↔ IsTrue (fails_next self.old.calls) }
        ensures counted { self.new.calls ≡ after_call self.old.calls }
        ensures bound { ReadsAtMost result into.new }
        ensures bytes { ReadConsumes (Some self.old.bytes) (Some self.new.bytes) result into.new }
        ensures alone { OnOk result (NoneCounted true self.old.calls.faults self.new.calls.faults) }
        ensures cause { HasCause self.old.calls.faults self.new.calls.faults result }
    {
        if self.calls.next() {
            return Err(Failed);
        }
        self.source.read(into)
    }
}
