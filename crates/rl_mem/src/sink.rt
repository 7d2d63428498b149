//! A sink in memory, with a room that it takes when it is made.
//!
//! It has no twin that never fails, since a write has no answer for want of memory.

ghost use Rattle.std.specs.Prelude.{not, nat_lt, if◌then◌else◌, ◌&&◌, ◌≡◌, ◌↔◌, ◌⊎◌, ◌+◌, ◌<◌, ◌≤◌, [], length, List, ℕ, Some, true, IsTrue, IsErr, IfOk};
ghost use Rattle.std.specs.Io.{WritesAtMost};
ghost use Rattle.std.specs.Io.KnownBytes.{WriteAppends};
ghost use Rattle.rl_ports.specs.Faults.{HasCause, CountsNothing, NoneCounted, TookSome};
ghost use Rattle.rl_mem.specs.Calls.{after_call, after_fault, before_calls, fails_next};

use crate::calls::Calls;
use rl_ports::{Failed, Sink};
use rl_value::NoMemory;
use std::alloc::Global;
use std::marker::Model;

/// A sink that fails at the calls it is told to, and where a piece is larger than the room that is left.
#[derive(Debug, Drop)]
pub struct MemSink {
    bytes: Vec<u8>,
    room: usize,
    calls: Calls,
}

impl Model for MemSink {
    ghost use Rattle.std.specs.Prelude.{◌≤◌, length, vec_capacity};
    ghost use Rattle.rl_mem.specs.Devices.{SinkState};

    ghost Value = { SinkState };

    ghost view = { λ s. record { bytes = s.bytes.items; room = s.room; calls = s.calls } };

    ghost invariant = { λ s. (length s.bytes.items ≤ s.room) × (s.room ≤ vec_capacity s.bytes) };
}

impl MemSink {
    /// A sink with room for so many bytes. Its calls of these numbers fail, counted from 1.
    pub fn new(alloc: Global, room: usize, fails: Vec<u64>) -> Result<MemSink, NoMemory>
        ensures empty { IfOk result (λ sink. sink.bytes ≡ []) }
        ensures room { IfOk result (λ sink. sink.room ≡ room) }
        ensures calls { IfOk result (λ sink. sink.calls ≡ before_calls fails.items) }
    {
        match Vec::with_capacity(alloc, room) {
            Ok(bytes) => Ok(MemSink {
                bytes,
                room,
                calls: Calls::of(fails),
            }),
            Err(_) => Err(NoMemory),
        }
    }

    /// The bytes written. It takes no memory.
    pub fn bytes(&self) -> &[u8]
        ensures same { result.now ≡ self.now.bytes }
    {
        self.bytes.as_slice()
    }
}

impl Sink for MemSink {
    ghost written = { λ s. Some s.bytes };

    ghost counts_failures_alone = { true };

    ghost faults = { λ s. s.calls.faults };

    /// Takes the whole piece, or fails and takes nothing.
    fn write(&mut self, from: &[u8]) -> Result<usize, Failed>
        ensures fails { IsErr result ↔ (IsTrue (fails_next self.old.calls) ⊎
            (self.old.room < length self.old.bytes + length from.now)) }
        ensures whole { IfOk result (λ count. count ≡ length from.now) }
        ensures room { self.new.room ≡ self.old.room }
        ensures counted { self.new.calls ≡ (if not (fails_next self.old.calls) &&
            nat_lt self.old.room (length self.old.bytes + length from.now)
            then after_fault (after_call self.old.calls) else after_call self.old.calls) }
        ensures bound { WritesAtMost result from.now }
        ensures bytes { WriteAppends (Some self.old.bytes) (Some self.new.bytes) result from.now }
        ensures nothing { CountsNothing self.old.calls.faults self.new.calls.faults result from.now }
        ensures alone { IfOk result (λ count. TookSome from.now count →
            NoneCounted true self.old.calls.faults self.new.calls.faults) }
        ensures cause { HasCause self.old.calls.faults self.new.calls.faults result }
    {
        if self.calls.next() {
            return Err(Failed);
        }
        if from.len() > self.room - self.bytes.len() {
            self.calls.fault();
            return Err(Failed);
        }
        let Ok(()) = self.bytes.extend_from_slice(from) else {
            unreachable!()
        };
        Ok(from.len())
    }
}
