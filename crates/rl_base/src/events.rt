//! What happened last: a number and a line for each event, the last 100 of them.
//!
//! The room for all of them is taken when the ring is made, so that noting takes no memory.

ghost use Rattle.std.specs.Prelude.{◌≡◌, ◌+◌, ◌≤◌, ◌++◌, ℕ, List, length, IfOk, OnOk, IsTrue};
ghost use Rattle.circular_buffer.specs.Buffer.{buffer};
ghost use Rattle.std.specs.Map.Iter.{ShowsInOrder, deref};
ghost use Rattle.rl_base.specs.Events.{Noted, no_events, with_event, are_numbered};

use crate::line::Line;
use circular_buffer::{HeapCircularBuffer, Iter};
use rl_value::NoMemory;
use std::alloc::Global;
use std::marker::Model;

/// How many lines are kept.
pub const MAX_EVENTS: usize = 100;

/// Each line that is kept, with its number, the oldest first.
pub type EventLines<'a> = Iter<'a, (u64, Line)>;

/// The last events. To a contract it is how many were noted, and the lines that are kept with their numbers.
#[derive(Drop)]
pub struct Events {
    count: u64,
    ring: HeapCircularBuffer<(u64, Line)>,
}

impl Model for Events {
    ghost use Rattle.std.specs.Prelude.{◌≡◌, IsTrue};
    ghost use Rattle.rl_base.specs.Events.{Noted, are_numbered};

    ghost Value = { Noted };

    ghost view = { λ e. record { count = e.count; lines = e.ring.items } };

    ghost invariant = { λ e. (e.ring.capacity ≡ 100) × IsTrue (are_numbered e.count e.ring.items) };
}

impl Events {
    /// No event so far.
    pub fn new(alloc: Global) -> Result<Events, NoMemory>
        ensures empty { IfOk result (λ events. events ≡ no_events) }
    {
        match HeapCircularBuffer::with_capacity(alloc, MAX_EVENTS) {
            Ok(ring) => Ok(Events { count: 0, ring }),
            Err(_) => Err(NoMemory),
        }
    }

    /// Notes a line under the next number, from 1. Of more than 100 the oldest is dropped. It takes no memory.
    pub fn note(&mut self, line: Line)
        ensures noted { self.new ≡ with_event line self.old }
    {
        self.count = self.count.saturating_add(1);
        let _ = self.ring.push_back((self.count, line));
    }

    /// The lines that are kept, with their numbers, which rise by one.
    pub fn lines(&self) -> EventLines<'_>
        ensures same { result ≡ self.now.lines }
        ensures numbered { IsTrue (are_numbered self.now.count self.now.lines) }
        ensures in_order { ShowsInOrder (deref {X = ℕ × List ℕ}) }
    {
        self.ring.iter()
    }

    /// An equal one, which owns memory of its own.
    pub fn copy(&self) -> Result<Events, NoMemory>
        ensures equal { IfOk result (λ events. events ≡ self.now) }
    {
        let room = self.ring.capacity();
        let Ok(mut ring) = HeapCircularBuffer::with_capacity(*self.ring.allocator(), room) else {
            return Err(NoMemory);
        };
        let (older, newer) = self.ring.as_slices();
        put_copies(&mut ring, older)?;
        put_copies(&mut ring, newer)?;
        Ok(Events {
            count: self.count,
            ring,
        })
    }
}

// Puts copies of these events behind those that are there. The ring has room for them.
fn put_copies(
    ring: &mut HeapCircularBuffer<(u64, Line)>,
    events: &[(u64, Line)],
) -> Result<(), NoMemory>
    requires room { length ring.old.items + length events.now ≤ ring.old.capacity }
    ensures put { OnOk result (ring.new ≡ buffer (ring.old.items ++ events.now) ring.old.capacity) }
{
    for event in events {
        let line = event.1.copy()?;
        let _ = ring.push_back((event.0, line));
    }
    Ok(())
}
