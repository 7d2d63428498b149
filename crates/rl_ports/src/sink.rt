//! What is written to: the program's output.
//!
//! A sink may tell the bytes written. A write that is refused adds none.

ghost use Rattle.std.specs.Prelude.{◌<◌, List, ℕ, Option, Bool, IfOk};
ghost use Rattle.std.specs.Io.{WritesAtMost};
ghost use Rattle.std.specs.Io.KnownBytes.{WriteAppends};
ghost use Rattle.rl_ports.specs.Faults.{HasCause, CountsNothing, NoneCounted, TookSome};

use crate::fault::Failed;

/// A sink of bytes.
pub trait Sink {
    /// The bytes written, where they are told.
    ghost written: { Self → Option (List ℕ) };

    /// Whether the count of devices of this type rises at failures alone.
    ghost counts_failures_alone: { Bool };

    /// How often a call failed, or took nothing of a piece that had a byte.
    ghost faults: { Self → ℕ };

    /// Writes bytes from the front of `from`, and says how many. It may take fewer than there are. Where it takes
    /// none of a piece that has one, that is a fault and the count rises, though the answer is `Ok(0)`.
    fn write(&mut self, from: &[u8]) -> Result<usize, Failed>
        ensures bound { WritesAtMost result from.now }
        ensures bytes { WriteAppends (written self.old) (written self.new) result from.now }
        ensures nothing { CountsNothing (faults self.old) (faults self.new) result from.now }
        ensures alone { IfOk result (λ count. TookSome from.now count →
            NoneCounted counts_failures_alone (faults self.old) (faults self.new)) }
        ensures cause { HasCause (faults self.old) (faults self.new) result };
}
