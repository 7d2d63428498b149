//! What is read to its end: the program's input.
//!
//! A source may tell the bytes that are left. A read that is refused takes none of them.

ghost use Rattle.std.specs.Prelude.{◌<◌, List, ℕ, Option, Bool, OnOk};
ghost use Rattle.std.specs.Io.{ReadsAtMost};
ghost use Rattle.std.specs.Io.KnownBytes.{ReadConsumes};
ghost use Rattle.rl_ports.specs.Faults.{HasCause, NoneCounted};

use crate::fault::Failed;

/// A source of bytes.
pub trait Source {
    /// The bytes that are left, where they are told.
    ghost left: { Self → Option (List ℕ) };

    /// Whether the count of devices of this type rises at failures alone.
    ghost counts_failures_alone: { Bool };

    /// How often a call failed.
    ghost faults: { Self → ℕ };

    /// Moves bytes from the front of what is left to the front of `into`, and says how many. With room for one
    /// it gives 0 only where nothing is left; it may give fewer than there is room for before that.
    fn read(&mut self, into: &mut [u8]) -> Result<usize, Failed>
        ensures bound { ReadsAtMost result into.new }
        ensures bytes { ReadConsumes (left self.old) (left self.new) result into.new }
        ensures alone { OnOk result (NoneCounted counts_failures_alone (faults self.old) (faults self.new)) }
        ensures cause { HasCause (faults self.old) (faults self.new) result };
}
