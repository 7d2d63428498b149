//! The archived logs, each under its log sequence number.
//!
//! An archive may tell its logs. No call changes them.

ghost use Rattle.std.specs.Prelude.{◌≡◌, ◌<◌, List, ℕ, Option, Bool, is_some, length, IfOk, OnOk};
ghost use Rattle.std.specs.Option.{option_map};
ghost use Rattle.std.specs.Io.{ReadsAtMost};
ghost use Rattle.rl_ports.specs.Faults.{HasCause, NoneCounted, Told, ReadsFrom, ReadsNothing};

use crate::fault::Failed;

/// An archive of logs.
pub trait Archive {
    /// Whether archives of this type tell their logs.
    ghost tells: { Bool };

    /// The bytes of each log that is there, by its sequence, where they are told.
    ghost logs: { Self → Option (ℕ → Option (List ℕ)) };

    /// Whether the count of devices of this type rises at failures alone.
    ghost counts_failures_alone: { Bool };

    /// How often a call failed.
    ghost faults: { Self → ℕ };

    /// The length in bytes of the log of this sequence, or None where there is no such log.
    fn length(&mut self, seq: u32) -> Result<Option<u64>, Failed>
        ensures length { Told (logs self.old) (λ logs. IfOk result (λ found. found ≡ option_map length (logs seq))) }
        ensures same { logs self.new ≡ logs self.old }
        ensures alone { OnOk result (NoneCounted counts_failures_alone (faults self.old) (faults self.new)) }
        ensures cause { HasCause (faults self.old) (faults self.new) result };

    /// Copies bytes of a log from the offset `at` on to the front of `into`, and says how many. With room for one
    /// it gives 0 only at the log's end or past it; it may give fewer than there is room for before that.
    /// A log that is not there has no bytes, and reading it is no failure: so no caller can make an archive fail.
    fn read(&mut self, seq: u32, at: u64, into: &mut [u8]) -> Result<usize, Failed>
        ensures bound { ReadsAtMost result into.new }
        ensures bytes { Told (logs self.old) (λ logs. IfOk result (ReadsFrom (logs seq) at into.new)) }
        ensures absent { Told (logs self.old) (λ logs. ReadsNothing (logs seq) result (faults self.old) (faults self.new)) }
        ensures same { logs self.new ≡ logs self.old }
        ensures alone { OnOk result (NoneCounted counts_failures_alone (faults self.old) (faults self.new)) }
        ensures cause { HasCause (faults self.old) (faults self.new) result };

    ghost telling: { (archive : Self) → is_some (logs archive) ≡ tells };
}
