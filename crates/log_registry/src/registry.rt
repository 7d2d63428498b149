//! The registered logs, in order of their sequences.
ghost use Rattle.std.specs.Prelude.{◌≡◌, ◌+◌, ◌^◌, ◌==◌, if◌then◌else◌, ℕ, List, false, [], Option, None, Some, is_some, IfOk, OnOk, OnErr};
ghost use Rattle.log_registry.specs.Registered.{entry_of, entries_from, next_in, following_of, with_log, count_of, IsToldBy, AreToldBy, IsRising, AreBelow};

use crate::entry::LogEntry;
use crate::next::Next;
use rl_value::NoMemory;
use std::alloc::Global;
use std::collections::BTreeMap;
use std::collections::btree_map::Values;
use std::marker::Model;

/// The registered logs. To a contract they are the list of their entries, rising by sequence.
#[derive(Drop)]
pub struct Registry {
    logs: BTreeMap<u32, LogEntry>,
}

impl Model for Registry {
    ghost use Rattle.std.specs.Prelude.{List};
    ghost use Rattle.std.specs.Map.{values_of};
    ghost use Rattle.log_registry.specs.declared.entry.LogEntry.{LogEntry};
    ghost use Rattle.log_registry.specs.Keyed.{AreUnderSequences};

    ghost Value = { List LogEntry };

    ghost view = { λ r. values_of r.logs.entries };

    // Each under its own sequence.
    ghost invariant = { λ r. AreUnderSequences r.logs.entries };
}

impl Registry {
    /// No log. It takes no memory yet.
    pub fn new(alloc: Global) -> Registry
        ensures empty { result ≡ [] }
    {
        Registry {
            logs: BTreeMap::new(alloc),
        }
    }

    /// Whether the log of this sequence is registered.
    pub fn has(&self, seq: u32) -> bool
        ensures there { result ≡ is_some (entry_of seq self.now) }
        // So `insert` may be called.
        ensures absent { result ≡ false → entry_of seq self.now ≡ None }
    {
        self.logs.contains_key(&seq)
    }

    /// Registers a log.
    pub fn insert(&mut self, entry: LogEntry) -> Result<(), NoMemory>
        requires new { entry_of entry.head.seq self.old ≡ None }
        ensures with { OnOk result (self.new ≡ with_log entry self.old) }
        // It is there, and the others are as they were.
        ensures found { OnOk result ((seq : ℕ) → entry_of seq self.new ≡
            (if entry.head.seq == seq then Some entry else entry_of seq self.old)) }
        ensures rising { IsRising self.new }
        // Of an archive's logs the list stays one, and its records are counted together.
        ensures archived { (logs : ℕ → Option (List ℕ)) → AreToldBy logs self.old → IsToldBy logs entry →
            OnOk result (AreToldBy logs self.new) }
        ensures count { OnOk result (count_of self.new ≡ entry.head.count + count_of self.old) }
        ensures unchanged { OnErr result (self.new ≡ self.old) }
    {
        match self.logs.insert(entry.head.seq, entry) {
            Ok(_) => Ok(()),
            Err(_) => Err(NoMemory),
        }
    }

    /// The log of this sequence, or what stands in its place. It takes logarithmic time.
    pub fn next(&self, seq: u32) -> Next<'_>
        ensures exact { following_of result ≡ next_in seq (entries_from seq self.now) }
        ensures rising { IsRising self.now }
        ensures fits { AreBelow (2 ^ 32) self.now }
    {
        let mut later = self.logs.range(seq..);
        match later.next() {
            None => Next::End,
            Some((found, entry)) => {
                if *found == seq {
                    return Next::Log(entry);
                }
                Next::Gap {
                    low: seq,
                    high: *found - 1,
                }
            }
        }
    }

    /// The logs in order of their sequences.
    pub fn entries(&self) -> LogList<'_>
        ensures all { result ≡ self.now }
        ensures rising { IsRising self.now }
    {
        LogList {
            entries: self.logs.values(),
        }
    }

    /// The same logs again.
    pub fn copy(&self) -> Result<Registry, NoMemory>
        ensures equal { IfOk result (λ copy. copy ≡ self.now) }
    {
        match self.logs.clone() {
            Ok(logs) => Ok(Registry { logs }),
            Err(_) => Err(NoMemory),
        }
    }
}

/// The registered logs in order of their sequences. It is seen as the list of those that are left.
#[derive(Drop)]
pub struct LogList<'a> {
    entries: Values<'a, u32, LogEntry>,
}

impl<'a> Model for LogList<'a> {
    ghost use Rattle.std.specs.Prelude.{List};
    ghost use Rattle.log_registry.specs.declared.entry.LogEntry.{LogEntry};

    ghost Value = { List LogEntry };

    ghost view = { λ l. l.entries };
}

impl<'a> Iterator for LogList<'a> {
    type Item = &'a LogEntry;

    ghost use Rattle.std.specs.Prelude.{length};
    ghost use Rattle.std.specs.Iterator.{at_most};
    ghost use Rattle.std.specs.Map.Iter.{TakesFirst, deref};

    ghost next_gives = { TakesFirst deref };

    ghost remaining = { λ s. at_most (length s) };

    fn next(&mut self) -> Option<&'a LogEntry> {
        self.entries.next()
    }
}
