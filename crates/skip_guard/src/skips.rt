//! The skip rules of a standby, in the order in which they were given.
ghost use Rattle.std.specs.Prelude.{◌≡◌, ◌≤◌, ◌∷◌, ◌++◌, [], map, length, IsTrue, IfOk, OnOk, OnErr, IfErr, false, ◌<◌};
ghost use Rattle.rl_value.specs.declared.pos.Pos.{Pos};
ghost use Rattle.redo_spec.specs.Dictionary.{table_of};
ghost use Rattle.redo_spec.specs.Skips.{skips_table, is_skipped, has_rule as has_equal};
ghost use Rattle.skip_guard.specs.Rules.{skip_of, rule_of, are_skips, TakesRule};

use crate::entry::{SkipEntry, SkipFault};
use crate::naming::{has_rule, names_table, names_xid};
use redo_dict::Dict;
use redo_vec::Change;
use rl_value::NoMemory;
use std::alloc::Global;
use std::marker::Model;

/// The most entries.
pub const MAX_SKIPS: usize = 256;

/// Skip rules. No two of them are equal, and there are at most 256.
#[derive(Debug, Drop)]
pub struct Skips {
    entries: Vec<SkipEntry>,
}

impl Model for Skips {
    ghost use Rattle.std.specs.Prelude.{List, IsTrue, map};
    ghost use Rattle.redo_spec.specs.Skips.{Skip};

    ghost Value = { List Skip };

    ghost use Rattle.skip_guard.specs.Rules.{skip_of, are_skips};

    ghost view = { λ s. map skip_of s.entries.items };

    ghost invariant = { λ s. IsTrue (are_skips (map skip_of s.entries.items)) };
}

impl Skips {
    /// No rule. It takes no memory yet.
    pub fn new(alloc: Global) -> Skips
        ensures empty { result ≡ [] }
    {
        Skips {
            entries: Vec::new(alloc),
        }
    }

    /// Takes one more entry, behind the others. Where it is refused, it comes back and the others stay as they were.
    pub fn add(&mut self, entry: SkipEntry) -> Result<(), (SkipFault, SkipEntry)>
        ensures added { OnOk result (self.new ≡ self.old ++ skip_of entry ∷ []) }
        ensures exact { TakesRule self.old entry result }
        ensures unchanged { OnErr result (self.new ≡ self.old) }
    {
        if has_rule(self.entries.as_slice(), &entry.rule) {
            return Err((SkipFault::Twice, entry));
        }
        if self.entries.len() >= MAX_SKIPS {
            return Err((SkipFault::Limit, entry));
        }
        match push_entry(&mut self.entries, entry) {
            Ok(()) => Ok(()),
            Err(entry) => Err((SkipFault::Memory, entry)),
        }
    }

    /// The entries, in the order in which they were given.
    pub fn entries(&self) -> &[SkipEntry]
        ensures form { IsTrue (are_skips self.now) }
        ensures same { map skip_of result.now ≡ self.now }
    {
        self.entries.as_slice()
    }

    /// Whether the dictionary has the table and an entry that counts after `at` commits names it. A table that is there
    /// and is not skipped is maintained.
    pub fn table_skipped(&self, dict: &Dict, table: u32, at: u64) -> bool
        ensures exact { result ≡ skips_table self.now at (table_of dict.now.tables table) }
    {
        match dict.def(table) {
            None => false,
            Some(found) => names_table(self.entries.as_slice(), at, found),
        }
    }

    /// Whether the change of the commit after the first `at` is passed over: an entry that counts there names its
    /// table or its transaction.
    pub fn skipped(&self, dict: &Dict, change: &Change, at: u64) -> bool
        ensures exact { (pos : Pos) → result ≡ is_skipped self.now dict.now.tables at (pos, change.now) }
    {
        names_xid(self.entries.as_slice(), at, change.xid)
            || self.table_skipped(dict, change.table, at)
    }

    /// Equal rules.
    pub fn copy(&self) -> Result<Skips, NoMemory>
        ensures equal { IfOk result (λ skips. skips ≡ self.now) }
    {
        match copied(&self.entries) {
            Ok(entries) => Ok(Skips { entries }),
            Err(NoMemory) => Err(NoMemory),
        }
    }
}

// Puts an entry behind the others. Where memory is refused it comes back, and the others stay as they were.
#[tactic(auto, using(crate::proofs::EntryLaws::skips_with, crate::proofs::EntryLaws::map_with))]
fn push_entry(entries: &mut Vec<SkipEntry>, entry: SkipEntry) -> Result<(), SkipEntry>
    requires form { IsTrue (are_skips (map skip_of entries.old.items)) }
    requires new { has_equal (map skip_of entries.old.items) (rule_of entry.rule) ≡ false }
    requires room { length entries.old.items < 256 }
    ensures added { OnOk result (map skip_of entries.new.items ≡ map skip_of entries.old.items ++ skip_of entry ∷ []) }
    ensures form { OnOk result (IsTrue (are_skips (map skip_of entries.new.items))) }
    ensures unchanged { OnErr result (entries.new.items ≡ entries.old.items) }
    ensures back { IfErr result (λ back. back ≡ entry) }
{
    match entries.push(entry) {
        Ok(()) => Ok(()),
        Err(failed) => Err(failed.value),
    }
}

fn copied(entries: &Vec<SkipEntry>) -> Result<Vec<SkipEntry>, NoMemory>
    ensures { IfOk result (λ copies. copies.items ≡ entries.now.items) }
{
    let Ok(mut copies) = Vec::with_capacity(*entries.allocator(), entries.len()) else {
        return Err(NoMemory);
    };
    for entry in entries {
        let entry = entry.copy()?;
        if copies.push(entry).is_err() {
            return Err(NoMemory);
        }
    }
    Ok(copies)
}
