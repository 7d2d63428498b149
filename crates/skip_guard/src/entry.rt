//! A skip rule, and the commit from which it counts.
ghost use Rattle.std.specs.Prelude.{◌≡◌, IfOk};

use crate::pattern::Pattern;
use rl_value::{NoMemory, Xid};

/// What a rule names.
#[derive(Debug, Drop)]
pub enum SkipRule {
    /// The tables whose SCHEMA.NAME the pattern matches.
    Tables(Pattern),
    /// Every transaction of this id, also a later one.
    Transaction(Xid),
}

impl SkipRule {
    /// An equal one, which owns memory of its own.
    pub fn copy(&self) -> Result<SkipRule, NoMemory>
        ensures equal { IfOk result (λ rule. rule ≡ self.now) }
    {
        match self {
            SkipRule::Tables(pattern) => Ok(SkipRule::Tables(pattern.copy()?)),
            SkipRule::Transaction(xid) => Ok(SkipRule::Transaction(*xid)),
        }
    }
}

/// A rule, and the number of commits that were applied when it was given: it counts from the next one on.
#[derive(Debug, Drop)]
pub struct SkipEntry {
    pub rule: SkipRule,
    pub from: u64,
}

impl SkipEntry {
    /// An equal one, which owns memory of its own.
    pub fn copy(&self) -> Result<SkipEntry, NoMemory>
        ensures equal { IfOk result (λ entry. entry ≡ self.now) }
    {
        Ok(SkipEntry {
            rule: self.rule.copy()?,
            from: self.from,
        })
    }
}

/// Why an entry is not taken. The variants stand in the order of their tests.
#[derive(Clone, Copy, Debug, PartialEq, Eq)]
pub enum SkipFault {
    /// An equal rule is there.
    Twice,
    /// 256 entries are there.
    Limit,
    /// Want of memory.
    Memory,
}
