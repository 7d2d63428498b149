//! Where a law begins: what the records before its first one have left, but for their transactions.
ghost use Rattle.std.specs.Prelude.{◌≡◌, IfOk};

use redo_dict::Dict;
use redo_spec::Header;
use rl_value::{NoMemory, Scn};

/// Where a law begins. No transaction is open there; up to record `known` it passes over the vectors of those whose
/// START stands before.
#[derive(Debug, Drop)]
pub struct LawStart {
    /// The log sequence number of the standby's first log, in which the dictionary stands.
    pub first: u32,
    /// The SCN before the first of the first log. It is kept for callers; no call of the law reads it.
    pub base: Scn,
    /// The dictionary that the records before have left.
    pub dict: Dict,
    /// The header of the log that holds record `rec`; None where `rec` is 0.
    pub head: Option<Header>,
    /// How many records stand before.
    pub rec: u64,
    /// The last record that may have a vector of a transaction whose START stands before.
    pub known: u64,
    /// The SCN of record `rec`; the base's where `rec` is 0. No later record has a lower one.
    pub scn: Scn,
    /// The SCN of the last COMMIT before; the base's where there is none. Each later COMMIT has a higher one.
    pub commit_scn: Scn,
}

impl LawStart {
    /// An equal one, which owns memory of its own.
    pub fn copy(&self) -> Result<LawStart, NoMemory>
        ensures equal { IfOk result (λ copy. copy ≡ self.now) }
    {
        Ok(LawStart {
            first: self.first,
            base: self.base,
            dict: self.dict.copy()?,
            head: self.head,
            rec: self.rec,
            known: self.known,
            scn: self.scn,
            commit_scn: self.commit_scn,
        })
    }
}
