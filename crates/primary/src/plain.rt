//! Where a plain fold begins, and what it gives.
ghost use Rattle.std.specs.Prelude.{◌≡◌, List, [], IfOk};
ghost use Rattle.redo_spec.specs.History.{Entry};
ghost use Rattle.primary.specs.Starts.{IsStart, first_start};

use plain_store::PlainTables;
use redo_dict::Dict;
use redo_law::LawStart;
use rl_value::{NoMemory, Scn, Verdict};
use std::alloc::Global;

/// Where a fold begins.
#[derive(Drop)]
pub struct Plain {
    /// What the records before leave for judging the next one.
    pub law: LawStart,
    /// How many commits stand before. Commits are numbered over the whole redo.
    pub before: u64,
    /// How many commits the tables have. Those up to this number are counted and change nothing.
    pub n: u64,
    /// The SCN of the last commit that the tables have.
    pub scn: Scn,
    /// The rows after that commit. Until the dictionary is whole they wait for it.
    pub tables: PlainTables,
}

impl Plain {
    /// The start before the first record of a redo, over empty tables: its first log has this sequence and follows this
    /// SCN. It takes no memory yet.
    pub fn first(alloc: Global, first: u32, base: Scn) -> Plain
        ensures value { result ≡ first_start first base }
        ensures fits { (entries : List Entry) → IsStart result entries }
    {
        Plain::over(alloc, first, base, PlainTables::new(alloc))
    }

    /// The start before the first record of a redo, over rows that wait for its dictionary. It takes no memory yet.
    pub fn over(alloc: Global, first: u32, base: Scn, tables: PlainTables) -> Plain
        ensures value { result ≡ record (first_start first base) { tables = tables } }
        ensures fits { IsStart result [] }
    {
        Plain {
            law: LawStart {
                first,
                base,
                dict: Dict::new(alloc),
                head: None,
                rec: 0,
                known: 0,
                scn: base,
                commit_scn: base,
            },
            before: 0,
            n: 0,
            scn: base,
            tables,
        }
    }

    /// An equal start.
    pub fn copy(&self) -> Result<Plain, NoMemory>
        ensures equal { IfOk result (λ copy. copy ≡ self.now) }
    {
        Ok(Plain {
            law: self.law.copy()?,
            before: self.before,
            n: self.n,
            scn: self.scn,
            tables: self.tables.copy()?,
        })
    }
}

/// What a fold gives.
#[derive(Drop)]
pub struct Folded {
    /// The number of the last commit that was applied, or of the base where none was.
    pub n: u64,
    /// Its SCN.
    pub scn: Scn,
    /// The rows after it.
    pub tables: PlainTables,
    /// The dictionary that the records leave. The tables of the fold's end are named by it.
    pub dict: Dict,
    /// The dictionary was whole before the end, so that the rows are its tables. Else no table is shown, and the rows are those
    /// that waited.
    pub whole: bool,
    /// Why the fold goes no further.
    pub end: Verdict,
}

impl Folded {
    /// An equal one.
    pub fn copy(&self) -> Result<Folded, NoMemory>
        ensures equal { IfOk result (λ copy. copy ≡ self.now) }
    {
        Ok(Folded {
            n: self.n,
            scn: self.scn,
            tables: self.tables.copy()?,
            dict: self.dict.copy()?,
            whole: self.whole,
            end: self.end.copy()?,
        })
    }
}
