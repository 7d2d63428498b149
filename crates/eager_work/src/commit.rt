//! A commit that is handed to be published.
ghost use Rattle.std.specs.Prelude.{◌≡◌, IfOk};

use rl_value::{NoMemory, Scn, Xid};
use row_apply::Writes;

/// The next commit of the redo: its number, its SCN and its transaction, and what it leaves under each row key that it wrote.
#[derive(Debug, Drop)]
pub struct Commit {
    /// Its place among all commits of the redo, from 1.
    pub number: u64,
    pub scn: Scn,
    pub xid: Xid,
    pub writes: Writes,
}

impl Commit {
    /// An equal one, which owns memory of its own.
    pub fn copy(&self) -> Result<Commit, NoMemory>
        ensures equal { IfOk result (λ commit. commit ≡ self.now) }
    {
        let writes = self.writes.copy()?;
        Ok(Commit {
            number: self.number,
            scn: self.scn,
            xid: self.xid,
            writes,
        })
    }
}
