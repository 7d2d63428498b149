//! The tables that a job of work ahead of a commit reads.
ghost use Rattle.std.specs.Prelude.{◌≡◌, IfOk};

use rl_value::NoMemory;
use table_store::Tables;

/// The tables at a count, or that the count is too low for the job.
#[derive(Drop)]
pub enum Fetch {
    /// The tables behind the first `n` commits.
    Ready { n: u64, tables: Tables },
    /// Only `n` commits are applied, and the job needs the first `water` of them.
    Early { n: u64, water: u64 },
}

impl Fetch {
    /// An equal one, which shares the blocks of the tables.
    pub fn copy(&self) -> Result<Fetch, NoMemory>
        ensures equal { IfOk result (λ fetch. fetch ≡ self.now) }
    {
        match self {
            Fetch::Ready { n, tables } => {
                let tables = tables.snapshot()?;
                Ok(Fetch::Ready { n: *n, tables })
            }
            Fetch::Early { n, water } => Ok(Fetch::Early {
                n: *n,
                water: *water,
            }),
        }
    }
}
