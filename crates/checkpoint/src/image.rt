//! What is loaded from a store.
ghost use Rattle.std.specs.Prelude.{◌≡◌, IfOk};

use log_registry::Registry;
use rl_value::{NoMemory, Scn};
use skip_guard::{Level, Skips};
use standby_spec::Mark;
use table_store::Tables;

/// A kept state as it was loaded. Its rows lie in tables that a snapshot costs nothing of, each once.
#[derive(Drop)]
pub struct Image {
    /// The database's id.
    pub dbid: u32,
    /// The sequence of the first log.
    pub first: u32,
    /// The SCN before the first log.
    pub base: Scn,
    /// The level of the guard.
    pub level: Level,
    /// The registered logs.
    pub logs: Registry,
    /// The skip rules, in the order of their numbers.
    pub skips: Skips,
    /// The tables of the dictionary, which is whole, with their rows.
    pub tables: Tables,
    /// How many commits are applied.
    pub n: u64,
    /// The SCN of the last of them.
    pub scn: Scn,
    /// The mark, where one is kept, at the count of the state.
    pub mark: Option<Mark>,
}

impl Image {
    /// An equal one, which shares the blocks of the rows.
    pub fn copy(&self) -> Result<Image, NoMemory>
        ensures equal { IfOk result (λ image. image ≡ self.now) }
    {
        let logs = self.logs.copy()?;
        let skips = self.skips.copy()?;
        let tables = self.tables.snapshot()?;
        Ok(Image {
            dbid: self.dbid,
            first: self.first,
            base: self.base,
            level: self.level,
            logs,
            skips,
            tables,
            n: self.n,
            scn: self.scn,
            mark: self.mark,
        })
    }
}

/// What is loaded from a store.
#[derive(Drop)]
pub enum Loaded {
    /// A kept state.
    Image(Image),
    /// Nothing is kept.
    Fresh,
}

impl Loaded {
    /// An equal one, which shares the blocks of the rows.
    pub fn copy(&self) -> Result<Loaded, NoMemory>
        ensures equal { IfOk result (λ loaded. loaded ≡ self.now) }
    {
        match self {
            Loaded::Image(image) => Ok(Loaded::Image(image.copy()?)),
            Loaded::Fresh => Ok(Loaded::Fresh),
        }
    }
}
