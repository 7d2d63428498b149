//! The keeper over the file.
//!
//! The file is opened at the first call and stays open, so no second program can use it meanwhile. After an error the connection
//! and what was read ahead are dropped, and the next call opens the file anew: then it holds what the last commit left that was
//! made whole. Want of memory is no failure.
ghost use Rattle.std.specs.Prelude.{◌≡◌, None, true, false, refl, IfOk};

use crate::pair_table::{Block, OpensAt, PairTable};
use crate::reason::{Reason, reason_of};
use rl_ports::{Batch, Keeper, Pair, PortFault};
use rl_value::{Bytes, NoMemory};
use sqlite::{Connection, File, FileStore};

const PATH: &str = "standby.db";

// Pairs of an area that were read before they were asked for.
#[derive(Drop)]
struct Ahead {
    area: u8,
    // The key behind which they lie.
    last: Bytes,
    block: Block,
}

impl Ahead {
    // Whether what comes behind this key is known: a pair, or that there is none.
    fn knows(&self, area: u8, key: &[u8]) -> bool {
        self.area == area
            && self.last.bytes() == key
            && (self.block.whole || !self.block.pairs.is_empty())
    }
}

/// The pairs in `standby.db` of the current folder. `C` is the connection to it.
#[derive(Drop)]
pub struct SqliteKeeper<'r, R, C = Connection<FileStore<File>>> {
    rt: &'r R,
    conn: Option<C>,
    ahead: Option<Ahead>,
    reason: Option<Reason>,
    faults: u64,
}

// Opens the file, or makes it, and makes its table unless it is there.
fn open<C: OpensAt + PairTable + Drop>(rt: &HostRuntime) -> Result<C, Reason> {
    match C::open_at(rt, PATH) {
        Ok(mut conn) => {
            conn.make()?;
            Ok(conn)
        }
        Err(error) => Err(reason_of(error)),
    }
}

fn end<C: OpensAt>(conn: C) -> Result<(), Reason> {
    match conn.end() {
        Ok(()) => Ok(()),
        Err(error) => Err(reason_of(error)),
    }
}

impl<'r> SqliteKeeper<'r, HostRuntime> {
    /// Opens nothing yet.
    pub fn new(rt: &'r HostRuntime) -> Result<SqliteKeeper<'r, HostRuntime>, NoMemory>
        ensures unfailed { IfOk result (λ device. ⟦<SqliteKeeper<'r, HostRuntime> as Keeper>⟧.faults device ≡ 0) }
    {
        Ok(SqliteKeeper {
            rt,
            conn: None,
            ahead: None,
            reason: None,
            faults: 0,
        })
    }
}

impl<C: OpensAt + PairTable + Drop> SqliteKeeper<'_, HostRuntime, C> {
    /// Why the last call failed that did. None where none has failed.
    pub fn reason(&self) -> Option<Reason> {
        self.reason
    }

    /// Copies SQLite's log back into the file and closes it. Then the file alone holds what is kept. Where this fails, and where
    /// a keeper is dropped, the log stays beside the file and belongs to it; nothing is lost.
    pub fn close(self) -> Result<(), Reason> {
        let SqliteKeeper {
            rt: _,
            conn,
            ahead: _,
            reason: _,
            faults: _,
        } = self;
        match conn {
            Some(conn) => end(conn),
            None => Ok(()),
        }
    }

    // Takes the connection, which is opened unless it is.
    fn take_conn(&mut self) -> Result<C, Reason>
        ensures faults { self.new.faults ≡ self.old.faults }
    {
        match self.conn.take() {
            Some(conn) => Ok(conn),
            None => open(self.rt),
        }
    }

    fn do_batch(&mut self, batch: &Batch) -> Result<(), Reason>
        ensures faults { self.new.faults ≡ self.old.faults }
    {
        self.ahead = None;
        let mut conn = self.take_conn()?;
        conn.commit(batch.items())?;
        self.conn = Some(conn);
        Ok(())
    }

    fn read_block(&mut self, area: u8, key: &[u8]) -> Result<Block, Reason>
        ensures faults { self.new.faults ≡ self.old.faults }
    {
        let mut conn = self.take_conn()?;
        let block = conn.block_after(area, key)?;
        self.conn = Some(conn);
        Ok(block)
    }

    // Takes what was read ahead, if it tells what comes behind this key.
    fn take_ahead(&mut self, area: u8, key: &[u8]) -> Option<Block>
        ensures faults { self.new.faults ≡ self.old.faults }
    {
        let ahead = self.ahead.take()?;
        if !ahead.knows(area, key) {
            return None;
        }
        let Ahead {
            area: _,
            last: _,
            block,
        } = ahead;
        Some(block)
    }

    fn next_block(&mut self, area: u8, key: &[u8]) -> Result<Block, Reason>
        ensures faults { self.new.faults ≡ self.old.faults }
    {
        match self.take_ahead(area, key) {
            Some(block) => Ok(block),
            None => self.read_block(area, key),
        }
    }

    fn next_pair(&mut self, area: u8, key: &[u8]) -> Result<Option<Pair>, Reason>
        ensures faults { self.new.faults ≡ self.old.faults }
    {
        let mut block = self.next_block(area, key)?;
        let Some(pair) = block.pairs.pop() else {
            return Ok(None);
        };
        let Ok(last) = pair.key.copy() else {
            return Err(Reason::Memory);
        };
        self.ahead = Some(Ahead { area, last, block });
        Ok(Some(pair))
    }
}

impl<C: OpensAt + PairTable + Drop> Keeper for SqliteKeeper<'_, HostRuntime, C> {
    ghost tells = { false };

    ghost holds = { λ _. None };

    ghost counts_failures_alone = { true };

    ghost faults = { λ keeper. keeper.faults };

    ghost telling = { λ _. refl };

    ghost lawful = { λ _. tt };

    fn commit(&mut self, batch: &Batch) -> Result<(), PortFault> {
        match self.do_batch(batch) {
            Ok(()) => Ok(()),
            Err(Reason::Memory) => Err(PortFault::Memory),
            Err(reason) => {
                self.reason = Some(reason);
                self.faults = self.faults.saturating_add(1);
                Err(PortFault::Failed)
            }
        }
    }

    fn after(&mut self, area: u8, key: &[u8]) -> Result<Option<Pair>, PortFault> {
        match self.next_pair(area, key) {
            Ok(found) => Ok(found),
            Err(Reason::Memory) => Err(PortFault::Memory),
            Err(reason) => {
                self.reason = Some(reason);
                self.faults = self.faults.saturating_add(1);
                Err(PortFault::Failed)
            }
        }
    }
}
