//! Redo records as they are cut off a log, framed and not yet decoded.
ghost use Rattle.std.specs.Prelude.{◌≡◌, IfOk};

use redo_spec::Header;
use rl_value::{Bytes, CutFault, NoMemory};
use std::marker::Model;

/// A record that was cut off a log.
#[derive(Debug, Drop)]
pub struct Raw {
    /// The record's number, from 1 over all logs of a standby.
    pub rec: u64,
    /// The header of its log.
    pub head: Header,
    /// The offset in its log just past this record, in bytes; the 40 bytes of the header count.
    pub end: u64,
    /// How many records of its log are cut with it.
    pub done: u32,
    /// The whole record: the cutter takes these bytes as one.
    pub bytes: Bytes,
}

impl Raw {
    /// A record equal to this one, with bytes of its own.
    pub fn copy(&self) -> Result<Raw, NoMemory>
        ensures equal { IfOk result (λ raw. raw ≡ self.now) }
    {
        Ok(Raw {
            rec: self.rec,
            head: self.head,
            end: self.end,
            done: self.done,
            bytes: self.bytes.copy()?,
        })
    }
}

/// A list of records in the order of their log.
#[derive(Debug, Drop)]
pub struct Raws {
    items: Vec<Raw>,
}

impl Model for Raws {
    ghost use Rattle.std.specs.Prelude.{List};
    ghost use Rattle.redo_wire.specs.declared.raw.Raw.{Raw};

    ghost Value = { List Raw };

    ghost view = { λ r. r.items.items };
}

impl Raws {
    /// Keeps these records. It takes no memory.
    pub fn of(items: Vec<Raw>) -> Raws
        ensures same { result ≡ items.items }
    {
        Raws { items }
    }

    /// The records in order.
    pub fn items(&self) -> &[Raw]
        ensures same { result.now ≡ self.now }
    {
        self.items.as_slice()
    }

    /// Gives the records away in order. It takes no memory.
    pub fn into_items(self) -> Vec<Raw>
        ensures same { result.items ≡ self }
    {
        self.items
    }

    /// A list of records equal to these.
    pub fn copy(&self) -> Result<Raws, NoMemory>
        ensures equal { IfOk result (λ raws. raws ≡ self.now) }
    {
        match copied(&self.items) {
            Ok(items) => Ok(Raws { items }),
            Err(NoMemory) => Err(NoMemory),
        }
    }
}

fn copied(items: &Vec<Raw>) -> Result<Vec<Raw>, NoMemory>
    ensures { IfOk result (λ copies. copies.items ≡ items.now.items) }
{
    let Ok(mut copies) = Vec::with_capacity(*items.allocator(), items.len()) else {
        return Err(NoMemory);
    };
    for raw in items {
        let raw = raw.copy()?;
        if copies.push(raw).is_err() {
            return Err(NoMemory);
        }
    }
    Ok(copies)
}

/// What a piece of a log's bytes gave: the records that it completed, and the first fault that it showed.
#[derive(Debug, Drop)]
pub struct Fed {
    /// The records in the order of the log.
    pub raws: Raws,
    /// None as long as no fault was met. Truncated is told by `Cutter::finish` alone.
    pub cause: Option<CutFault>,
}

impl Fed {
    /// The same records and fault again.
    pub fn copy(&self) -> Result<Fed, NoMemory>
        ensures equal { IfOk result (λ fed. fed ≡ self.now) }
    {
        Ok(Fed {
            raws: self.raws.copy()?,
            cause: self.cause,
        })
    }
}
