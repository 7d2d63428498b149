//! Logs for tests, made of texts, and an archive of them whose reads are short and of which a call may fail.
ghost use Rattle.std.specs.Prelude.{◌≡◌, OnOk, None, true, false, refl};
ghost use Rattle.rl_ports.specs.Faults.{HasCause};

use redo_text::write_log;
use rl_ports::{Archive, Failed};
use std::alloc::Global;
use std::test::Fail;

/// The first log of examples/first_log: the dictionary, an insert and a commit.
pub(crate) const FIRST: &str = "LOG 1\nDBID 9\nFIRST 100\nNEXT 200\n\
    RECORD 100\nTABLE 1 T.A COLUMNS ID:NUMBER KEY ID\nDICTEND\n\
    RECORD 101\nSTART 1.2.3\nINSERT 1.2.3 T.A NEW ID=7\nRECORD 102\nCOMMIT 1.2.3\n";

/// The log that a text says.
pub(crate) fn log_of(alloc: Global, text: &str) -> Result<Vec<u8>, Fail> {
    Ok(write_log(alloc, text.as_bytes())?)
}

#[derive(Drop)]
struct Shelved {
    seq: u32,
    bytes: Vec<u8>,
}

/// An archive that tells nothing. A read gives so many bytes at most, and the call of this number fails.
#[derive(Drop)]
pub(crate) struct Shelf {
    alloc: Global,
    logs: Vec<Shelved>,
    most: usize,
    calls: u64,
    fails_at: u64,
    faults: u64,
}

impl Shelf {
    pub(crate) fn new(alloc: Global, most: usize, fails_at: u64) -> Shelf {
        Shelf {
            alloc,
            logs: Vec::new(alloc),
            most,
            calls: 0,
            fails_at,
            faults: 0,
        }
    }

    /// Puts the log that a text says under this sequence, of no more than so many bytes.
    pub(crate) fn put(&mut self, seq: u32, text: &str, size: usize) -> Result<(), Fail> {
        let mut bytes = log_of(self.alloc, text)?;
        bytes.truncate(size);
        self.logs.push(Shelved { seq, bytes })?;
        Ok(())
    }

    fn log(&self, seq: u32) -> Option<&[u8]> {
        for log in self.logs.as_slice() {
            if log.seq == seq {
                return Some(log.bytes.as_slice());
            }
        }
        None
    }

    fn call(&mut self) -> Result<(), Failed>
        ensures cause { HasCause self.old.faults self.new.faults result }
        ensures alone { OnOk result (self.new.faults ≡ self.old.faults) }
    {
        self.calls = self.calls.saturating_add(1);
        if self.calls == self.fails_at {
            self.faults = self.faults.saturating_add(1);
            return Err(Failed);
        }
        Ok(())
    }
}

impl Archive for Shelf {
    ghost tells = { false };

    ghost logs = { λ _. None };

    ghost counts_failures_alone = { true };

    ghost faults = { λ shelf. shelf.faults };

    ghost telling = { λ _. refl };

    fn length(&mut self, seq: u32) -> Result<Option<u64>, Failed> {
        self.call()?;
        match self.log(seq) {
            None => Ok(None),
            Some(log) => Ok(Some(log.len() as u64)),
        }
    }

    fn read(&mut self, seq: u32, at: u64, into: &mut [u8]) -> Result<usize, Failed> {
        self.call()?;
        let Some(log) = self.log(seq) else {
            return Ok(0);
        };
        if at >= log.len() as u64 {
            return Ok(0);
        }
        let rest = &log[at as usize..];
        let count = rest.len().min(into.len()).min(self.most);
        into[..count].copy_from_slice(&rest[..count]);
        Ok(count)
    }
}
