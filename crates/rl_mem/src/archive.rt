//! Archives over logs in memory.

ghost use Rattle.std.specs.Prelude.{if◌then◌else◌, ◌&&◌, is_some, ◌≡◌, ◌↔◌, ◌<◌, ◌≤◌, [], length, List, ℕ, None, Some, true, refl, IsTrue, IsErr, IfOk, OnOk, OnErr};
ghost use Rattle.std.specs.Option.{option_map, option_copied};
ghost use Rattle.std.specs.Io.{ReadsAtMost};
ghost use Rattle.rl_ports.specs.Faults.{HasCause, NoneCounted, ReadsFrom, ReadsLog, ReadsNothing};
ghost use Rattle.rl_mem.specs.Calls.{before_calls, fails_next, after_call, passed};
ghost use Rattle.rl_mem.specs.Devices.{bytes_under, with_one};

use crate::calls::Calls;
use crate::room::copy_front;
use rl_ports::{Archive, Failed};
use rl_value::{Bytes, NoMemory};
use std::alloc::Global;
use std::collections::BTreeMap;
use std::marker::Model;

/// An archive that never fails.
#[derive(Drop)]
pub struct SureArchive {
    logs: BTreeMap<u32, Bytes>,
}

impl Model for SureArchive {
    ghost use Rattle.rl_mem.specs.Devices.{Numbered};

    ghost Value = { Numbered };

    ghost view = { λ a. a.logs.entries };
}

impl SureArchive {
    /// An archive of no logs. It takes no memory.
    pub fn new(alloc: Global) -> SureArchive
        ensures empty { result ≡ [] }
    {
        SureArchive {
            logs: BTreeMap::new(alloc),
        }
    }

    /// Adds a log under this sequence, in the place of one that lies there. A log that finds no memory is dropped.
    #[tactic(auto, using(crate::proofs::Maps::maps))]
    pub fn put_log(&mut self, seq: u32, bytes: Vec<u8>) -> Result<(), NoMemory>
        ensures put { OnOk result (self.new ≡ with_one seq bytes.items self.old) }
        ensures unchanged { OnErr result (self.new ≡ self.old) }
    {
        match self.logs.insert(seq, Bytes::of(bytes)) {
            Ok(_) => Ok(()),
            Err(_) => Err(NoMemory),
        }
    }

    #[tactic(auto, using(crate::proofs::Maps::maps))]
    fn log(&self, seq: u32) -> Option<&Bytes>
        ensures { option_copied result ≡ bytes_under self.now seq }
    {
        self.logs.get(&seq)
    }

    fn log_length(&self, seq: u32) -> Option<u64>
        ensures { result ≡ option_map length (bytes_under self.now seq) }
    {
        match self.log(seq) {
            None => None,
            Some(bytes) => Some(bytes.bytes().len() as u64),
        }
    }

    fn read_log(&self, seq: u32, at: u64, into: &mut [u8]) -> usize
        ensures bound { result ≤ length into.new }
        ensures bytes { ReadsFrom (bytes_under self.now seq) at into.new result }
        ensures absent { bytes_under self.now seq ≡ None → result ≡ 0 }
    {
        match self.log(seq) {
            None => 0,
            Some(bytes) => copy_from(bytes.bytes(), at, into),
        }
    }
}

impl Archive for SureArchive {
    ghost tells = { true };

    ghost logs = { λ a. Some (bytes_under a) };

    ghost counts_failures_alone = { true };

    ghost faults = { λ a. 0 };

    ghost telling = { λ a. refl };

    fn length(&mut self, seq: u32) -> Result<Option<u64>, Failed> {
        Ok(self.log_length(seq))
    }

    fn read(&mut self, seq: u32, at: u64, into: &mut [u8]) -> Result<usize, Failed> {
        Ok(self.read_log(seq, at, into))
    }
}

/// An archive that fails at the calls it is told to.
#[derive(Drop)]
pub struct MemArchive {
    archive: SureArchive,
    calls: Calls,
}

impl Model for MemArchive {
    ghost use Rattle.rl_mem.specs.Devices.{NumberedState};

    ghost Value = { NumberedState };

    ghost view = { λ a. record { held = a.archive; calls = a.calls } };
}

impl MemArchive {
    /// An archive of no logs. Its calls of these numbers fail, counted from 1. It takes no memory.
    pub fn new(alloc: Global, fails: Vec<u64>) -> MemArchive
        ensures empty { result.held ≡ [] }
        ensures calls { result.calls ≡ before_calls fails.items }
    {
        MemArchive {
            archive: SureArchive::new(alloc),
            calls: Calls::of(fails),
        }
    }

    /// Adds a log under this sequence, in the place of one that lies there. This is no call of the archive.
    pub fn put_log(&mut self, seq: u32, bytes: Vec<u8>) -> Result<(), NoMemory>
        ensures put { OnOk result (self.new.held ≡ with_one seq bytes.items self.old.held) }
        ensures unchanged { OnErr result (self.new.held ≡ self.old.held) }
        ensures calls { self.new.calls ≡ self.old.calls }
    {
        self.archive.put_log(seq, bytes)
    }
}

impl Archive for MemArchive {
    ghost tells = { true };

    ghost logs = { λ a. Some (bytes_under a.held) };

    ghost counts_failures_alone = { true };

    ghost faults = { λ a. a.calls.faults };

    ghost telling = { λ a. refl };

    fn length(&mut self, seq: u32) -> Result<Option<u64>, Failed>
        ensures fails { IsErr result ↔ IsTrue (fails_next self.old.calls) }
        ensures counted { self.new.calls ≡ after_call self.old.calls }
        ensures held { self.new.held ≡ self.old.held }
        ensures length { IfOk result (λ found. found ≡ option_map length (bytes_under self.old.held seq)) }
        ensures same { Some (bytes_under self.new.held) ≡ Some (bytes_under self.old.held) }
        ensures alone { OnOk result (NoneCounted true self.old.calls.faults self.new.calls.faults) }
        ensures cause { HasCause self.old.calls.faults self.new.calls.faults result }
    {
        if self.calls.next() {
            return Err(Failed);
        }
        Ok(self.archive.log_length(seq))
    }

    /// A read of a log that is not there is a call, and doesn't fail even where it is told to.
    fn read(&mut self, seq: u32, at: u64, into: &mut [u8]) -> Result<usize, Failed>
        ensures fails { IsErr result ↔ IsTrue (is_some (bytes_under self.old.held seq) && fails_next self.old.calls) }
        ensures counted { self.new.calls ≡ (if is_some (bytes_under self.old.held seq) then after_call self.old.calls else passed
            self.old.calls) }
        ensures held { self.new.held ≡ self.old.held }
        ensures bound { ReadsAtMost result into.new }
        ensures bytes { IfOk result (ReadsFrom (bytes_under self.old.held seq) at into.new) }
        ensures absent { ReadsNothing (bytes_under self.old.held seq) result self.old.calls.faults self.new.calls.faults }
        ensures same { Some (bytes_under self.new.held) ≡ Some (bytes_under self.old.held) }
        ensures alone { OnOk result (NoneCounted true self.old.calls.faults self.new.calls.faults) }
        ensures cause { HasCause self.old.calls.faults self.new.calls.faults result }
    {
        if self.archive.log(seq).is_none() {
            self.calls.pass();
            return Ok(0);
        }
        if self.calls.next() {
            return Err(Failed);
        }
        Ok(self.archive.read_log(seq, at, into))
    }
}

fn copy_from(bytes: &[u8], at: u64, into: &mut [u8]) -> usize
    ensures bound { result ≤ length into.new }
    ensures bytes { ReadsLog bytes.now at result into.new }
{
    let start = if at < bytes.len() as u64 {
        at as usize
    } else {
        bytes.len()
    };
    let (_, left) = bytes.split_at(start);
    copy_front(left, into)
}
