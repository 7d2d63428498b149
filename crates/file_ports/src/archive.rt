//! The archived logs as files of the current folder: `redo/log_<sequence>.srl`.
//!
//! A file that is not there is an absent log, which has no bytes to read; nor is there a byte at an offset that no file of
//! its kind can have. So what a caller asks for makes no call fail. Whatever else keeps a call from its answer is a failure
//! and is counted: a folder or a device in a log's place, a file that may not be read, want of memory for its name.
ghost use Rattle.std.specs.Prelude.{◌≡◌, None, true, false, refl, IfOk};
ghost use Rattle.std.specs.Io.{ReadsAtMost};

use rl_ports::{Archive, Failed};
use rl_value::NoMemory;
use std::alloc::AllocError;
use std::fs;
use std::fs::{File, Files};
use std::io::{ErrorKind, Read, Seek, SeekFrom};

// The file of a log that was read last.
#[derive(Drop)]
struct OpenLog<F: Drop> {
    seq: u32,
    file: F,
}

/// The logs in `redo`. The log that was read last stays open; after a failure it is opened anew.
#[derive(Drop)]
pub struct FileArchive<'r, R: Files> {
    rt: &'r R,
    last: Option<OpenLog<R::File>>,
    faults: u64,
}

impl<'r, R: Files + AllocGlobal> FileArchive<'r, R> {
    /// Opens nothing yet.
    pub fn new(rt: &'r R) -> Result<FileArchive<'r, R>, NoMemory>
        ensures unfailed { IfOk result (λ device. ⟦<FileArchive<'r, R> as Archive>⟧.faults device ≡ 0) }
    {
        Ok(FileArchive {
            rt,
            last: None,
            faults: 0,
        })
    }
}

fn path_of<R: AllocGlobal>(rt: &R, seq: u32) -> Result<String, AllocError> {
    format!(in rt.alloc(); "redo/log_{seq}.srl")
}

// The length of a log's file, if it is there.
fn size_of<R: Files + AllocGlobal>(rt: &R, seq: u32) -> Result<Option<u64>, Failed> {
    let Ok(path) = path_of(rt, seq) else {
        return Err(Failed);
    };
    match fs::metadata(rt, path.as_str()) {
        Ok(found) if found.is_file() => Ok(Some(found.len())),
        Ok(_) => Err(Failed),
        Err(error) if error.kind() == ErrorKind::NotFound => Ok(None),
        Err(_) => Err(Failed),
    }
}

// A log's file, if it is there.
fn open<R: Files + AllocGlobal>(rt: &R, seq: u32) -> Result<Option<R::File>, Failed> {
    let Ok(path) = path_of(rt, seq) else {
        return Err(Failed);
    };
    match File::open(rt, path.as_str()) {
        Ok(file) => Ok(Some(file)),
        Err(error) if error.kind() == ErrorKind::NotFound => Ok(None),
        Err(_) => Err(Failed),
    }
}

// Some bytes of a file from this offset on.
fn read_at<F: Read + Seek>(file: &mut F, at: u64, into: &mut [u8]) -> Result<usize, Failed>
    ensures { ReadsAtMost result into.new }
{
    match file.seek(SeekFrom::Start(at)) {
        Ok(_) => match file.read(into) {
            Ok(taken) => Ok(taken),
            Err(_) => Err(Failed),
        },
        // The offset is past what the system lets a file have.
        Err(error) if error.kind() == ErrorKind::InvalidInput => Ok(0),
        Err(_) => Err(Failed),
    }
}

impl<R: Files + AllocGlobal> FileArchive<'_, R> {
    // Takes the file of this log, if it is there, opened anew unless it is the one that is open.
    fn take_file(&mut self, seq: u32) -> Result<Option<R::File>, Failed>
        ensures { self.new.faults ≡ self.old.faults }
    {
        match self.last.take() {
            Some(log) if log.seq == seq => Ok(Some(log.file)),
            _ => open(self.rt, seq),
        }
    }

    // Some bytes of a log, or none of an absent one. Its file stays open, unless the read fails.
    fn read_log(&mut self, seq: u32, at: u64, into: &mut [u8]) -> Result<usize, Failed>
        ensures bound { ReadsAtMost result into.new }
        ensures faults { self.new.faults ≡ self.old.faults }
    {
        let Some(mut file) = self.take_file(seq)? else {
            return Ok(0);
        };
        let count = read_at(&mut file, at, into)?;
        self.last = Some(OpenLog { seq, file });
        Ok(count)
    }
}

impl<R: Files + AllocGlobal> Archive for FileArchive<'_, R> {
    ghost tells = { false };

    ghost logs = { λ _. None };

    ghost counts_failures_alone = { true };

    ghost faults = { λ archive. archive.faults };

    ghost telling = { λ _. refl };

    fn length(&mut self, seq: u32) -> Result<Option<u64>, Failed> {
        match size_of(self.rt, seq) {
            Ok(found) => Ok(found),
            Err(failed) => {
                self.faults = self.faults.saturating_add(1);
                Err(failed)
            }
        }
    }

    fn read(&mut self, seq: u32, at: u64, into: &mut [u8]) -> Result<usize, Failed> {
        match self.read_log(seq, at, into) {
            Ok(count) => Ok(count),
            Err(failed) => {
                self.faults = self.faults.saturating_add(1);
                Err(failed)
            }
        }
    }
}
