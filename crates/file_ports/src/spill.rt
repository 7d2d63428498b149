//! The spilled chunks as files of the folder `spill`: `spill/chunk_<id>`.
//!
//! The folder is this store's own: clearing drops all that lies in it. A chunk is written beside the others first and then takes
//! its place, so a refused call leaves what was there. A chunk that is not there has no bytes, and a folder that is not there is
//! made: so what a caller asks for makes no call fail. Nothing is synced, since what lies here outlasts no run. Want of memory is
//! a failure only where a call has no other answer for it.
ghost use Rattle.std.specs.Prelude.{◌≡◌, None, true, false, refl, IfOk};

use rl_ports::{Failed, PortFault, Spill};
use rl_value::NoMemory;
use std::alloc::AllocError;
use std::fs::{File, Files};
use std::io::{ErrorKind, Read};
use std::{fs, io};

const FOLDER: &str = "spill";

/// Where a chunk is written before it takes its place.
const HALF: &str = "spill/half";

/// The chunks in `spill`.
#[derive(Drop)]
pub struct DirSpill<'r, R> {
    rt: &'r R,
    faults: u64,
}

impl<'r, R: Files + AllocGlobal> DirSpill<'r, R> {
    /// Opens nothing yet.
    pub fn new(rt: &'r R) -> Result<DirSpill<'r, R>, NoMemory>
        ensures unfailed { IfOk result (λ device. ⟦<DirSpill<'r, R> as Spill>⟧.faults device ≡ 0) }
    {
        Ok(DirSpill { rt, faults: 0 })
    }
}

fn path_of<R: AllocGlobal>(rt: &R, id: u64) -> Result<String, AllocError> {
    format!(in rt.alloc(); "spill/chunk_{id}")
}

fn fault_of(error: io::Error) -> PortFault {
    if error.kind() == ErrorKind::OutOfMemory {
        PortFault::Memory
    } else {
        PortFault::Failed
    }
}

// Writes bytes beside the chunks. The folder is made where it is not there.
fn write_half<R: Files>(rt: &R, bytes: &[u8]) -> io::Result<()> {
    match fs::write(rt, HALF, bytes) {
        Err(error) if error.kind() == ErrorKind::NotFound => {
            fs::create_dir(rt, FOLDER)?;
            fs::write(rt, HALF, bytes)
        }
        written => written,
    }
}

fn write_chunk<R: Files>(rt: &R, path: &str, bytes: &[u8]) -> io::Result<()> {
    write_half(rt, bytes)?;
    fs::rename(rt, HALF, path)
}

fn put_chunk<R: Files + AllocGlobal>(rt: &R, id: u64, bytes: &[u8]) -> Result<(), PortFault> {
    let Ok(path) = path_of(rt, id) else {
        return Err(PortFault::Memory);
    };
    match write_chunk(rt, path.as_str(), bytes) {
        Ok(()) => Ok(()),
        Err(error) => Err(fault_of(error)),
    }
}

// The bytes of a chunk behind what `into` holds, or none where it is not there.
fn read_chunk<R: Files>(rt: &R, path: &str, into: &mut Vec<u8>) -> io::Result<()> {
    let mut file = match File::open(rt, path) {
        Ok(file) => file,
        Err(error) if error.kind() == ErrorKind::NotFound => return Ok(()),
        Err(error) => return Err(error),
    };
    let _count = file.read_to_end(into)?;
    Ok(())
}

fn get_chunk<R: Files + AllocGlobal>(rt: &R, id: u64, into: &mut Vec<u8>) -> Result<(), PortFault> {
    into.clear();
    let Ok(path) = path_of(rt, id) else {
        return Err(PortFault::Memory);
    };
    match read_chunk(rt, path.as_str(), into) {
        Ok(()) => Ok(()),
        Err(error) => Err(fault_of(error)),
    }
}

fn drop_chunk<R: Files + AllocGlobal>(rt: &R, id: u64) -> Result<(), Failed> {
    let Ok(path) = path_of(rt, id) else {
        return Err(Failed);
    };
    match fs::remove_file(rt, path.as_str()) {
        Ok(()) => Ok(()),
        Err(error) if error.kind() == ErrorKind::NotFound => Ok(()),
        Err(_) => Err(Failed),
    }
}

// Drops the folder with all that it holds, and makes it anew.
fn clear_folder<R: Files + AllocGlobal>(rt: &R) -> Result<(), Failed> {
    match fs::remove_dir_all(rt, FOLDER) {
        Ok(()) => {}
        Err(error) if error.kind() == ErrorKind::NotFound => {}
        Err(_) => return Err(Failed),
    }
    match fs::create_dir(rt, FOLDER) {
        Ok(()) => Ok(()),
        Err(_) => Err(Failed),
    }
}

impl<R: Files + AllocGlobal> Spill for DirSpill<'_, R> {
    ghost tells = { false };

    ghost chunks = { λ _. None };

    ghost counts_failures_alone = { true };

    ghost faults = { λ spill. spill.faults };

    ghost telling = { λ _. refl };

    fn put(&mut self, id: u64, bytes: &[u8]) -> Result<(), PortFault> {
        match put_chunk(self.rt, id, bytes) {
            Ok(()) => Ok(()),
            Err(PortFault::Memory) => Err(PortFault::Memory),
            Err(PortFault::Failed) => {
                self.faults = self.faults.saturating_add(1);
                Err(PortFault::Failed)
            }
        }
    }

    fn get(&mut self, id: u64, into: &mut Vec<u8>) -> Result<(), PortFault> {
        match get_chunk(self.rt, id, into) {
            Ok(()) => Ok(()),
            Err(PortFault::Memory) => Err(PortFault::Memory),
            Err(PortFault::Failed) => {
                self.faults = self.faults.saturating_add(1);
                Err(PortFault::Failed)
            }
        }
    }

    fn drop_id(&mut self, id: u64) -> Result<(), Failed> {
        match drop_chunk(self.rt, id) {
            Ok(()) => Ok(()),
            Err(failed) => {
                self.faults = self.faults.saturating_add(1);
                Err(failed)
            }
        }
    }

    fn clear(&mut self) -> Result<(), Failed> {
        match clear_folder(self.rt) {
            Ok(()) => Ok(()),
            Err(failed) => {
                self.faults = self.faults.saturating_add(1);
                Err(failed)
            }
        }
    }
}
