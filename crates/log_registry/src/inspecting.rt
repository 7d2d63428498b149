//! Looks at a log in the archive before it is registered.
ghost use Rattle.std.specs.Prelude.{◌≡◌, ◌≢◌, ◌≤◌, length, Err, IfOk};
ghost use Rattle.rl_ports.specs.Faults.{NoneCounted, Told, Rose};
ghost use Rattle.log_registry.specs.declared.fault.RegFault.TheVariants.{ArchiveFault};
ghost use Rattle.log_registry.specs.Front.{entry_of_front};
ghost use Rattle.log_registry.specs.Registered.{answer_of_look, answer_of_inspect};

use crate::entry::LogEntry;
use crate::fault::RegFault;
use crate::front::read_front;
use redo_wire::{HEADER_LENGTH, read_header};
use rl_ports::Archive;
use rl_value::HeadFault;

// The entry of a log of so many bytes that begins with these.
fn judge(front: &[u8], size: u64, seq: u32) -> Result<LogEntry, RegFault>
    ensures { result ≡ entry_of_front front.now size seq }
{
    if size < HEADER_LENGTH as u64 {
        return Err(RegFault::BadHeader(HeadFault::Short));
    }
    match read_header(front, seq) {
        Err(fault) => Err(RegFault::BadHeader(fault)),
        Ok(head) => Ok(LogEntry { head, length: size }),
    }
}

/// Asks for the log's length and reads its header: the entry of this sequence, or the first reason why it is none. It
/// takes no memory.
pub fn look<A: Archive>(archive: &mut A, seq: u32) -> Result<LogEntry, RegFault>
    ensures exact { Told (A.logs archive.old) (λ logs. result ≢ Err ArchiveFault → result ≡ answer_of_look seq (logs seq)) }
    // Of an archive that does not tell its logs, too.
    ensures sequence { IfOk result (λ entry. entry.head.seq ≡ seq) }
    ensures long { IfOk result (λ entry. HEADER_LENGTH ≤ entry.length) }
    ensures failed { result ≡ Err ArchiveFault → Rose (A.faults archive.old) (A.faults archive.new) }
    ensures none_passed_over { result ≢ Err ArchiveFault →
        NoneCounted A.counts_failures_alone (A.faults archive.old) (A.faults archive.new) }
    ensures count { A.faults archive.old ≤ A.faults archive.new }
    ensures logs { A.logs archive.new ≡ A.logs archive.old }
{
    match archive.length(seq)? {
        None => Err(RegFault::NoLog),
        Some(size) => {
            let mut front = [0u8; HEADER_LENGTH];
            let count = read_front(archive, seq, &mut front)?;
            judge(&front[..count], size, seq)
        }
    }
}

/// Looks at a log of a database that is known already: the entry of this sequence and database, or the first reason why
/// it is none. It takes no memory.
pub fn inspect<A: Archive>(archive: &mut A, seq: u32, dbid: u32) -> Result<LogEntry, RegFault>
    ensures exact { Told (A.logs archive.old) (λ logs. result ≢ Err ArchiveFault →
        result ≡ answer_of_inspect seq dbid (logs seq)) }
    // Of an archive that does not tell its logs, too.
    ensures sequence { IfOk result (λ entry. entry.head.seq ≡ seq) }
    ensures long { IfOk result (λ entry. HEADER_LENGTH ≤ entry.length) }
    ensures database { IfOk result (λ entry. entry.head.dbid ≡ dbid) }
    ensures failed { result ≡ Err ArchiveFault → Rose (A.faults archive.old) (A.faults archive.new) }
    ensures none_passed_over { result ≢ Err ArchiveFault →
        NoneCounted A.counts_failures_alone (A.faults archive.old) (A.faults archive.new) }
    ensures count { A.faults archive.old ≤ A.faults archive.new }
    ensures logs { A.logs archive.new ≡ A.logs archive.old }
{
    match look(archive, seq) {
        Err(fault) => Err(fault),
        Ok(entry) => {
            if entry.head.dbid == dbid {
                return Ok(entry);
            }
            Err(RegFault::WrongDb)
        }
    }
}
