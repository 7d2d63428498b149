//! Reads a source to its end, or to one byte more than is allowed.

ghost use Rattle.std.specs.Prelude.{◌≡◌, ◌≢◌, ◌<◌, ◌≤◌, ◌+◌, length, take, drop, IfOk, OnOk, OnErr, Some, Err, IsErrOf};
ghost use Rattle.std.specs.Io.{ReadsAtMost};
ghost use Rattle.std.specs.Io.KnownBytes.{ReadConsumes};
ghost use Rattle.rl_ports.specs.Faults.{HasCause, NoneCounted, Rose, Told};
ghost use Rattle.rl_text.specs.Written.{ConsumesFront};

use rl_ports::{Failed, Source};
use std::alloc::Global;

/// How many bytes are asked for at a time.
const BLOCK: usize = 4096;

/// Why an input is not read.
#[derive(Clone, Copy, Debug, PartialEq, Eq)]
pub enum ReadFault {
    /// A call of the source failed.
    SourceFault,
    /// There is no memory for the bytes.
    Memory,
}

// Asks the source once.
fn read_some<I: Source>(input: &mut I, into: &mut [u8]) -> Result<usize, Failed>
    ensures bound { ReadsAtMost result into.new }
    ensures bytes { ReadConsumes (I.left input.old) (I.left input.new) result into.new }
    ensures none_passed_over { OnOk result (NoneCounted I.counts_failures_alone (I.faults input.old) (I.faults input.new)) }
    ensures cause { HasCause (I.faults input.old) (I.faults input.new) result }
{
    input.read(into)
}

/// Reads a source to its end, or `most + 1` bytes where it has more than `most`: so the caller sees that there
/// are too many. After a refusal what was read is lost.
pub fn read_all<I: Source>(alloc: Global, input: &mut I, most: u64) -> Result<Vec<u8>, ReadFault>
    ensures bytes { Told (I.left input.old) (λ bytes. IfOk result (λ read. read.items ≡ take (most + 1) bytes)) }
    ensures left { Told (I.left input.old) (λ bytes. OnOk result (I.left input.new ≡ Some (drop (most + 1) bytes))) }
    ensures size { IfOk result (λ read. length read.items ≤ most + 1) }
    ensures taken { OnErr result (ConsumesFront (I.left input.old) (I.left input.new)) }
    ensures cause { IsErrOf result ReadFault.SourceFault → Rose (I.faults input.old) (I.faults input.new) }
    ensures none_passed_over { result ≢ Err ReadFault.SourceFault →
        NoneCounted I.counts_failures_alone (I.faults input.old) (I.faults input.new) }
    ensures later { I.faults input.old ≤ I.faults input.new }
{
    let mut bytes = Vec::new(alloc);
    while bytes.len() as u64 <= most {
        let spare = most - bytes.len() as u64;
        let mut block = [0u8; BLOCK];
        let count = if spare < BLOCK as u64 - 1 {
            spare as usize + 1
        } else {
            BLOCK
        };
        let Ok(given) = read_some(input, &mut block[..count]) else {
            return Err(ReadFault::SourceFault);
        };
        if given == 0 {
            return Ok(bytes);
        }
        if bytes.extend_from_slice(&block[..given]).is_err() {
            return Err(ReadFault::Memory);
        }
    }
    Ok(bytes)
}
