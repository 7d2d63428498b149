//! Reads the header of an archived log.
//!
//! 40 bytes: `SRL1`, version (2 bytes, 1), thread (2, 1), dbid (4), sequence (4), first SCN (8), next SCN (8),
//! number of records (4), reserved (4, 0). Big-endian. The first fault in the order of `HeadFault` is answered.
ghost use Rattle.std.specs.Prelude.{◌≡◌, ◌≤◌, take, codes};
ghost use Rattle.std.specs.Int.{w16, w32};
ghost use Rattle.rl_value.specs.Order.{same_bytes};
ghost use Rattle.rl_value.specs.Outcome.{refused_by};
ghost use Rattle.redo_vec.specs.Cutting.{number_in};
ghost use Rattle.redo_spec.specs.LogHeader.{header_in, header_fault};

use crate::numbers::{u16_in, u32_in, u64_in};
use redo_spec::Header;
use rl_value::HeadFault;

/// A header's length in bytes.
pub const HEADER_LENGTH: usize = 40;

fn header_of(bytes: &[u8]) -> Header
    ensures { result ≡ header_in bytes.now }
{
    Header {
        seq: u32_in(bytes, 12),
        dbid: u32_in(bytes, 8),
        first: u64_in(bytes, 16),
        next: u64_in(bytes, 24),
        count: u32_in(bytes, 32),
    }
}

fn has_magic(bytes: &[u8]) -> bool
    ensures { result ≡ same_bytes (take 4 bytes.now) (codes "SRL1") }
{
    let front = if bytes.len() < 4 { bytes } else { &bytes[..4] };
    front == b"SRL1".as_slice()
}

fn fault_of(bytes: &[u8], seq: u32) -> Option<HeadFault>
    ensures { result ≡ header_fault seq bytes.now }
{
    let head = header_of(bytes);
    if bytes.len() < HEADER_LENGTH {
        return Some(HeadFault::Short);
    }
    if !has_magic(bytes) {
        return Some(HeadFault::Magic);
    }
    if u16_in(bytes, 4) != 1 {
        return Some(HeadFault::Version);
    }
    if u16_in(bytes, 6) != 1 {
        return Some(HeadFault::Thread);
    }
    if head.seq != seq {
        return Some(HeadFault::Sequence);
    }
    if head.first == 0 || head.next <= head.first {
        return Some(HeadFault::Range);
    }
    if head.count == 0 {
        return Some(HeadFault::Records);
    }
    if u32_in(bytes, 36) != 0 {
        return Some(HeadFault::Reserved);
    }
    None
}

/// Reads the header of the log of this sequence. Bytes behind the header are not looked at. It takes no memory.
pub fn read_header(bytes: &[u8], seq: u32) -> Result<Header, HeadFault>
    // The header, unless it has a fault, and then the first one.
    ensures exact { result ≡ refused_by (header_fault seq bytes.now) (header_in bytes.now) }
{
    match fault_of(bytes, seq) {
        Some(fault) => Err(fault),
        None => Ok(header_of(bytes)),
    }
}
