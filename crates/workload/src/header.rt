//! The bytes of a log: its header, and its records behind it. The numbers of the header are big-endian.
ghost use Rattle.std.specs.Prelude.{◌≡◌, ◌++◌, IfOk, OnOk, codes};
ghost use Rattle.redo_vec.specs.Spelling.{be16, be32, be64};
ghost use Rattle.redo_spec.specs.Log.{header_bytes};
ghost use Rattle.workload.specs.Texts.{spelled_log};

use byteorder::{BigEndian, ByteOrder};
use redo_spec::Header;
use rl_value::NoMemory;
use std::alloc::{AllocError, Global};

fn put_u16(out: &mut Vec<u8>, number: u16) -> Result<(), AllocError>
    ensures { OnOk result (out.new.items ≡ out.old.items ++ be16 number) }
{
    let mut bytes = [0u8; 2];
    BigEndian::write_u16(&mut bytes, number);
    out.extend_from_slice(&bytes)
}

fn put_u32(out: &mut Vec<u8>, number: u32) -> Result<(), AllocError>
    ensures { OnOk result (out.new.items ≡ out.old.items ++ be32 number) }
{
    let mut bytes = [0u8; 4];
    BigEndian::write_u32(&mut bytes, number);
    out.extend_from_slice(&bytes)
}

fn put_u64(out: &mut Vec<u8>, number: u64) -> Result<(), AllocError>
    ensures { OnOk result (out.new.items ≡ out.old.items ++ be64 number) }
{
    let mut bytes = [0u8; 8];
    BigEndian::write_u64(&mut bytes, number);
    out.extend_from_slice(&bytes)
}

// Version and thread.
fn put_ones(out: &mut Vec<u8>) -> Result<(), AllocError>
    ensures { OnOk result (out.new.items ≡ out.old.items ++ (be16 1 ++ be16 1)) }
{
    put_u16(out, 1)?;
    put_u16(out, 1)
}

fn put_magic(out: &mut Vec<u8>) -> Result<(), AllocError>
    ensures { OnOk result (out.new.items ≡ out.old.items ++ (codes "SRL1" ++ be16 1 ++ be16 1)) }
{
    out.extend_from_slice(b"SRL1")?;
    put_ones(out)
}

fn put_front(out: &mut Vec<u8>, head: Header) -> Result<(), AllocError>
    ensures { OnOk result (out.new.items ≡ out.old.items ++ (codes "SRL1" ++ be16 1 ++ be16 1 ++ be32 head.dbid)) }
{
    put_magic(out)?;
    put_u32(out, head.dbid)
}

fn put_range(out: &mut Vec<u8>, head: Header) -> Result<(), AllocError>
    ensures { OnOk result (out.new.items ≡ out.old.items ++ (be64 head.first ++ be64 head.next)) }
{
    put_u64(out, head.first)?;
    put_u64(out, head.next)
}

// The number of records, and the reserved field.
fn put_count(out: &mut Vec<u8>, head: Header) -> Result<(), AllocError>
    ensures { OnOk result (out.new.items ≡ out.old.items ++ (be32 head.count ++ be32 0)) }
{
    put_u32(out, head.count)?;
    put_u32(out, 0)
}

fn header_spelled(alloc: Global, head: Header) -> Result<Vec<u8>, AllocError>
    ensures { IfOk result (λ bytes. bytes.items ≡ header_bytes head) }
{
    let mut out = Vec::new(alloc);
    put_front(&mut out, head)?;
    put_u32(&mut out, head.seq)?;
    put_range(&mut out, head)?;
    put_count(&mut out, head)?;
    Ok(out)
}

fn spelled(alloc: Global, head: Header, records: &[u8]) -> Result<Vec<u8>, AllocError>
    ensures { IfOk result (λ bytes. bytes.items ≡ header_bytes head ++ records.now) }
{
    let mut out = header_spelled(alloc, head)?;
    out.extend_from_slice(records)?;
    Ok(out)
}

/// The bytes of a log of this header and these spelled records.
#[tactic(auto, unfolding(crate::specs::Texts::spelled_log))]
pub fn spelled_log(alloc: Global, head: Header, records: &[u8]) -> Result<Vec<u8>, NoMemory>
    ensures { IfOk result (λ bytes. bytes.items ≡ spelled_log head records.now) }
{
    match spelled(alloc, head, records) {
        Ok(bytes) => Ok(bytes),
        Err(_) => Err(NoMemory),
    }
}
