//! The bytes of a chunk, both ways.
//!
//! A chunk: count (1 byte, 1 to 64), then for each change record its record (8), its vector (1), and the change as a vector of a
//! redo record. Big-endian. A chunk has one spelling (specs/Spilled.antt), and nothing may follow.
ghost use Rattle.std.specs.Prelude.{◌≡◌, ◌++◌, ◌<◌, ◌≤◌, length, map, IfOk, OnOk, Some, None, Err};
ghost use Rattle.std.specs.List.{flat_map};
ghost use Rattle.redo_vec.specs.Given.{Gives};
ghost use Rattle.lcr.specs.Chunks.{placed};
ghost use Rattle.lcr.specs.Spilled.{placed_bytes, chunk_bytes, pos_at, placed_at, placed_from, chunk_at, chunk_in};
ghost use Rattle.lcr.specs.declared.fault.ChunkFault.TheVariants.{Bad};

use crate::change_record::Lcr;
use crate::chunk::Chunk;
use crate::chunk_form::is_chunk;
use crate::fault::ChunkFault;
use redo_vec::{DecodeFault, Vector, put_change, put_u64, u8_at, u64_at, vector_of};
use rl_value::{NoMemory, Pos, VecFault};
use std::alloc::{AllocError, Global};

// ---- spelling

fn put_lcr(out: &mut Vec<u8>, lcr: &Lcr) -> Result<(), AllocError>
    ensures { OnOk result (out.new.items ≡ out.old.items ++ placed_bytes (placed lcr.now)) }
{
    put_u64(out, lcr.pos.rec)?;
    out.push(lcr.pos.vec)?;
    put_change(out, &lcr.change)
}

fn put_lcrs(out: &mut Vec<u8>, items: &[Lcr]) -> Result<(), AllocError>
    ensures { OnOk result (out.new.items ≡ out.old.items ++ flat_map placed_bytes (map placed items.now)) }
{
    for lcr in items {
        put_lcr(out, lcr)?;
    }
    Ok(())
}

#[tactic(auto, using(crate::proofs::Counting::placed_count))]
fn spelled(alloc: Global, chunk: &Chunk) -> Result<Vec<u8>, AllocError>
    ensures { IfOk result (λ bytes. bytes.items ≡ chunk_bytes chunk.now) }
{
    let items = chunk.items();
    let mut out = Vec::new(alloc);
    out.push(items.len() as u8)?;
    put_lcrs(&mut out, items)?;
    Ok(out)
}

/// Spells a chunk.
pub fn chunk_bytes(alloc: Global, chunk: &Chunk) -> Result<Vec<u8>, NoMemory>
    ensures spelled { IfOk result (λ bytes. bytes.items ≡ chunk_bytes chunk.now) }
{
    match spelled(alloc, chunk) {
        Ok(bytes) => Ok(bytes),
        Err(_) => Err(NoMemory),
    }
}

// ---- reading

fn pos_of(bytes: &[u8]) -> Result<(Pos, &[u8]), DecodeFault>
    ensures { Gives (λ x. (x.0, x.1.now)) result (pos_at bytes.now) }
{
    let (rec, rest) = u64_at(0, bytes)?;
    let (vec, rest) = u8_at(0, rest)?;
    Ok((Pos { rec, vec }, rest))
}

fn no_change() -> DecodeFault
    ensures { result ≡ DecodeFault.Vector VecFault.Kind 0 }
{
    DecodeFault::Vector {
        fault: VecFault::Kind,
        place: 0,
    }
}

fn lcr_of(alloc: Global, bytes: &[u8]) -> Result<(Lcr, &[u8]), DecodeFault>
    ensures { Gives (λ x. (placed x.0, x.1.now)) result (placed_at bytes.now) }
{
    let (pos, rest) = pos_of(bytes)?;
    let (vector, rest) = vector_of(alloc, 0, rest)?;
    match vector {
        Vector::Change(change) => Ok((Lcr { pos, change }, rest)),
        _ => Err(no_change()),
    }
}

fn lcr_list(alloc: Global, count: u8, bytes: &[u8]) -> Result<(Vec<Lcr>, &[u8]), DecodeFault>
    ensures { Gives (λ x. (map placed x.0.items, x.1.now)) result (placed_from count bytes.now) }
{
    let mut lcrs = Vec::with_capacity(alloc, count as usize)?;
    let mut rest = bytes;
    for _ in 0..count {
        let (lcr, after) = lcr_of(alloc, rest)?;
        lcrs.push(lcr)?;
        rest = after;
    }
    Ok((lcrs, rest))
}

fn lcrs_of(alloc: Global, bytes: &[u8]) -> Result<(Vec<Lcr>, &[u8]), DecodeFault>
    ensures { Gives (λ x. (map placed x.0.items, x.1.now)) result (chunk_at bytes.now) }
{
    let (count, rest) = u8_at(0, bytes)?;
    lcr_list(alloc, count, rest)
}

/// Reads the chunk that bytes are the spelling of; Bad comes exactly where they are not of one.
pub fn read_chunk(alloc: Global, bytes: &[u8]) -> Result<Chunk, ChunkFault>
    ensures read { IfOk result (λ chunk. chunk_in bytes.now ≡ Some chunk) }
    ensures bad { result ≡ Err Bad → chunk_in bytes.now ≡ None }
{
    match lcrs_of(alloc, bytes) {
        Err(DecodeFault::Memory) => Err(ChunkFault::Memory),
        Err(DecodeFault::Vector { .. }) => Err(ChunkFault::Bad),
        Ok((items, rest)) => {
            if rest.is_empty() && is_chunk(&items) {
                Ok(Chunk::of(items))
            } else {
                Err(ChunkFault::Bad)
            }
        }
    }
}
