//! Decodes a redo record: one pass over its bytes from left to right, ended by the first fault.
//!
//! A record: length (4 bytes, of the whole record), SCN (8), number of vectors (2), the vectors. Big-endian.
//! The reading as a definition stands in specs/Reading.antt, the spelling in specs/Spelling.antt, and that the
//! two agree in the clauses of `decode_record`.
ghost use Rattle.std.specs.Prelude.{◌≡◌, ◌≤◌, length, IfOk, Ok, []};
ghost use Rattle.redo_vec.specs.Given.{Gives};
ghost use Rattle.redo_vec.specs.Cutting.{first_record};
ghost use Rattle.redo_vec.specs.Ranges.{IsRecord};
ghost use Rattle.redo_vec.specs.Spelling.{record_bytes};
ghost use Rattle.redo_vec.specs.Reading.{items_from, vector_at, vectors_from, record_at};
ghost use Rattle.redo_vec.specs.declared.redo_rec.RedoRec.{RedoRec};

use crate::change::Op;
use crate::fault::DecodeFault;
use crate::fields::{fault_at, u8_at, u16_at, u32_at, u64_at, xid_of};
use crate::reading_changes::change_of;
use crate::reading_tables::table_of;
use crate::redo_rec::RedoRec;
use crate::vector::{Vector, Vectors};
use rl_value::VecFault;
use std::alloc::Global;

/// Reads one vector from the front of bytes, and gives the bytes behind it. The place of a fault is counted back from the length
/// `size`: it is that less the bytes that are left there.
#[tactic(auto, unfolding(crate::specs::Reading::vector_at))]
pub fn vector_of(alloc: Global, size: u32, bytes: &[u8]) -> Result<(Vector, &[u8]), DecodeFault>
    ensures read { Gives (λ x. (x.0, x.1.now)) result (vector_at size bytes.now) }
{
    let (kind, rest) = u8_at(size, bytes)?;
    match kind {
        1 => {
            let (xid, rest) = xid_of(size, rest)?;
            Ok((Vector::Start(xid), rest))
        }
        2 => {
            let (change, rest) = change_of(alloc, size, Op::Insert, rest)?;
            Ok((Vector::Change(change), rest))
        }
        3 => {
            let (change, rest) = change_of(alloc, size, Op::Update, rest)?;
            Ok((Vector::Change(change), rest))
        }
        4 => {
            let (change, rest) = change_of(alloc, size, Op::Delete, rest)?;
            Ok((Vector::Change(change), rest))
        }
        5 => {
            let (xid, rest) = xid_of(size, rest)?;
            Ok((Vector::Undo(xid), rest))
        }
        6 => {
            let (xid, rest) = xid_of(size, rest)?;
            Ok((Vector::Commit(xid), rest))
        }
        7 => {
            let (xid, rest) = xid_of(size, rest)?;
            Ok((Vector::Rollback(xid), rest))
        }
        8 => {
            let (table, rest) = table_of(alloc, size, rest)?;
            Ok((Vector::Table(table), rest))
        }
        9 => Ok((Vector::DictEnd, rest)),
        _ => Err(fault_at(VecFault::Kind, size, bytes)),
    }
}

fn vector_list(
    alloc: Global,
    size: u32,
    count: u16,
    bytes: &[u8],
) -> Result<(Vec<Vector>, &[u8]), DecodeFault>
    ensures { Gives (λ x. (x.0.items, x.1.now)) result (items_from (λ _. vector_at size) (λ _. 0) count 0 bytes.now) }
{
    let mut vectors = Vec::with_capacity(alloc, count as usize)?;
    let mut rest = bytes;
    for _ in 0..count {
        let (vector, after) = vector_of(alloc, size, rest)?;
        vectors.push(vector)?;
        rest = after;
    }
    Ok((vectors, rest))
}

#[tactic(auto, unfolding(crate::specs::Reading::record_at, crate::specs::Reading::vectors_from))]
fn decoded(alloc: Global, bytes: &[u8]) -> Result<RedoRec, DecodeFault>
    requires { first_record bytes.now ≡ Ok (bytes.now, []) }
    ensures { Gives (λ x. x) result (record_at bytes.now) }
{
    let size = bytes.len() as u32;
    let (_, rest) = u32_at(size, bytes)?;
    let (scn, rest) = u64_at(size, rest)?;
    let (count, rest) = u16_at(size, rest)?;
    let (vectors, rest) = vector_list(alloc, size, count, rest)?;
    if !rest.is_empty() {
        return Err(fault_at(VecFault::End, size, rest));
    }
    Ok(RedoRec {
        scn,
        vectors: Vectors::of(vectors),
    })
}

/// Decodes one record. The bytes are read once, and only what the record owns is copied: texts, raw values, and the
/// names and key columns of its tables. The place of a fault counts from the record's first byte.
pub fn decode_record(alloc: Global, bytes: &[u8]) -> Result<RedoRec, DecodeFault>
    // The cutter takes all of these bytes as one record.
    requires cut { first_record bytes.now ≡ Ok (bytes.now, []) }
    // What is read is spelled so, and has a spelling.
    ensures found { IfOk result (λ rec. IsRecord rec × (bytes.now ≡ record_bytes rec)) }
    // What is spelled so is read, unless memory runs out.
    ensures only { (rec : RedoRec) → IsRecord rec → bytes.now ≡ record_bytes rec → Gives (λ x. x) result (Ok rec) }
    // The record, or the first fault and its place.
    ensures exact { Gives (λ x. x) result (record_at bytes.now) }
{
    decoded(alloc, bytes)
}
