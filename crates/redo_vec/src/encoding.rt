//! Spells a redo record.
//!
//! A record has one spelling (specs/Spelling.antt), so what was decoded is spelled as it was read.
ghost use Rattle.std.specs.Prelude.{◌≡◌, ◌++◌, ◌∷◌, ◌≤◌, length, OnOk, IfOk};
ghost use Rattle.std.specs.List.{flat_map};
ghost use Rattle.redo_vec.specs.Ranges.{IsRecord};
ghost use Rattle.redo_vec.specs.Spelling.{xid, vector, record_bytes};
ghost use Rattle.redo_vec.specs.declared.redo_rec.RedoRec.{RedoRec};

use crate::encoding_changes::put_change;
use crate::encoding_fields::{put_u16, put_u32, put_u64, put_xid};
use crate::encoding_tables::put_table;
use crate::limits::MAX_RECORD;
use crate::redo_rec::RedoRec;
use crate::vector::Vector;
use rl_value::{NoMemory, Xid};
use std::alloc::{AllocError, Global};

fn put_plain(out: &mut Vec<u8>, kind: u8, id: Xid) -> Result<(), AllocError>
    ensures { OnOk result (out.new.items ≡ out.old.items ++ kind ∷ xid id) }
{
    out.push(kind)?;
    put_xid(out, id)
}

fn put_vector(out: &mut Vec<u8>, told: &Vector) -> Result<(), AllocError>
    ensures { OnOk result (out.new.items ≡ out.old.items ++ vector told.now) }
{
    match told {
        Vector::Start(id) => put_plain(out, 1, *id),
        Vector::Change(change) => put_change(out, change),
        Vector::Undo(id) => put_plain(out, 5, *id),
        Vector::Commit(id) => put_plain(out, 6, *id),
        Vector::Rollback(id) => put_plain(out, 7, *id),
        Vector::Table(table) => {
            out.push(8)?;
            put_table(out, table)
        }
        Vector::DictEnd => Ok(out.push(9)?),
    }
}

fn put_vectors(out: &mut Vec<u8>, items: &[Vector]) -> Result<(), AllocError>
    ensures { OnOk result (out.new.items ≡ out.old.items ++ flat_map vector items.now) }
{
    for item in items {
        put_vector(out, item)?;
    }
    Ok(())
}

fn spelled(alloc: Global, rec: &RedoRec) -> Result<Vec<u8>, AllocError>
    requires { length (record_bytes rec.now) ≤ MAX_RECORD }
    ensures { IfOk result (λ bytes. bytes.items ≡ record_bytes rec.now) }
{
    let vectors = rec.vectors.items();
    let mut body = Vec::new(alloc);
    put_vectors(&mut body, vectors)?;
    let mut out = Vec::with_capacity(alloc, 14 + body.len())?;
    put_u32(&mut out, (14 + body.len()) as u32)?;
    put_u64(&mut out, rec.scn)?;
    put_u16(&mut out, vectors.len() as u16)?;
    out.extend_from_slice(&body)?;
    Ok(out)
}

/// Spells a record, whose spelling has at most `MAX_RECORD` bytes.
pub fn encode_record(alloc: Global, rec: &RedoRec) -> Result<Vec<u8>, NoMemory>
    requires fits { length (record_bytes rec.now) ≤ MAX_RECORD }
    ensures spelled { IfOk result (λ bytes. bytes.items ≡ record_bytes rec.now) }
{
    match spelled(alloc, rec) {
        Ok(bytes) => Ok(bytes),
        Err(_) => Err(NoMemory),
    }
}

/// Two records of one spelling are one record. So what is encoded and decoded comes back as it was, and so do
/// the bytes of a record that is decoded and encoded.
pub fn one_spelling()
    ensures same { (a b : RedoRec) → IsRecord a → IsRecord b → record_bytes a ≡ record_bytes b → a ≡ b }
{}
