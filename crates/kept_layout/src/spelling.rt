//! The keys and the values of pairs, spelled byte by byte.
//!
//! A number is put big-endian in as many bytes as its field has. Each value is made of a few runs of fields, so that what has
//! been put so far is always the front of the value.
ghost use Rattle.std.specs.Prelude.{◌≡◌, ◌++◌, ◌∷◌, [], codes, OnOk, IfOk};
ghost use Rattle.std.specs.List.{flat_map};
ghost use Rattle.redo_vec.specs.Spelling.{value, table, be16, be32, be64};
ghost use Rattle.redo_spec.specs.Log.{header_bytes};
ghost use Rattle.skip_guard.specs.Rules.{rule_of};
ghost use Rattle.standby_spec.specs.Layout.{level_byte, rule_bytes, row_place};
ghost use Rattle.kept_layout.specs.Spelled.{standby_value, log_value, skip_value, applied_value, mark_front, mark_middle, mark_end, mark_value};

use crate::identity::Identity;
use crate::numbers::behind;
use log_registry::LogEntry;
use redo_vec::{TableRow, put_table, put_u32, put_u64, put_value, put_xid};
use redo_wire::Header;
use rl_value::{Row, Scn, Value};
use skip_guard::{Level, SkipEntry, SkipRule};
use standby_spec::Mark;
use std::alloc::{AllocError, Global};

/// The key of one letter.
pub(crate) fn key_bytes(alloc: Global, letter: u8) -> Result<Vec<u8>, AllocError>
    ensures { IfOk result (λ bytes. bytes.items ≡ letter ∷ []) }
{
    let mut out = Vec::new(alloc);
    out.push(letter)?;
    Ok(out)
}

/// The key of one number.
pub(crate) fn number_bytes(alloc: Global, number: u32) -> Result<Vec<u8>, AllocError>
    ensures { IfOk result (λ bytes. bytes.items ≡ be32 number) }
{
    let mut out = Vec::new(alloc);
    put_u32(&mut out, number)?;
    Ok(out)
}

fn level_byte(level: Level) -> u8
    ensures { result ≡ level_byte level }
{
    match level {
        Level::All => 1,
        Level::Standby => 2,
    }
}

/// The database, the first log, the base SCN, the level of the guard.
pub(crate) fn standby_bytes(alloc: Global, identity: Identity) -> Result<Vec<u8>, AllocError>
    ensures { IfOk result (λ bytes. bytes.items ≡ standby_value identity) }
{
    let mut out = Vec::new(alloc);
    put_u32(&mut out, identity.dbid)?;
    put_u32(&mut out, identity.first)?;
    put_u64(&mut out, identity.base)?;
    out.push(level_byte(identity.level))?;
    Ok(out)
}

// Magic, version, thread and dbid.
fn put_front(out: &mut Vec<u8>, head: Header) -> Result<(), AllocError>
    ensures { OnOk result (out.new.items ≡ out.old.items ++ (codes "SRL1" ++ be16 1 ++ be16 1 ++ be32 head.dbid)) }
{
    out.extend_from_slice(b"SRL1\x00\x01\x00\x01")?;
    put_u32(out, head.dbid)
}

fn put_range(out: &mut Vec<u8>, head: Header) -> Result<(), AllocError>
    ensures { OnOk result (out.new.items ≡ out.old.items ++ (be64 head.first ++ be64 head.next)) }
{
    put_u64(out, head.first)?;
    put_u64(out, head.next)
}

// The number of records, and the reserved field.
fn put_count(out: &mut Vec<u8>, head: Header) -> Result<(), AllocError>
    ensures { OnOk result (out.new.items ≡ out.old.items ++ (be32 head.count ++ be32 0)) }
{
    put_u32(out, head.count)?;
    put_u32(out, 0)
}

fn header_spelled(alloc: Global, head: Header) -> Result<Vec<u8>, AllocError>
    ensures { IfOk result (λ bytes. bytes.items ≡ header_bytes head) }
{
    let mut out = Vec::new(alloc);
    put_front(&mut out, head)?;
    put_u32(&mut out, head.seq)?;
    put_range(&mut out, head)?;
    put_count(&mut out, head)?;
    Ok(out)
}

/// The 40 bytes of the header, and the length.
pub(crate) fn log_bytes(alloc: Global, entry: LogEntry) -> Result<Vec<u8>, AllocError>
    ensures { IfOk result (λ bytes. bytes.items ≡ log_value entry) }
{
    let mut out = header_spelled(alloc, entry.head)?;
    put_u64(&mut out, entry.length)?;
    Ok(out)
}

/// What follows on the id in a record.
pub(crate) fn table_bytes(alloc: Global, told: &TableRow) -> Result<Vec<u8>, AllocError>
    ensures { IfOk result (λ bytes. bytes.items ≡ table told.now) }
{
    let mut out = Vec::new(alloc);
    put_table(&mut out, told)?;
    Vec::from_slice(alloc, behind(out.as_slice(), 4))
}

fn put_rule(out: &mut Vec<u8>, rule: &SkipRule) -> Result<(), AllocError>
    ensures { OnOk result (out.new.items ≡ out.old.items ++ rule_bytes (rule_of rule.now)) }
{
    match rule {
        SkipRule::Tables(pattern) => {
            out.push(1)?;
            out.extend_from_slice(pattern.bytes())
        }
        SkipRule::Transaction(id) => {
            out.push(2)?;
            put_xid(out, *id)
        }
    }
}

/// From which commit on the rule counts, its kind, and the pattern or the id.
pub(crate) fn skip_bytes(alloc: Global, entry: &SkipEntry) -> Result<Vec<u8>, AllocError>
    ensures { IfOk result (λ bytes. bytes.items ≡ skip_value entry.now.from (rule_of entry.now.rule)) }
{
    let mut out = Vec::new(alloc);
    put_u64(&mut out, entry.from)?;
    put_rule(&mut out, &entry.rule)?;
    Ok(out)
}

// The values in their order.
fn put_values(out: &mut Vec<u8>, items: &[Value]) -> Result<(), AllocError>
    ensures { OnOk result (out.new.items ≡ out.old.items ++ flat_map value items.now) }
{
    for item in items {
        put_value(out, item)?;
    }
    Ok(())
}

/// The table, and the values of the primary key.
pub(crate) fn place_bytes(alloc: Global, table: u32, key: &Row) -> Result<Vec<u8>, AllocError>
    ensures { IfOk result (λ bytes. bytes.items ≡ row_place table key.now) }
{
    let mut out = Vec::new(alloc);
    put_u32(&mut out, table)?;
    put_values(&mut out, key.values())?;
    Ok(out)
}

/// The values of the row.
pub(crate) fn row_bytes(alloc: Global, row: &Row) -> Result<Vec<u8>, AllocError>
    ensures { IfOk result (λ bytes. bytes.items ≡ flat_map value row.now) }
{
    let mut out = Vec::new(alloc);
    put_values(&mut out, row.values())?;
    Ok(out)
}

/// The count of commits, and the SCN of the last of them.
pub(crate) fn applied_bytes(alloc: Global, n: u64, scn: Scn) -> Result<Vec<u8>, AllocError>
    ensures { IfOk result (λ bytes. bytes.items ≡ applied_value n scn) }
{
    let mut out = Vec::new(alloc);
    put_u64(&mut out, n)?;
    put_u64(&mut out, scn)?;
    Ok(out)
}

// Record m, and how many commits are before record q.
fn put_mark_reach(out: &mut Vec<u8>, mark: Mark) -> Result<(), AllocError>
    ensures { OnOk result (out.new.items ≡ out.old.items ++ (be64 mark.m ++ be64 mark.before)) }
{
    put_u64(out, mark.m)?;
    put_u64(out, mark.before)
}

// The version of the layout of a mark, and the records up to which it reaches.
fn put_mark_front(out: &mut Vec<u8>, mark: Mark) -> Result<(), AllocError>
    ensures { OnOk result (out.new.items ≡ out.old.items ++ mark_front mark) }
{
    out.push(1)?;
    put_u64(out, mark.q)?;
    put_mark_reach(out, mark)
}

// The place behind record q.
fn put_mark_middle(out: &mut Vec<u8>, mark: Mark) -> Result<(), AllocError>
    ensures { OnOk result (out.new.items ≡ out.old.items ++ mark_middle mark) }
{
    put_u32(out, mark.place.seq)?;
    put_u64(out, mark.place.at)?;
    put_u32(out, mark.place.done)
}

fn put_mark_end(out: &mut Vec<u8>, mark: Mark) -> Result<(), AllocError>
    ensures { OnOk result (out.new.items ≡ out.old.items ++ mark_end mark) }
{
    put_u64(out, mark.q_scn)?;
    put_u64(out, mark.m_scn)?;
    put_u64(out, mark.commit_scn)
}

/// The 65 bytes of a mark.
pub(crate) fn mark_bytes(alloc: Global, mark: Mark) -> Result<Vec<u8>, AllocError>
    ensures { IfOk result (λ bytes. bytes.items ≡ mark_value mark) }
{
    let mut out = Vec::new(alloc);
    put_mark_front(&mut out, mark)?;
    put_mark_middle(&mut out, mark)?;
    put_mark_end(&mut out, mark)?;
    Ok(out)
}
