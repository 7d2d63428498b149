//! The items that a kept state is written as: the key and the value of each pair, or the key of one that goes.
//!
//! Area, key and value of each are those of the layout (specs/Layout.antt of `standby_spec`). Numbers are big-endian, and values,
//! tables and transaction ids are spelled as in a record.
ghost use Rattle.std.specs.Prelude.{◌≡◌, IfOk};
ghost use Rattle.skip_guard.specs.Rules.{skip_of};
ghost use Rattle.standby_spec.specs.Layout as layout;
ghost use Rattle.standby_spec.specs.Writings as writings;
ghost use Rattle.kept_layout.specs.Pairs as pairs;

use crate::identity::Identity;
use crate::spelling::{
    applied_bytes, key_bytes, log_bytes, mark_bytes, number_bytes, place_bytes, row_bytes,
    skip_bytes, standby_bytes, table_bytes,
};
use log_registry::LogEntry;
use redo_vec::TableRow;
use rl_ports::Item;
use rl_value::{Bytes, NoMemory, Row, Scn};
use row_apply::Write;
use skip_guard::SkipEntry;
use standby_spec::Mark;
use std::alloc::{AllocError, Global};

fn put(area: u8, key: Vec<u8>, value: Vec<u8>) -> Item
    ensures { result ≡ Item.Put area key.items value.items }
{
    Item::Put {
        area,
        key: Bytes::of(key),
        value: Bytes::of(value),
    }
}

fn standby_pair(alloc: Global, identity: Identity) -> Result<Item, AllocError>
    ensures { IfOk result (λ item. item ≡ pairs.identity_item identity) }
{
    let key = key_bytes(alloc, b'S')?;
    let value = standby_bytes(alloc, identity)?;
    Ok(put(1, key, value))
}

/// The standby itself. The item is written where a standby is created, and where its guard is set.
pub fn standby_item(alloc: Global, identity: Identity) -> Result<Item, NoMemory>
    ensures item { IfOk result (λ item. item ≡ pairs.identity_item identity) }
{
    match standby_pair(alloc, identity) {
        Ok(item) => Ok(item),
        Err(_) => Err(NoMemory),
    }
}

fn log_pair(alloc: Global, entry: LogEntry) -> Result<Item, AllocError>
    ensures { IfOk result (λ item. item ≡ layout.log_item entry) }
{
    let key = number_bytes(alloc, entry.head.seq)?;
    let value = log_bytes(alloc, entry)?;
    Ok(put(2, key, value))
}

/// A registered log.
pub fn log_item(alloc: Global, entry: LogEntry) -> Result<Item, NoMemory>
    ensures item { IfOk result (λ item. item ≡ layout.log_item entry) }
{
    match log_pair(alloc, entry) {
        Ok(item) => Ok(item),
        Err(_) => Err(NoMemory),
    }
}

fn table_pair(alloc: Global, table: &TableRow) -> Result<Item, AllocError>
    ensures { IfOk result (λ item. item ≡ layout.table_item table.now) }
{
    let key = number_bytes(alloc, table.id)?;
    let value = table_bytes(alloc, table)?;
    Ok(put(3, key, value))
}

/// A table's definition.
pub fn table_item(alloc: Global, table: &TableRow) -> Result<Item, NoMemory>
    ensures item { IfOk result (λ item. item ≡ layout.table_item table.now) }
{
    match table_pair(alloc, table) {
        Ok(item) => Ok(item),
        Err(_) => Err(NoMemory),
    }
}

fn skip_pair(alloc: Global, number: u32, entry: &SkipEntry) -> Result<Item, AllocError>
    ensures { IfOk result (λ item. item ≡ layout.skip_item number (skip_of entry.now)) }
{
    let key = number_bytes(alloc, number)?;
    let value = skip_bytes(alloc, entry)?;
    Ok(put(4, key, value))
}

/// The skip rule of this number. Rules count from 1.
pub fn skip_item(alloc: Global, number: u32, entry: &SkipEntry) -> Result<Item, NoMemory>
    ensures item { IfOk result (λ item. item ≡ layout.skip_item number (skip_of entry.now)) }
{
    match skip_pair(alloc, number, entry) {
        Ok(item) => Ok(item),
        Err(_) => Err(NoMemory),
    }
}

fn row_pair(alloc: Global, table: u32, key: &Row, row: &Row) -> Result<Item, AllocError>
    ensures { IfOk result (λ item. item ≡ layout.row_item table (key.now, row.now)) }
{
    let key = place_bytes(alloc, table, key)?;
    let value = row_bytes(alloc, row)?;
    Ok(put(5, key, value))
}

/// A row of the table of this id, under its primary key.
pub fn row_item(alloc: Global, table: u32, key: &Row, row: &Row) -> Result<Item, NoMemory>
    ensures item { IfOk result (λ item. item ≡ layout.row_item table (key.now, row.now)) }
{
    match row_pair(alloc, table, key, row) {
        Ok(item) => Ok(item),
        Err(_) => Err(NoMemory),
    }
}

/// The row of the table of this id that has this primary key goes.
pub fn row_drop(alloc: Global, table: u32, key: &Row) -> Result<Item, NoMemory>
    ensures item { IfOk result (λ item. item ≡ pairs.row_drop table key.now) }
{
    match place_bytes(alloc, table, key) {
        Ok(key) => Ok(Item::Drop {
            area: 5,
            key: Bytes::of(key),
        }),
        Err(_) => Err(NoMemory),
    }
}

/// A written row: it is put, or goes.
pub fn write_item(alloc: Global, write: &Write) -> Result<Item, NoMemory>
    ensures item { IfOk result (λ item. item ≡ writings.write_item write.now) }
{
    match &write.row {
        None => row_drop(alloc, write.table, &write.key),
        Some(row) => row_item(alloc, write.table, &write.key, row),
    }
}

fn applied_pair(alloc: Global, n: u64, scn: Scn) -> Result<Item, AllocError>
    ensures { IfOk result (λ item. item ≡ layout.applied_item n scn) }
{
    let key = key_bytes(alloc, b'A')?;
    let value = applied_bytes(alloc, n, scn)?;
    Ok(put(6, key, value))
}

/// How many commits are applied, and the SCN of the last of them.
pub fn applied_item(alloc: Global, n: u64, scn: Scn) -> Result<Item, NoMemory>
    ensures item { IfOk result (λ item. item ≡ layout.applied_item n scn) }
{
    match applied_pair(alloc, n, scn) {
        Ok(item) => Ok(item),
        Err(_) => Err(NoMemory),
    }
}

fn mark_pair(alloc: Global, mark: Mark) -> Result<Item, AllocError>
    ensures { IfOk result (λ item. item ≡ layout.mark_item mark) }
{
    let key = key_bytes(alloc, b'M')?;
    let value = mark_bytes(alloc, mark)?;
    Ok(put(7, key, value))
}

/// The mark. The count at which it was taken is not kept.
pub fn mark_item(alloc: Global, mark: Mark) -> Result<Item, NoMemory>
    ensures item { IfOk result (λ item. item ≡ layout.mark_item mark) }
{
    match mark_pair(alloc, mark) {
        Ok(item) => Ok(item),
        Err(_) => Err(NoMemory),
    }
}
