//! The index of unique values: which row has one.

ghost use Rattle.std.specs.Prelude.{◌≡◌, ◌<◌, ◌+◌, IfOk, OnOk, IsTrue, if◌then◌else◌, ◌==◌, true};
ghost use Rattle.redo_spec.specs.Dictionary.{uniques_of};
ghost use Rattle.row_apply.specs.Kept.{index_at, index_by, index_slot, index_all, leads_at, leads_by, leads_slot, leads_all, OwnersOnly};

use crate::key_values::{has_null, key_row, unique_keys};
use redo_vec::{KeyColumns, KeyLists, TableRow};
use rl_value::{Key, NoMemory, Row};
use std::alloc::Global;
use std::collections::BTreeMap;

// A value with a Null in it is not kept.
#[tactic(auto, using(crate::proofs::Indexes::only))]
fn index_value(
    alloc: Global,
    owners: &mut BTreeMap<Key, Key>,
    table: u32,
    index: u8,
    columns: &KeyColumns,
    key: &Key,
    row: &Row,
) -> Result<(), NoMemory>
    ensures indexed { OnOk result (owners.new.entries ≡ index_at table row.now key.now index columns.now owners.old.entries) }
    ensures others { OwnersOnly table owners.old.entries owners.new.entries }
{
    let values = key_row(alloc, row, columns)?;
    if has_null(values.values()) {
        return Ok(());
    }
    let unique = Key {
        table,
        index,
        values,
    };
    let key = key.copy()?;
    match owners.insert(unique, key) {
        Ok(_) => Ok(()),
        Err(_) => Err(NoMemory),
    }
}

/// Adds the unique values of a row, each with the row's key.
pub fn index_row(
    alloc: Global,
    owners: &mut BTreeMap<Key, Key>,
    table: &TableRow,
    key: &Key,
    row: &Row,
) -> Result<(), NoMemory>
    ensures indexed { OnOk result (owners.new.entries ≡ index_by table.now.id row.now key.now 1 (uniques_of table.now)
        owners.old.entries) }
    ensures others { OwnersOnly table.now.id owners.old.entries owners.new.entries }
{
    let id = table.id;
    let mut keys = unique_keys(table);
    let mut index: u8 = 1;
    while let [columns, others @ ..] = keys {
        index_value(alloc, owners, id, index, columns, key, row)?;
        keys = others;
        index += 1;
    }
    Ok(())
}

fn index_entry(
    alloc: Global,
    owners: &mut BTreeMap<Key, Key>,
    table: &TableRow,
    key: &Key,
    slot: &Option<Row>,
) -> Result<(), NoMemory>
    ensures indexed { OnOk result (owners.new.entries ≡ (if key.now.table == table.now.id then index_slot table.now key.now
        slot.now owners.old.entries else owners.old.entries)) }
    ensures others { OwnersOnly table.now.id owners.old.entries owners.new.entries }
{
    if key.table != table.id {
        return Ok(());
    }
    match slot {
        None => Ok(()),
        Some(row) => index_row(alloc, owners, table, key, row),
    }
}

/// Adds the unique values of all rows of the table.
pub fn index_rows(
    alloc: Global,
    rows: &BTreeMap<Key, Option<Row>>,
    owners: &mut BTreeMap<Key, Key>,
    table: &TableRow,
) -> Result<(), NoMemory>
    ensures indexed { OnOk result (owners.new.entries ≡ index_all table.now rows.now.entries owners.old.entries) }
    ensures others { OwnersOnly table.now.id owners.old.entries owners.new.entries }
{
    for (key, slot) in rows {
        index_entry(alloc, owners, table, key, slot)?;
    }
    Ok(())
}

fn value_leads(
    alloc: Global,
    owners: &BTreeMap<Key, Key>,
    table: u32,
    index: u8,
    columns: &KeyColumns,
    key: &Key,
    row: &Row,
) -> Result<bool, NoMemory>
    ensures { IfOk result (λ leads. leads ≡ leads_at owners.now.entries table row.now key.now index columns.now) }
{
    let values = key_row(alloc, row, columns)?;
    if has_null(values.values()) {
        return Ok(true);
    }
    let unique = Key {
        table,
        index,
        values,
    };
    match owners.get(&unique) {
        None => Ok(false),
        Some(owner) => Ok(owner == key),
    }
}

fn row_leads(
    alloc: Global,
    owners: &BTreeMap<Key, Key>,
    table: &TableRow,
    key: &Key,
    row: &Row,
) -> Result<bool, NoMemory>
    ensures { IfOk result (λ leads. leads ≡ leads_by owners.now.entries table.now.id row.now key.now 1 (uniques_of table.now)) }
{
    let id = table.id;
    let mut keys = unique_keys(table);
    let mut index: u8 = 1;
    while let [columns, others @ ..] = keys {
        if !value_leads(alloc, owners, id, index, columns, key, row)? {
            return Ok(false);
        }
        keys = others;
        index += 1;
    }
    Ok(true)
}

fn entry_leads(
    alloc: Global,
    owners: &BTreeMap<Key, Key>,
    table: &TableRow,
    key: &Key,
    slot: &Option<Row>,
) -> Result<bool, NoMemory>
    ensures { IfOk result (λ leads. leads ≡ (if key.now.table == table.now.id then leads_slot table.now owners.now.entries key.now
        slot.now else true)) }
{
    if key.table != table.id {
        return Ok(true);
    }
    match slot {
        None => Ok(true),
        Some(row) => row_leads(alloc, owners, table, key, row),
    }
}

/// Whether each unique value of the table's rows leads to its row. Where two rows have one value it cannot.
pub fn rows_lead(
    alloc: Global,
    rows: &BTreeMap<Key, Option<Row>>,
    owners: &BTreeMap<Key, Key>,
    table: &TableRow,
) -> Result<bool, NoMemory>
    ensures { IfOk result (λ lead. lead ≡ leads_all table.now owners.now.entries rows.now.entries) }
{
    for (key, slot) in rows {
        if !entry_leads(alloc, owners, table, key, slot)? {
            return Ok(false);
        }
    }
    Ok(true)
}

fn same_columns(columns: &[u8], others: &[u8]) -> bool
    ensures { IsTrue result → columns.now ≡ others.now }
{
    columns == others
}

fn same_lists(lists: &[KeyColumns], others: &[KeyColumns]) -> bool
    ensures { IsTrue result → lists.now ≡ others.now }
{
    let mut lists_left = lists;
    let mut others_left = others;
    while let [columns, more_lists @ ..] = lists_left {
        let [like, more_others @ ..] = others_left else {
            return false;
        };
        if !same_columns(columns.items(), like.items()) {
            return false;
        }
        lists_left = more_lists;
        others_left = more_others;
    }
    others_left.is_empty()
}

/// Whether the keys have the same columns.
pub fn same_keys(keys: &KeyLists, others: &KeyLists) -> bool
    ensures { IsTrue result → keys.now ≡ others.now }
{
    same_lists(keys.items(), others.items())
}
