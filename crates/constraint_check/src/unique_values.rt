//! The unique values that written rows have, each as a key of its table.
//!
//! A value with a Null in it is not enforced, so it is left out.
ghost use Rattle.std.specs.Prelude.{◌≡◌, [], IfOk, OnOk};
ghost use Rattle.redo_spec.specs.Dictionary.{table_of, uniques_of};
ghost use Rattle.constraint_check.specs.LookUps.{with_value, values_behind, values_with, written_values, keys_differ};

use redo_dict::Dict;
use redo_vec::{KeyColumns, TableRow};
use rl_value::{Key, NoMemory, Row};
use row_apply::{Write, has_null, key_row, unique_keys};
use std::alloc::Global;
use std::collections::BTreeSet;

fn push_value(
    alloc: Global,
    keys: &mut Vec<Key>,
    table: u32,
    row: &Row,
    index: u8,
    columns: &KeyColumns,
) -> Result<(), NoMemory>
    ensures pushed { OnOk result (keys.new.items ≡ with_value keys.old.items table row.now index columns.now) }
{
    let values = key_row(alloc, row, columns)?;
    if has_null(values.values()) {
        return Ok(());
    }
    let key = Key {
        table,
        index,
        values,
    };
    if keys.push(key).is_err() {
        return Err(NoMemory);
    }
    Ok(())
}

fn push_row(alloc: Global, keys: &mut Vec<Key>, table: &TableRow, row: &Row) -> Result<(), NoMemory>
    ensures pushed { OnOk result (keys.new.items ≡
        values_behind keys.old.items table.now.id row.now 1 (uniques_of table.now)) }
{
    let id = table.id;
    let mut uniques = unique_keys(table);
    let mut index: u8 = 1;
    while let [columns, others @ ..] = uniques {
        push_value(alloc, keys, id, row, index, columns)?;
        uniques = others;
        index += 1;
    }
    Ok(())
}

fn push_write(
    alloc: Global,
    dict: &Dict,
    keys: &mut Vec<Key>,
    write: &Write,
) -> Result<(), NoMemory>
    ensures pushed { OnOk result (keys.new.items ≡
        values_with keys.old.items (table_of dict.now.tables write.now.table) write.now.row) }
{
    let Some(table) = dict.def(write.table) else {
        return Ok(());
    };
    match &write.row {
        None => Ok(()),
        Some(row) => push_row(alloc, keys, table, row),
    }
}

/// Those of all written rows, in the order of the writes.
pub(crate) fn written_values(
    alloc: Global,
    dict: &Dict,
    writes: &[Write],
) -> Result<Vec<Key>, NoMemory>
    ensures values { IfOk result (λ keys. keys.items ≡ written_values [] dict.now.tables writes.now) }
{
    let mut keys = Vec::new(alloc);
    let mut rest = writes;
    while let [write, others @ ..] = rest {
        push_write(alloc, dict, &mut keys, write)?;
        rest = others;
    }
    Ok(keys)
}

/// No key stands twice among them.
pub(crate) fn keys_differ(alloc: Global, keys: Vec<Key>) -> Result<bool, NoMemory>
    ensures exact { IfOk result (λ differ. differ ≡ keys_differ [] keys.items) }
{
    let mut seen = BTreeSet::new(alloc);
    for key in keys {
        match seen.insert(key) {
            Ok(true) => {}
            Ok(false) => return Ok(false),
            Err(_) => return Err(NoMemory),
        }
    }
    Ok(true)
}
