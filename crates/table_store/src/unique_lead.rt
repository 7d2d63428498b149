//! The indexes of a table's unique keys: each leads from a unique value to the primary key of the row that has it.
//!
//! Between two writes of a commit two rows may have one value, so a value leaves an index only where it leads to the row that is
//! written. What an index answers is looked at again in the rows.
ghost use Rattle.std.specs.Prelude.{◌≡◌, IfOk, None, Some, false};
ghost use Rattle.std.specs.Option.{option_copied};
ghost use Rattle.std.specs.FinMap.Entries.{find};
ghost use Rattle.rl_value.specs.Order.{row_cmp};
ghost use Rattle.table_store.specs.Leads.{unique_of, slot_unique, leads_to, leave, enter, departing, lead_after, leads_after};

use redo_vec::KeyColumns;
use rl_value::{NoMemory, Row};
use row_apply::{has_null, key_row};
use row_tree::Tree;
use std::alloc::Global;

// The value that the row has of this unique key, unless there is a Null in it.
fn unique_value(alloc: Global, columns: &KeyColumns, row: &Row) -> Result<Option<Row>, NoMemory>
    ensures exact { IfOk result (λ value. value ≡ unique_of columns.now row.now) }
{
    let values = key_row(alloc, row, columns)?;
    if has_null(values.values()) {
        return Ok(None);
    }
    Ok(Some(values))
}

fn slot_value(
    alloc: Global,
    columns: &KeyColumns,
    row: Option<&Row>,
) -> Result<Option<Row>, NoMemory>
    ensures exact { IfOk result (λ value. value ≡ slot_unique columns.now (option_copied row.entry)) }
{
    match row {
        None => Ok(None),
        Some(row) => unique_value(alloc, columns, row),
    }
}

fn leads_to(found: Option<&Row>, key: &Row) -> bool
    ensures exact { result ≡ leads_to key.now (option_copied found.entry) }
{
    match found {
        None => false,
        Some(found) => found == key,
    }
}

// The old value, unless the new one is the same.
fn departing(old: Option<Row>, new: &Option<Row>) -> Option<Row>
    ensures exact { result ≡ departing old new.now }
{
    let Some(old) = old else {
        return None;
    };
    match new {
        None => Some(old),
        Some(new) => {
            if old == *new {
                return None;
            }
            Some(old)
        }
    }
}

fn leave(index: Tree, value: Option<Row>, key: &Row) -> Result<Tree, NoMemory>
    ensures left { IfOk result (λ after. after ≡ leave value key.now index) }
{
    let Some(value) = value else {
        return Ok(index);
    };
    if leads_to(index.get(&value), key) {
        return index.remove(&value);
    }
    Ok(index)
}

fn enter(index: Tree, value: Option<Row>, key: &Row) -> Result<Tree, NoMemory>
    ensures entered { IfOk result (λ after. after ≡ enter value key.now index) }
{
    let Some(value) = value else {
        return Ok(index);
    };
    if leads_to(index.get(&value), key) {
        return Ok(index);
    }
    let key = key.copy()?;
    index.put(value, key)
}

fn follow(
    alloc: Global,
    columns: &KeyColumns,
    index: Tree,
    key: &Row,
    was: Option<&Row>,
    now: Option<&Row>,
) -> Result<Tree, NoMemory>
    ensures followed { IfOk result (λ after. after ≡
        lead_after columns.now key.now (option_copied was.entry) (option_copied now.entry) index) }
{
    let old = slot_value(alloc, columns, was)?;
    let new = slot_value(alloc, columns, now)?;
    let index = leave(index, departing(old, &new), key)?;
    enter(index, new, key)
}

/// Follows a write, in the index of each of these unique keys: under the key stood this row, and now stands this one, or none.
pub(crate) fn follow_all(
    alloc: Global,
    keys: &[KeyColumns],
    indexes: Vec<Tree>,
    key: &Row,
    was: Option<&Row>,
    now: Option<&Row>,
) -> Result<Vec<Tree>, NoMemory>
    ensures followed { IfOk result (λ after. after.items ≡
        leads_after keys.now key.now (option_copied was.entry) (option_copied now.entry) indexes.items) }
{
    let Ok(mut done) = Vec::with_capacity(alloc, indexes.len()) else {
        return Err(NoMemory);
    };
    let mut rest = keys;
    for index in indexes {
        let [columns, others @ ..] = rest else {
            return Ok(done);
        };
        let index = follow(alloc, columns, index, key, was, now)?;
        if done.push(index).is_err() {
            return Err(NoMemory);
        }
        rest = others;
    }
    Ok(done)
}
