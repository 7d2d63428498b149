//! Whether another row has one of a row's unique values.
//!
//! A written row is found by the index. Else it is the row beneath that has the value, unless that one was written over.
//! The row that an update takes away is in nobody's way.

ghost use Rattle.std.specs.Prelude.{◌≡◌, ◌<◌, ◌+◌, IfOk, OnOk, Some, None, Option, false, slice_get};
ghost use Rattle.std.specs.List.{list_any, enumerate_from};
ghost use Rattle.std.specs.Option.{option_copied};
ghost use Rattle.redo_spec.specs.ConflictKeys.{is_null};
ghost use Rattle.redo_spec.specs.Dictionary.{table_of, uniques_of};
ghost use Rattle.redo_spec.specs.Effect.{taken_at, taken_by};
ghost use Rattle.redo_spec.specs.Tables.{definitions_of, owner_in, values_at};
ghost use Rattle.rl_value.specs.declared.miss.Miss.TheVariants.{Taken};
ghost use Rattle.row_apply.specs.Adding.{rows_without, values_of, owner_unless, if_beneath, owns, slot_has, written_owner, HasIndex, IsFreeAt, IsFreeWritten, IsReady, IsUnownedBut};
ghost use Rattle.row_apply.specs.Kept.{row_key, rows_seen};
ghost use Rattle.row_apply.specs.KeptIn.{slots_of, owners_of, IsKept};
ghost use Rattle.row_apply.specs.Outcomes.{OfMiss, OnMiss};

use crate::fault::EffectFault;
use crate::key_values::{has_null, has_values, key_row, unique_keys};
use crate::rows::Rows;
use crate::written::Written;
use redo_vec::{KeyColumns, TableRow};
use rl_value::{Key, Miss, NoMemory, Row, Value};

fn slot_has(slot: &Option<Row>, columns: &[u8], values: &[Value]) -> bool
    ensures { result ≡ slot_has (Some slot.now) columns.now values.now }
{
    match slot {
        None => false,
        Some(row) => has_values(row.values(), columns, values),
    }
}

// The key is that of a written row that has this value.
fn is_owner(over: &Written, key: &Key, columns: &[u8], owner: &Key) -> bool
    ensures { result ≡ owns (slots_of over.now) key.now columns.now owner.now }
{
    if owner.table != key.table {
        return false;
    }
    if owner.index != 0 {
        return false;
    }
    match over.rows.get(owner) {
        None => false,
        Some(slot) => slot_has(slot, columns, key.values.values()),
    }
}

fn owner_written<'a>(over: &'a Written, key: &Key, columns: &[u8]) -> Option<&'a Row>
    ensures { option_copied result ≡ written_owner (slots_of over.now) (owners_of over.now) key.now columns.now }
{
    match over.owners.get(key) {
        None => None,
        Some(owner) => {
            if is_owner(over, key, columns, owner) {
                Some(&owner.values)
            } else {
                None
            }
        }
    }
}

fn other_than<'a>(gone: &Option<Key>, owner: &'a Row) -> Option<&'a Row>
    ensures { option_copied result ≡ owner_unless (values_of gone.now) owner.now }
{
    match gone {
        None => Some(owner),
        Some(gone) => {
            if gone.values == *owner {
                None
            } else {
                Some(owner)
            }
        }
    }
}

// The owner beneath, unless it goes or was written over.
fn owner_left<'a>(
    over: &Written,
    table: u32,
    gone: &Option<Key>,
    owner: &'a Row,
) -> Result<Option<&'a Row>, NoMemory>
    ensures { IfOk result (λ left. option_copied left ≡ if_beneath (slots_of over.now) table (values_of gone.now) owner.now) }
{
    let Some(owner) = other_than(gone, owner) else {
        return Ok(None);
    };
    let values = owner.copy()?;
    let key = Key {
        table,
        index: 0,
        values,
    };
    if over.rows.contains_key(&key) {
        return Ok(None);
    }
    Ok(Some(owner))
}

/// The key of another row that has this value of a unique key.
fn other_owner<'a, R: Rows>(
    base: &'a R,
    over: &'a Written,
    table: &TableRow,
    gone: &Option<Key>,
    key: &Key,
    columns: &[u8],
) -> Result<Option<&'a Row>, NoMemory>
    requires there { table_of (definitions_of (R.tables base.now)) table.now.id ≡ Some table.now }
    requires kept { IsKept over.now }
    requires table { key.now.table ≡ table.now.id }
    requires unique { 0 < key.now.index }
    requires columns { slice_get table.now.keys key.now.index ≡ Some columns.now }
    requires filled { list_any is_null key.now.values ≡ false }
    ensures free { IfOk result (λ owner. option_copied owner ≡ None → HasIndex over.now table.now →
        IsUnownedBut (slots_of over.now) table.now.id (values_of gone.now) columns.now key.now.values) }
    ensures owner { IsReady (R.tables base.now) over.now table.now →
        IfOk result (λ owner. option_copied owner ≡ owner_in
        (rows_without (values_of gone.now) (rows_seen (R.tables base.now) (slots_of over.now) table.now)) columns.now
        key.now.values) }
{
    match owner_written(over, key, columns) {
        Some(owner) => Ok(other_than(gone, owner)),
        None => match base.owner(key) {
            None => Ok(None),
            Some(beneath) => owner_left(over, table.id, gone, beneath),
        },
    }
}

fn taken(table: u32, index: u8, owner: &Row) -> EffectFault
    ensures { OfMiss result (λ miss. miss ≡ Taken index (row_key table owner.now)) }
{
    let Ok(values) = owner.copy() else {
        return EffectFault::Memory;
    };
    let owner = Key {
        table,
        index: 0,
        values,
    };
    EffectFault::Miss(Miss::Taken { index, owner })
}

// No other row has the row's value of this unique key, or there is a Null in it.
fn check_unique<R: Rows>(
    base: &R,
    over: &Written,
    table: &TableRow,
    gone: &Option<Key>,
    row: &Row,
    index: u8,
    columns: &KeyColumns,
) -> Result<(), EffectFault>
    requires there { table_of (definitions_of (R.tables base.now)) table.now.id ≡ Some table.now }
    requires kept { IsKept over.now }
    requires unique { 0 < index }
    requires columns { slice_get table.now.keys index ≡ Some columns.now }
    ensures alone { OnOk result (HasIndex over.now table.now →
        IsFreeAt (slots_of over.now) table.now.id (values_of gone.now) row.now columns.now) }
    ensures free { IsReady (R.tables base.now) over.now table.now →
        OnOk result (taken_at table.now (rows_without (values_of gone.now)
        (rows_seen (R.tables base.now) (slots_of over.now) table.now)) index columns.now (values_at row.now columns.now) ≡ None) }
    ensures taken { IsReady (R.tables base.now) over.now table.now →
        OnMiss result (λ miss. taken_at table.now (rows_without (values_of gone.now)
        (rows_seen (R.tables base.now) (slots_of over.now) table.now)) index columns.now
        (values_at row.now columns.now) ≡ Some miss) }
{
    let Ok(values) = key_row(over.alloc, row, columns) else {
        return Err(EffectFault::Memory);
    };
    if has_null(values.values()) {
        return Ok(());
    }
    let key = Key {
        table: table.id,
        index,
        values,
    };
    match other_owner(base, over, table, gone, &key, columns.items()) {
        Err(NoMemory) => Err(EffectFault::Memory),
        Ok(None) => Ok(()),
        Ok(Some(owner)) => Err(taken(table.id, index, owner)),
    }
}

/// No other row has one of the row's unique values; else the first unique key at which one has.
pub fn check_uniques<R: Rows>(
    base: &R,
    over: &Written,
    table: &TableRow,
    gone: &Option<Key>,
    row: &Row,
) -> Result<(), EffectFault>
    requires there { table_of (definitions_of (R.tables base.now)) table.now.id ≡ Some table.now }
    requires kept { IsKept over.now }
    ensures alone { OnOk result (IsFreeWritten over.now table.now (values_of gone.now) row.now) }
    ensures free { IsReady (R.tables base.now) over.now table.now →
        OnOk result (taken_by table.now (rows_without (values_of gone.now)
        (rows_seen (R.tables base.now) (slots_of over.now) table.now)) row.now (enumerate_from 1 (uniques_of table.now)) ≡ None) }
    ensures taken { IsReady (R.tables base.now) over.now table.now →
        OnMiss result (λ miss. taken_by table.now (rows_without (values_of gone.now)
        (rows_seen (R.tables base.now) (slots_of over.now) table.now)) row.now
        (enumerate_from 1 (uniques_of table.now)) ≡ Some miss) }
{
    let keys = unique_keys(table);
    let mut index: u8 = 1;
    for columns in keys {
        check_unique(base, over, table, gone, row, index, columns)?;
        index += 1;
    }
    Ok(())
}
