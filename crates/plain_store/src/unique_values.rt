//! The unique values of a row, as the index has them.
ghost use Rattle.std.specs.Prelude.{◌≡◌, IfOk};
ghost use Rattle.plain_store.specs.Unique.{unique_at};

use redo_vec::KeyColumns;
use rl_value::{Key, NoMemory, Row};
use row_apply::{has_null, key_row};
use std::alloc::Global;

/// The value that a row has of the unique key of this number, unless there is a Null in it.
pub fn unique_value(
    alloc: Global,
    table: u32,
    number: u8,
    columns: &KeyColumns,
    row: &Row,
) -> Result<Option<Key>, NoMemory>
    ensures exact { IfOk result (λ value. value ≡ unique_at table number columns.now row.now) }
{
    let values = key_row(alloc, row, columns)?;
    if has_null(values.values()) {
        return Ok(None);
    }
    Ok(Some(Key {
        table,
        index: number,
        values,
    }))
}
