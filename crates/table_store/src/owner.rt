//! Which row owns a unique value.
ghost use Rattle.std.specs.Prelude.{◌≡◌, length};
ghost use Rattle.std.specs.Option.{option_copied};
ghost use Rattle.std.specs.FinMap.Entries.{find};
ghost use Rattle.std.specs.Ordering.{eq_by_cmp};
ghost use Rattle.rl_value.specs.Order.{row_cmp, value_cmp};
ghost use Rattle.redo_spec.specs.Tables.{value_in, values_at};
ghost use Rattle.table_store.specs.Owners.{owner_by};

use redo_vec::KeyColumns;
use rl_value::{Row, Value};
use row_tree::Tree;

// The row has this value in this column; it has Null in a column that it lacks.
fn has_value(row: &Row, column: u8, value: &Value) -> bool
    ensures exact { result ≡ eq_by_cmp value_cmp (value_in row.now column) value.now }
{
    match row.values().get(column as usize) {
        None => Value::Null == *value,
        Some(found) => found == value,
    }
}

// The row has these values in these columns, one for each.
fn has_values(row: &Row, columns: &[u8], values: &[Value]) -> bool
    ensures exact { result ≡ eq_by_cmp row_cmp (values_at row.now columns.now) values.now }
{
    let mut columns_left = columns;
    let mut values_left = values;
    while let [column, more @ ..] = columns_left {
        let [value, others @ ..] = values_left else {
            return false;
        };
        if !has_value(row, *column, value) {
            return false;
        }
        columns_left = more;
        values_left = others;
    }
    values_left.is_empty()
}

/// The row to which the value leads, where it has the value.
pub(crate) fn owner_by<'a>(
    rows: &Tree,
    index: &'a Tree,
    columns: &KeyColumns,
    values: &Row,
) -> Option<&'a Row>
    ensures exact { option_copied result ≡ owner_by columns.now values.now rows.now
        (find row_cmp values.now index.now) }
{
    let Some(primary) = index.get(values) else {
        return None;
    };
    match rows.get(primary) {
        None => None,
        Some(row) => {
            if has_values(row, columns.items(), values.values()) {
                return Some(primary);
            }
            None
        }
    }
}
