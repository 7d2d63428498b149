//! Whether rows are sound tables of a dictionary. The index has been filled with them before.
ghost use Rattle.std.specs.Prelude.{◌≡◌, IfOk, Some};
ghost use Rattle.redo_spec.specs.Dictionary.{table_of, primary_of};
ghost use Rattle.redo_spec.specs.Tables.{rows_by};
ghost use Rattle.plain_store.specs.Checked.{row_holds, rows_hold, tables_hold};

use crate::plain_rows::{PlainRows, has_values};
use crate::plain_tables::PlainTables;
use crate::unique_index::UniqueIndex;
use redo_dict::Dict;
use redo_vec::TableRow;
use rl_value::{NoMemory, Row};

// The columns of the primary key.
fn primary_of(table: &TableRow) -> &[u8]
    ensures same { result.now ≡ primary_of table.now }
{
    match table.keys.items() {
        [] => &[],
        [primary, ..] => primary.items(),
    }
}

fn row_holds(
    dict: &Dict,
    table: &TableRow,
    index: &UniqueIndex,
    key: &Row,
    row: &Row,
) -> Result<bool, NoMemory>
    requires there { table_of dict.now.tables table.now.id ≡ Some table.now }
    ensures exact { IfOk result (λ holds. holds ≡ row_holds table.now index.now (key.now, row.now)) }
{
    if !dict.check_row(table.id, row) {
        return Ok(false);
    }
    if !has_values(row, primary_of(table), key.values()) {
        return Ok(false);
    }
    index.leads_all(table, key, row)
}

fn rows_hold(
    dict: &Dict,
    table: &TableRow,
    index: &UniqueIndex,
    rows: &PlainRows,
) -> Result<bool, NoMemory>
    requires there { table_of dict.now.tables table.now.id ≡ Some table.now }
    ensures exact { IfOk result (λ hold. hold ≡ rows_hold table.now index.now rows.now) }
{
    for (key, row) in rows.iter() {
        if !row_holds(dict, table, index, key, row)? {
            return Ok(false);
        }
    }
    Ok(true)
}

fn table_holds(
    dict: &Dict,
    table: &TableRow,
    index: &UniqueIndex,
    tables: &PlainTables,
) -> Result<bool, NoMemory>
    requires there { table_of dict.now.tables table.now.id ≡ Some table.now }
    ensures exact { IfOk result (λ holds. holds ≡ rows_hold table.now index.now (rows_by tables.now table.now.id)) }
{
    match tables.table(table.id) {
        None => Ok(true),
        Some(rows) => rows_hold(dict, table, index, rows),
    }
}

/// Each of these tables of the dictionary has rows that rise, of which each fits its table, stands under its own primary
/// key, and has its unique values alone.
pub fn tables_hold(dict: &Dict, tables: &PlainTables, index: &UniqueIndex) -> Result<bool, NoMemory>
    ensures exact { IfOk result (λ hold. hold ≡ tables_hold dict.now.tables tables.now index.now) }
{
    let mut rest = dict.tables();
    while let [table, others @ ..] = rest {
        if !table_holds(dict, table, index, tables)? {
            return Ok(false);
        }
        rest = others;
    }
    Ok(true)
}
