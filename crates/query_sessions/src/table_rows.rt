//! The rows of one table as a query wants them: how many there are, all of them, or the one of a key.
//!
//! The count stands beside the table, and a key costs a look-up. A table that is not there has no row.
ghost use Rattle.std.specs.Prelude.{◌≡◌, ◌++◌, ◌∷◌, [], IfOk, OnOk, length};
ghost use Rattle.std.specs.Option.{option_copied};
ghost use Rattle.redo_spec.specs.Work.{row_at};
ghost use Rattle.query_sessions.specs.Answers.{rows_in, row_of_key};

use rl_value::{Key, NoMemory, Row};
use row_apply::Rows;
use std::alloc::Global;
use table_store::Tables;

/// How many rows the table has.
#[tactic(auto, using(crate::proofs::Finding::as_many_rows))]
pub(crate) fn count_rows(tables: &Tables, table: u32) -> u64
    ensures exact { result ≡ length (rows_in tables.now.tables table) }
{
    tables.count_of(table)
}

fn push_copy(rows: &mut Vec<Row>, row: &Row) -> Result<(), NoMemory>
    ensures { OnOk result (rows.new.items ≡ rows.old.items ++ row.now ∷ []) }
{
    let copy = row.copy()?;
    match rows.push(copy) {
        Ok(()) => Ok(()),
        Err(_) => Err(NoMemory),
    }
}

/// Copies of all rows of the table, in order of their keys, with room for so many at first.
pub(crate) fn all_rows(
    alloc: Global,
    tables: &Tables,
    table: u32,
    room: u64,
) -> Result<Vec<Row>, NoMemory>
    ensures exact { IfOk result (λ rows. rows.items ≡ rows_in tables.now.tables table) }
{
    let Ok(mut rows) = Vec::with_capacity(alloc, room as usize) else {
        return Err(NoMemory);
    };
    for row in tables.rows(table) {
        push_copy(&mut rows, row)?;
    }
    Ok(rows)
}

// The row at a primary key. The rows are asked of tables that are there alone.
fn row_at<'a>(tables: &'a Tables, key: &Key) -> Option<&'a Row>
    requires primary { key.now.index ≡ 0 }
    ensures found { option_copied result ≡ row_at tables.now.tables key.now }
{
    match tables.dict().def(key.table) {
        None => None,
        Some(_) => tables.get(key),
    }
}

fn one_row(alloc: Global, row: &Row) -> Result<Vec<Row>, NoMemory>
    ensures { IfOk result (λ rows. rows.items ≡ row.now ∷ []) }
{
    let mut rows = Vec::new(alloc);
    push_copy(&mut rows, row)?;
    Ok(rows)
}

/// A copy of the row of the table that has this primary key, or no row.
pub(crate) fn key_rows(
    alloc: Global,
    tables: &Tables,
    table: u32,
    key: &Row,
) -> Result<Vec<Row>, NoMemory>
    ensures exact { IfOk result (λ rows. rows.items ≡ row_of_key tables.now.tables table key.now) }
{
    let values = key.copy()?;
    let sought = Key {
        table,
        index: 0,
        values,
    };
    match row_at(tables, &sought) {
        None => Ok(Vec::new(alloc)),
        Some(row) => one_row(alloc, row),
    }
}
