//! Rows and keys as the cells of a change give them.

ghost use Rattle.std.specs.Prelude.{◌≡◌, ◌≢◌, ◌<◌, ◌≤◌, ◌+◌, length, IfOk, OnOk, IsTrue, unwrap_or, Some, None, Option, false};
ghost use Rattle.std.specs.List.{filter_map};
ghost use Rattle.std.specs.Option.{option_copied};
ghost use Rattle.redo_spec.specs.ConflictKeys.{cell_of};
ghost use Rattle.redo_spec.specs.Dictionary.{primary_of, has_bad_keys};
ghost use Rattle.redo_spec.specs.ChangeForm.{change_fault_in};
ghost use Rattle.redo_spec.specs.Effect.{cell_values, with_cells, logged_key, difference};
ghost use Rattle.redo_spec.specs.Tables.{value_in};
ghost use Rattle.rl_value.specs.declared.miss.Miss.TheVariants.{Differs};
ghost use Rattle.redo_vec.specs.Forms.{is_key_columns};
ghost use Rattle.redo_vec.specs.declared.change.Op.TheVariants.{Insert};
ghost use Rattle.row_apply.specs.Outcomes.{OfMiss, OnMiss};

use crate::fault::EffectFault;
use crate::key_values::{holds, value_in};
use redo_vec::{Change, TableRow};
use rl_value::{Cells, Miss, NoMemory, Row, Value};
use std::alloc::Global;

fn cell_at(cells: &[(u8, Value)], column: u8) -> Option<&Value>
    ensures { option_copied result ≡ cell_of cells.now column }
{
    let mut rest = cells;
    while let [(found, value), others @ ..] = rest {
        if *found == column {
            return Some(value);
        }
        rest = others;
    }
    None
}

fn copied_values(alloc: Global, cells: &[(u8, Value)]) -> Result<Vec<Value>, NoMemory>
    ensures { IfOk result (λ values. values.items ≡ cell_values cells.now) }
{
    let Ok(mut values) = Vec::with_capacity(alloc, cells.len()) else {
        return Err(NoMemory);
    };
    for cell in cells {
        let value = cell.1.copy()?;
        if values.push(value).is_err() {
            return Err(NoMemory);
        }
    }
    Ok(values)
}

/// The row of an insert, whose cells are those of all columns.
#[tactic(auto, using(crate::proofs::Shapes::cells_are_row))]
pub fn row_of_cells(alloc: Global, table: &TableRow, cells: &Cells) -> Result<Row, NoMemory>
    requires { length cells.now ≡ length table.now.columns }
    ensures { IfOk result (λ row. row ≡ cell_values cells.now) }
{
    // A table has 1 to 32 columns, so a value for each is a row.
    let _columns = table.columns.items();
    let values = copied_values(alloc, cells.cells())?;
    Ok(Row::of(values))
}

// What the cells say of the column, or else the row.
fn value_after(row: &[Value], cells: &[(u8, Value)], column: u8) -> Result<Value, NoMemory>
    ensures { IfOk result (λ value. value ≡ unwrap_or (cell_of cells.now column) (value_in row.now column)) }
{
    match cell_at(cells, column) {
        Some(value) => value.copy(),
        None => value_in(row, column),
    }
}

fn values_after(
    alloc: Global,
    table: &TableRow,
    row: &[Value],
    cells: &[(u8, Value)],
) -> Result<Vec<Value>, NoMemory>
    ensures { IfOk result (λ values. values.items ≡ with_cells table.now row.now cells.now) }
{
    let mut columns = table.columns.items();
    let Ok(mut values) = Vec::with_capacity(alloc, columns.len()) else {
        return Err(NoMemory);
    };
    let mut column = 0;
    while let [_, more @ ..] = columns {
        let value = value_after(row, cells, column)?;
        if values.push(value).is_err() {
            return Err(NoMemory);
        }
        columns = more;
        column += 1;
    }
    Ok(values)
}

/// The row with the new cells of an update put in.
#[tactic(auto, using(crate::proofs::Shapes::with_cells_is_row))]
pub fn row_with_cells(
    alloc: Global,
    table: &TableRow,
    row: &Row,
    cells: &Cells,
) -> Result<Row, NoMemory>
    ensures { IfOk result (λ after. after ≡ with_cells table.now row.now cells.now) }
{
    // A table has 1 to 32 columns, so a value for each is a row.
    let _columns = table.columns.items();
    let values = values_after(alloc, table, row.values(), cells.cells())?;
    Ok(Row::of(values))
}

fn logged_values(
    alloc: Global,
    columns: &[u8],
    cells: &[(u8, Value)],
) -> Result<Vec<Value>, NoMemory>
    ensures { IfOk result (λ values. values.items ≡ filter_map (cell_of cells.now) columns.now) }
{
    let mut values = Vec::new(alloc);
    let mut rest = columns;
    while let [column, others @ ..] = rest {
        if let Some(value) = cell_at(cells, *column) {
            let value = value.copy()?;
            if values.push(value).is_err() {
                return Err(NoMemory);
            }
        }
        rest = others;
    }
    Ok(values)
}

/// The columns of the table's primary key.
pub fn primary_columns(table: &TableRow) -> &[u8]
    ensures form { IsTrue (is_key_columns (primary_of table.now)) }
    ensures short { length (primary_of table.now) ≤ 32 }
    ensures same { result.now ≡ primary_of table.now }
{
    match table.keys.items() {
        [] => &[],
        [primary, ..] => primary.items(),
    }
}

/// The key of the row that an accepted UPDATE or DELETE was made on, by its old cells.
#[tactic(auto, using(crate::proofs::Logged::logged_is_row))]
pub fn logged_key(alloc: Global, table: &TableRow, change: &Change) -> Result<Row, NoMemory>
    requires keys { has_bad_keys table.now ≡ false }
    requires accepted { change_fault_in table.now change.now ≡ None }
    requires op { change.now.op ≢ Insert }
    ensures { IfOk result (λ key. key ≡ logged_key table.now change.now.old) }
{
    let values = logged_values(alloc, primary_columns(table), change.old.cells())?;
    Ok(Row::of(values))
}

fn differing(row: &[Value], column: u8, logged: &Value) -> EffectFault
    ensures { OfMiss result (λ miss. miss ≡ Differs column logged.now (value_in row.now column)) }
{
    let Ok(logged) = logged.copy() else {
        return EffectFault::Memory;
    };
    let Ok(found) = value_in(row, column) else {
        return EffectFault::Memory;
    };
    EffectFault::Miss(Miss::Differs {
        column,
        logged,
        found,
    })
}

/// Whether the row is as it was logged; else the least column at which it is not.
pub fn check_logged(row: &[Value], cells: &[(u8, Value)]) -> Result<(), EffectFault>
    ensures same { OnOk result (difference row.now cells.now ≡ None) }
    ensures differs { OnMiss result (λ miss. difference row.now cells.now ≡ Some miss) }
{
    let mut rest = cells;
    while let [(column, logged), others @ ..] = rest {
        if !holds(row, *column, logged) {
            return Err(differing(row, *column, logged));
        }
        rest = others;
    }
    Ok(())
}
