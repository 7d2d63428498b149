//! Lists of cells in a statement: columns, values, what is set, and by what a row is found.
ghost use Rattle.std.specs.Prelude.{◌≡◌, ◌++◌, OnOk, codes, unwrap_or};
ghost use Rattle.redo_spec.specs.ChangeForm.{has_cell};
ghost use Rattle.redo_spec.specs.ConflictKeys.{cell_of, is_null};
ghost use Rattle.sql_text.specs.SqlText.{column_text, expression, followed, assignment, condition, column_list, value_list, assignments, conditions, set_back, found_after};

use crate::expression::{push_column, push_value};
use crate::output::push_bytes;
use redo_vec::TableRow;
use rl_value::{NoMemory, Value};

fn push_columns_behind(
    out: &mut Vec<u8>,
    table: &TableRow,
    cells: &[(u8, Value)],
) -> Result<(), NoMemory>
    ensures { OnOk result (out.new.items ≡ out.old.items
        ++ followed (codes ",") (column_text table.now) cells.now) }
{
    for cell in cells {
        push_bytes(out, b",")?;
        push_column(out, table, cell.0)?;
    }
    Ok(())
}

/// Puts the columns of these cells.
pub(crate) fn push_columns(
    out: &mut Vec<u8>,
    table: &TableRow,
    cells: &[(u8, Value)],
) -> Result<(), NoMemory>
    ensures { OnOk result (out.new.items ≡ out.old.items ++ column_list table.now cells.now) }
{
    match cells {
        [] => Ok(()),
        [first, others @ ..] => {
            push_column(out, table, first.0)?;
            push_columns_behind(out, table, others)
        }
    }
}

fn push_values_behind(out: &mut Vec<u8>, cells: &[(u8, Value)]) -> Result<(), NoMemory>
    ensures { OnOk result (out.new.items ≡ out.old.items
        ++ followed (codes ",") (λ cell. expression cell.1) cells.now) }
{
    for cell in cells {
        push_bytes(out, b",")?;
        push_value(out, &cell.1)?;
    }
    Ok(())
}

/// Puts the values of these cells.
pub(crate) fn push_values(out: &mut Vec<u8>, cells: &[(u8, Value)]) -> Result<(), NoMemory>
    ensures { OnOk result (out.new.items ≡ out.old.items ++ value_list cells.now) }
{
    match cells {
        [] => Ok(()),
        [first, others @ ..] => {
            push_value(out, &first.1)?;
            push_values_behind(out, others)
        }
    }
}

fn push_assignment(
    out: &mut Vec<u8>,
    table: &TableRow,
    column: u8,
    value: &Value,
) -> Result<(), NoMemory>
    ensures { OnOk result (out.new.items ≡ out.old.items ++ assignment table.now (column, value.now)) }
{
    push_column(out, table, column)?;
    push_bytes(out, b" = ")?;
    push_value(out, value)
}

fn push_assignments_behind(
    out: &mut Vec<u8>,
    table: &TableRow,
    cells: &[(u8, Value)],
) -> Result<(), NoMemory>
    ensures { OnOk result (out.new.items ≡ out.old.items
        ++ followed (codes ", ") (assignment table.now) cells.now) }
{
    for cell in cells {
        push_bytes(out, b", ")?;
        push_assignment(out, table, cell.0, &cell.1)?;
    }
    Ok(())
}

/// Puts what these cells set.
pub(crate) fn push_assignments(
    out: &mut Vec<u8>,
    table: &TableRow,
    cells: &[(u8, Value)],
) -> Result<(), NoMemory>
    ensures { OnOk result (out.new.items ≡ out.old.items ++ assignments table.now cells.now) }
{
    match cells {
        [] => Ok(()),
        [first, others @ ..] => {
            push_assignment(out, table, first.0, &first.1)?;
            push_assignments_behind(out, table, others)
        }
    }
}

fn is_null(value: &Value) -> bool
    ensures { result ≡ is_null value.now }
{
    matches!(value, Value::Null)
}

fn push_condition(
    out: &mut Vec<u8>,
    table: &TableRow,
    column: u8,
    value: &Value,
) -> Result<(), NoMemory>
    ensures { OnOk result (out.new.items ≡ out.old.items ++ condition table.now (column, value.now)) }
{
    if is_null(value) {
        push_column(out, table, column)?;
        push_bytes(out, b" IS NULL")
    } else {
        push_assignment(out, table, column, value)
    }
}

fn push_conditions_behind(
    out: &mut Vec<u8>,
    table: &TableRow,
    cells: &[(u8, Value)],
) -> Result<(), NoMemory>
    ensures { OnOk result (out.new.items ≡ out.old.items
        ++ followed (codes " and ") (condition table.now) cells.now) }
{
    for cell in cells {
        push_bytes(out, b" and ")?;
        push_condition(out, table, cell.0, &cell.1)?;
    }
    Ok(())
}

/// Puts that the columns of these cells have their values.
pub(crate) fn push_conditions(
    out: &mut Vec<u8>,
    table: &TableRow,
    cells: &[(u8, Value)],
) -> Result<(), NoMemory>
    ensures { OnOk result (out.new.items ≡ out.old.items ++ conditions table.now cells.now) }
{
    match cells {
        [] => Ok(()),
        [first, others @ ..] => {
            push_condition(out, table, first.0, &first.1)?;
            push_conditions_behind(out, table, others)
        }
    }
}

// Whether the cells have one of this column.
fn has_cell(cells: &[(u8, Value)], column: u8) -> bool
    ensures { result ≡ has_cell cells.now column }
{
    cells.iter().any(|cell| cell.0 == column)
}

fn push_set_back_behind(
    out: &mut Vec<u8>,
    table: &TableRow,
    old: &[(u8, Value)],
    new: &[(u8, Value)],
) -> Result<(), NoMemory>
    ensures { OnOk result (out.new.items ≡ out.old.items
        ++ followed (codes ", ") (assignment table.now) (set_back old.now new.now)) }
{
    let mut rest = old;
    while let [cell, others @ ..] = rest {
        if has_cell(new, cell.0) {
            push_bytes(out, b", ")?;
            push_assignment(out, table, cell.0, &cell.1)?;
        }
        rest = others;
    }
    Ok(())
}

/// Puts the old values of the columns that are set.
pub(crate) fn push_set_back(
    out: &mut Vec<u8>,
    table: &TableRow,
    old: &[(u8, Value)],
    new: &[(u8, Value)],
) -> Result<(), NoMemory>
    ensures { OnOk result (out.new.items ≡ out.old.items ++ assignments table.now (set_back old.now new.now)) }
{
    let mut rest = old;
    while let [cell, others @ ..] = rest {
        if has_cell(new, cell.0) {
            push_assignment(out, table, cell.0, &cell.1)?;
            return push_set_back_behind(out, table, others, new);
        }
        rest = others;
    }
    Ok(())
}

// The value that the cells give for the column, or else this one.
fn value_after<'a>(new: &'a [(u8, Value)], column: u8, value: &'a Value) -> &'a Value
    ensures { result.now ≡ unwrap_or (cell_of new.now column) value.now }
{
    let mut rest = new;
    while let [cell, others @ ..] = rest {
        if cell.0 == column {
            return &cell.1;
        }
        rest = others;
    }
    value
}

fn push_found_after_behind(
    out: &mut Vec<u8>,
    table: &TableRow,
    old: &[(u8, Value)],
    new: &[(u8, Value)],
) -> Result<(), NoMemory>
    ensures { OnOk result (out.new.items ≡ out.old.items
        ++ followed (codes " and ") (condition table.now) (found_after old.now new.now)) }
{
    for cell in old {
        push_bytes(out, b" and ")?;
        push_condition(out, table, cell.0, value_after(new, cell.0, &cell.1))?;
    }
    Ok(())
}

/// Puts that the old columns have the values after the change.
pub(crate) fn push_found_after(
    out: &mut Vec<u8>,
    table: &TableRow,
    old: &[(u8, Value)],
    new: &[(u8, Value)],
) -> Result<(), NoMemory>
    ensures { OnOk result (out.new.items ≡ out.old.items ++ conditions table.now (found_after old.now new.now)) }
{
    match old {
        [] => Ok(()),
        [first, others @ ..] => {
            let value = value_after(new, first.0, &first.1);
            push_condition(out, table, first.0, value)?;
            push_found_after_behind(out, table, others, new)
        }
    }
}
