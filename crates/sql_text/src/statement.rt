//! SQL_REDO and SQL_UNDO: the statement that makes a change again, and the one that takes it back.
ghost use Rattle.std.specs.Prelude.{◌≡◌, ◌++◌, OnOk, IfOk};
ghost use Rattle.sql_text.specs.SqlText.{set_back, found_after, insert_head, insert_columns, insert_text, delete_head, delete_text, update_head, update_set, update_text, redo_text, undo_text, sql_redo, sql_undo};

use crate::expression::push_table;
use crate::lists::{
    push_assignments, push_columns, push_conditions, push_found_after, push_set_back, push_values,
};
use crate::output::push_bytes;
use redo_dict::Dict;
use redo_vec::{Change, Op, TableRow};
use rl_value::{Bytes, NoMemory, Value};
use std::alloc::Global;

fn push_insert_head(out: &mut Vec<u8>, table: &TableRow) -> Result<(), NoMemory>
    ensures { OnOk result (out.new.items ≡ out.old.items ++ insert_head table.now) }
{
    push_bytes(out, b"insert into ")?;
    push_table(out, table)?;
    push_bytes(out, b"(")
}

fn push_insert_columns(
    out: &mut Vec<u8>,
    table: &TableRow,
    cells: &[(u8, Value)],
) -> Result<(), NoMemory>
    ensures { OnOk result (out.new.items ≡ out.old.items ++ insert_columns table.now cells.now) }
{
    push_insert_head(out, table)?;
    push_columns(out, table, cells)
}

fn push_insert(out: &mut Vec<u8>, table: &TableRow, cells: &[(u8, Value)]) -> Result<(), NoMemory>
    ensures { OnOk result (out.new.items ≡ out.old.items ++ insert_text table.now cells.now) }
{
    push_insert_columns(out, table, cells)?;
    push_bytes(out, b") values (")?;
    push_values(out, cells)?;
    push_bytes(out, b");")
}

fn push_delete_head(out: &mut Vec<u8>, table: &TableRow) -> Result<(), NoMemory>
    ensures { OnOk result (out.new.items ≡ out.old.items ++ delete_head table.now) }
{
    push_bytes(out, b"delete from ")?;
    push_table(out, table)?;
    push_bytes(out, b" where ")
}

fn push_delete(out: &mut Vec<u8>, table: &TableRow, cells: &[(u8, Value)]) -> Result<(), NoMemory>
    ensures { OnOk result (out.new.items ≡ out.old.items ++ delete_text table.now cells.now) }
{
    push_delete_head(out, table)?;
    push_conditions(out, table, cells)?;
    push_bytes(out, b";")
}

fn push_update_head(out: &mut Vec<u8>, table: &TableRow) -> Result<(), NoMemory>
    ensures { OnOk result (out.new.items ≡ out.old.items ++ update_head table.now) }
{
    push_bytes(out, b"update ")?;
    push_table(out, table)?;
    push_bytes(out, b" set ")
}

fn push_update_set(out: &mut Vec<u8>, table: &TableRow, set: &[(u8, Value)]) -> Result<(), NoMemory>
    ensures { OnOk result (out.new.items ≡ out.old.items ++ update_set table.now set.now) }
{
    push_update_head(out, table)?;
    push_assignments(out, table, set)?;
    push_bytes(out, b" where ")
}

fn push_update(
    out: &mut Vec<u8>,
    table: &TableRow,
    set: &[(u8, Value)],
    found: &[(u8, Value)],
) -> Result<(), NoMemory>
    ensures { OnOk result (out.new.items ≡ out.old.items ++ update_text table.now set.now found.now) }
{
    push_update_set(out, table, set)?;
    push_conditions(out, table, found)?;
    push_bytes(out, b";")
}

fn push_update_set_back(
    out: &mut Vec<u8>,
    table: &TableRow,
    old: &[(u8, Value)],
    new: &[(u8, Value)],
) -> Result<(), NoMemory>
    ensures { OnOk result (out.new.items ≡ out.old.items ++ update_set table.now (set_back old.now new.now)) }
{
    push_update_head(out, table)?;
    push_set_back(out, table, old, new)?;
    push_bytes(out, b" where ")
}

// The update that takes back the one from the old cells to the new ones.
fn push_update_back(
    out: &mut Vec<u8>,
    table: &TableRow,
    old: &[(u8, Value)],
    new: &[(u8, Value)],
) -> Result<(), NoMemory>
    ensures { OnOk result (out.new.items ≡ out.old.items
        ++ update_text table.now (set_back old.now new.now) (found_after old.now new.now)) }
{
    push_update_set_back(out, table, old, new)?;
    push_found_after(out, table, old, new)?;
    push_bytes(out, b";")
}

/// Puts the SQL_REDO of a change of this table.
pub(crate) fn push_redo(
    out: &mut Vec<u8>,
    table: &TableRow,
    change: &Change,
) -> Result<(), NoMemory>
    ensures { OnOk result (out.new.items ≡ out.old.items
        ++ redo_text table.now change.now.op change.now.old change.now.new) }
{
    match change.op {
        Op::Insert => push_insert(out, table, change.new.cells()),
        Op::Update => push_update(out, table, change.new.cells(), change.old.cells()),
        Op::Delete => push_delete(out, table, change.old.cells()),
    }
}

/// Puts the SQL_UNDO of a change of this table.
pub(crate) fn push_undo(
    out: &mut Vec<u8>,
    table: &TableRow,
    change: &Change,
) -> Result<(), NoMemory>
    ensures { OnOk result (out.new.items ≡ out.old.items
        ++ undo_text table.now change.now.op change.now.old change.now.new) }
{
    match change.op {
        Op::Insert => push_delete(out, table, change.new.cells()),
        Op::Update => push_update_back(out, table, change.old.cells(), change.new.cells()),
        Op::Delete => push_insert(out, table, change.old.cells()),
    }
}

/// The statement that makes a change again; none of a table that the dictionary has not.
pub fn sql_redo(alloc: Global, dict: &Dict, change: &Change) -> Result<Bytes, NoMemory>
    ensures value { IfOk result (λ text. text ≡ sql_redo dict.now.tables change.now) }
{
    let mut out = Vec::new(alloc);
    match dict.def(change.table) {
        Some(table) => {
            push_redo(&mut out, table, change)?;
            Ok(Bytes::of(out))
        }
        None => Ok(Bytes::of(out)),
    }
}

/// The statement that takes a change back; none of a table that the dictionary has not.
pub fn sql_undo(alloc: Global, dict: &Dict, change: &Change) -> Result<Bytes, NoMemory>
    ensures value { IfOk result (λ text. text ≡ sql_undo dict.now.tables change.now) }
{
    let mut out = Vec::new(alloc);
    match dict.def(change.table) {
        Some(table) => {
            push_undo(&mut out, table, change)?;
            Ok(Bytes::of(out))
        }
        None => Ok(Bytes::of(out)),
    }
}
