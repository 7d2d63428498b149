//! Prints a change of a row: its cells with the names of their columns.
ghost use Rattle.std.specs.Prelude.{◌≡◌, ◌≤◌, ◌∷◌, ◌++◌, [], length, IfOk, OnOk, codes, map};
ghost use Rattle.rl_value.specs.Literal.{literal, xid_text};
ghost use Rattle.line_fields.specs.Known.{table_word, columns_known};
ghost use Rattle.redo_lines.specs.Printing.{cell_word, cell_words, cells_words, op_word, change_words};

use crate::printing::{put_id, put_keyword};
use line_fields::{column_word, columns_known, joined_two, push_part, table_word};
use redo_vec::{Change, Column, Op, TableRow};
use rl_base::Line;
use rl_text::put_value;
use rl_value::{Bytes, NoMemory, Value};
use std::alloc::Global;

/// The literal of a value.
pub(crate) fn literal_of(alloc: Global, value: &Value) -> Result<Vec<u8>, NoMemory>
    ensures { IfOk result (λ bytes. bytes.items ≡ literal value.now) }
{
    let mut line = Line::new(alloc);
    put_value(alloc, &mut line, value)?;
    Ok(line.into_items())
}

fn cell_word(
    alloc: Global,
    columns: &[Column],
    column: u8,
    value: &Value,
) -> Result<Vec<u8>, NoMemory>
    requires { length columns.now ≤ 32 }
    ensures { IfOk result (λ word. word.items ≡ cell_word columns.now (column, value.now)) }
{
    let column = column_word(alloc, columns, column)?;
    let value = literal_of(alloc, value)?;
    joined_two(alloc, b'=', column.as_slice(), value.as_slice())
}

fn put_cell_words(
    alloc: Global,
    words: &mut Vec<Bytes>,
    columns: &[Column],
    cells: &[(u8, Value)],
) -> Result<(), NoMemory>
    requires { length columns.now ≤ 32 }
    ensures { OnOk result (words.new.items ≡ words.old.items ++ cell_words columns.now cells.now) }
{
    for cell in cells {
        let word = cell_word(alloc, columns, cell.0, &cell.1)?;
        push_part(words, word)?;
    }
    Ok(())
}

fn put_cells(
    alloc: Global,
    words: &mut Vec<Bytes>,
    keyword: &[u8],
    columns: &[Column],
    cells: &[(u8, Value)],
) -> Result<(), NoMemory>
    requires { length columns.now ≤ 32 }
    ensures { OnOk result (words.new.items ≡ words.old.items ++ cells_words keyword.now columns.now cells.now) }
{
    match cells {
        [] => Ok(()),
        [_, ..] => {
            put_keyword(alloc, words, keyword)?;
            put_cell_words(alloc, words, columns, cells)
        }
    }
}

fn put_op(alloc: Global, words: &mut Vec<Bytes>, op: Op) -> Result<(), NoMemory>
    ensures { OnOk result (words.new.items ≡ words.old.items ++ op_word op ∷ []) }
{
    match op {
        Op::Insert => put_keyword(alloc, words, b"INSERT"),
        Op::Update => put_keyword(alloc, words, b"UPDATE"),
        Op::Delete => put_keyword(alloc, words, b"DELETE"),
    }
}

// The keyword, the transaction and the table.
fn head_words(alloc: Global, tables: &[TableRow], change: &Change) -> Result<Vec<Bytes>, NoMemory>
    ensures { IfOk result (λ words. words.items
        ≡ op_word change.now.op ∷ xid_text change.now.xid ∷ table_word tables.now change.now.table ∷ []) }
{
    let mut words = Vec::new(alloc);
    put_op(alloc, &mut words, change.op)?;
    put_id(alloc, &mut words, change.xid)?;
    let table = table_word(alloc, tables, change.table)?;
    push_part(&mut words, table)?;
    Ok(words)
}

/// The words of a change.
pub(crate) fn change_words(
    alloc: Global,
    tables: &[TableRow],
    change: &Change,
) -> Result<Vec<Bytes>, NoMemory>
    ensures { IfOk result (λ words. words.items ≡ change_words tables.now change.now) }
{
    let columns = columns_known(tables, change.table);
    let mut words = head_words(alloc, tables, change)?;
    put_cells(alloc, &mut words, b"OLD", columns, change.old.cells())?;
    put_cells(alloc, &mut words, b"NEW", columns, change.new.cells())?;
    Ok(words)
}
