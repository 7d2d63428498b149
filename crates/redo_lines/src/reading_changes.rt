//! Reads a change of a row: its transaction, its table, and its cells behind OLD and NEW.
ghost use Rattle.std.specs.Prelude.{◌≡◌, ◌≤◌, length, Ok, Err, IsTrue, codes};
ghost use Rattle.rl_value.specs.Text.{are_cells, columns_rise};
ghost use Rattle.line_fields.specs.Given.{Gives};
ghost use Rattle.redo_lines.specs.Reading.{items_until, is_new, at_end, cell_of_parts, cell_said, cells_if_rising, cells_said, cells_behind, change_of_cells, change_said};

use line_fields::{
    LineFault, ReadFault, column_of, columns_known, is_word, split, table_of, value_of, xid_of,
};
use redo_vec::{Change, Column, Op, TableRow};
use rl_value::{Bytes, Cells, MAX_COLUMNS, Value, Xid};
use std::alloc::Global;

#[tactic(auto, unfolding(crate::specs::Reading::cell_of_parts))]
fn cell_of_parts(
    alloc: Global,
    columns: &[Column],
    parts: &[Bytes],
) -> Result<(u8, Value), ReadFault>
    requires { length columns.now ≤ 32 }
    ensures { Gives (λ x. x) result (cell_of_parts columns.now parts.now) }
{
    match parts {
        [column, value] => {
            let column = column_of(columns, column.bytes())?;
            let value = value_of(alloc, value.bytes())?;
            Ok((column, value))
        }
        _ => Err(ReadFault::Line(LineFault::Words)),
    }
}

#[tactic(auto, unfolding(crate::specs::Reading::cell_said))]
fn cell_of(alloc: Global, columns: &[Column], word: &[u8]) -> Result<(u8, Value), ReadFault>
    requires { length columns.now ≤ 32 }
    ensures { Gives (λ x. x) result (cell_said columns.now word.now) }
{
    let parts = split(alloc, b'=', word)?;
    cell_of_parts(alloc, columns, parts.as_slice())
}

fn is_new(word: &[u8]) -> bool
    ensures { result ≡ is_new word.now }
{
    is_word(word, b"NEW")
}

// Cells up to the word NEW, and the words from it on.
fn cell_list<'a>(
    alloc: Global,
    columns: &[Column],
    words: &'a [Bytes],
) -> Result<(Vec<(u8, Value)>, &'a [Bytes]), ReadFault>
    requires { length columns.now ≤ 32 }
    ensures { Gives (λ x. (x.0.items, x.1.now)) result (items_until is_new (cell_said columns.now) words.now) }
{
    let mut cells = Vec::new(alloc);
    let mut rest = words;
    while let [word, others @ ..] = rest {
        if is_new(word.bytes()) {
            return Ok((cells, rest));
        }
        let cell = cell_of(alloc, columns, word.bytes())?;
        cells.push(cell)?;
        rest = others;
    }
    Ok((cells, rest))
}

// Whether columns rise, and are below 32.
fn are_rising(cells: &[(u8, Value)]) -> bool
    ensures { result ≡ are_cells cells.now }
{
    let mut from = 0u8;
    let mut rest = cells;
    while let [cell, others @ ..] = rest {
        if cell.0 < from || cell.0 as usize >= MAX_COLUMNS {
            return false;
        }
        from = cell.0 + 1;
        rest = others;
    }
    true
}

#[tactic(auto, unfolding(crate::specs::Reading::cells_said))]
fn cells_of<'a>(
    alloc: Global,
    columns: &[Column],
    words: &'a [Bytes],
) -> Result<(Cells, &'a [Bytes]), ReadFault>
    requires { length columns.now ≤ 32 }
    ensures { Gives (λ x. (x.0, x.1.now)) result (cells_said columns.now words.now) }
{
    let (cells, rest) = cell_list(alloc, columns, words)?;
    if cells.is_empty() {
        return Err(ReadFault::Line(LineFault::Words));
    }
    if !are_rising(cells.as_slice()) {
        return Err(ReadFault::Line(LineFault::Columns));
    }
    Ok((Cells::of(cells), rest))
}

// The cells behind this keyword, or none where it is not there.
#[tactic(auto, unfolding(crate::specs::Reading::cells_behind))]
fn cells_behind<'a>(
    alloc: Global,
    keyword: &[u8],
    columns: &[Column],
    words: &'a [Bytes],
) -> Result<(Cells, &'a [Bytes]), ReadFault>
    requires { length columns.now ≤ 32 }
    ensures { Gives (λ x. (x.0, x.1.now)) result (cells_behind keyword.now columns.now words.now) }
{
    match words {
        [] => Ok((Cells::of(Vec::new(alloc)), words)),
        [word, others @ ..] => {
            if is_word(word.bytes(), keyword) {
                return cells_of(alloc, columns, others);
            }
            Ok((Cells::of(Vec::new(alloc)), words))
        }
    }
}

#[tactic(auto, unfolding(crate::specs::Reading::change_of_cells))]
fn change_of_cells(
    alloc: Global,
    op: Op,
    xid: Xid,
    table: u32,
    columns: &[Column],
    words: &[Bytes],
) -> Result<Change, ReadFault>
    requires { length columns.now ≤ 32 }
    ensures { Gives (λ x. x) result (change_of_cells op xid table columns.now words.now) }
{
    let (old, rest) = cells_behind(alloc, b"OLD", columns, words)?;
    let (new, rest) = cells_behind(alloc, b"NEW", columns, rest)?;
    if !rest.is_empty() {
        return Err(ReadFault::Line(LineFault::Words));
    }
    Ok(Change {
        xid,
        op,
        table,
        old,
        new,
    })
}

#[tactic(auto, unfolding(crate::specs::Reading::change_said))]
pub(crate) fn change_of(
    alloc: Global,
    tables: &[TableRow],
    op: Op,
    words: &[Bytes],
) -> Result<Change, ReadFault>
    ensures { Gives (λ x. x) result (change_said tables.now op words.now) }
{
    match words {
        [xid, table, others @ ..] => {
            let xid = xid_of(xid.bytes())?;
            let table = table_of(alloc, tables, table.bytes())?;
            let columns = columns_known(tables, table);
            change_of_cells(alloc, op, xid, table, columns, others)
        }
        _ => Err(ReadFault::Line(LineFault::Words)),
    }
}
