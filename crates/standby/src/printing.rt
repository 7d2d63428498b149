//! Prints a fold: APPLIED_SCN, each table in order of id with its rows in order of key, and the END line.
//! Layouts: docs/FORMATS.md, "Printed lines".
ghost use Rattle.std.specs.Prelude.{◌≡◌, ◌++◌, OnOk, IfOk};
ghost use Rattle.std.specs.List.{flat_map};
ghost use Rattle.redo_spec.specs.Lines.{written, fold_lines};
ghost use Rattle.redo_spec.specs.Tables.{rows_by};
ghost use Rattle.primary.specs.Starts.{folded_of};
ghost use Rattle.standby.specs.Printing.{applied_text, row_line, table_line, rows_text, table_text, definitions_shown, end_words, end_text};

use crate::output::{push_bytes, push_decimal, push_number, push_word};
use crate::verdict_words::{push_full_name, push_verdict};
use primary::{Folded, PlainTables};
use redo_vec::TableRow;
use rl_base::Line;
use rl_text::put_row;
use rl_value::{NoMemory, Row};
use std::alloc::Global;

fn push_applied(alloc: Global, out: &mut Vec<u8>, scn: u64) -> Result<(), NoMemory>
    ensures { OnOk result (out.new.items ≡ out.old.items ++ applied_text scn) }
{
    push_bytes(out, b"APPLIED_SCN ")?;
    push_decimal(alloc, out, scn)?;
    push_bytes(out, b"\n")
}

fn push_row(alloc: Global, out: &mut Vec<u8>, row: &Row) -> Result<(), NoMemory>
    ensures { OnOk result (out.new.items ≡ out.old.items ++ row_line row.now) }
{
    let mut text = Line::new(alloc);
    put_row(alloc, &mut text, row)?;
    push_bytes(out, b"ROW")?;
    push_word(out, text.items())?;
    push_bytes(out, b"\n")
}

fn push_table_line(
    alloc: Global,
    out: &mut Vec<u8>,
    table: &TableRow,
    count: u64,
) -> Result<(), NoMemory>
    ensures { OnOk result (out.new.items ≡ out.old.items ++ table_line table.now count) }
{
    push_bytes(out, b"TABLE ")?;
    push_full_name(out, table)?;
    push_number(alloc, out, count)?;
    push_bytes(out, b"\n")
}

#[tactic(auto, using(crate::proofs::Lines::lines_of_rows))]
fn push_rows(
    alloc: Global,
    out: &mut Vec<u8>,
    tables: &PlainTables,
    table: u32,
) -> Result<(), NoMemory>
    ensures { OnOk result (out.new.items ≡ out.old.items ++ rows_text (rows_by tables.now table)) }
{
    for row in tables.rows(table) {
        push_row(alloc, out, row)?;
    }
    Ok(())
}

fn push_table(
    alloc: Global,
    out: &mut Vec<u8>,
    tables: &PlainTables,
    table: &TableRow,
) -> Result<(), NoMemory>
    ensures { OnOk result (out.new.items ≡ out.old.items ++ table_text tables.now table.now) }
{
    push_table_line(alloc, out, table, tables.count(table.id) as u64)?;
    push_rows(alloc, out, tables, table.id)
}

fn push_tables(
    alloc: Global,
    out: &mut Vec<u8>,
    tables: &PlainTables,
    definitions: &[TableRow],
) -> Result<(), NoMemory>
    ensures { OnOk result (out.new.items ≡ out.old.items ++ flat_map (table_text tables.now) definitions.now) }
{
    for table in definitions {
        push_table(alloc, out, tables, table)?;
    }
    Ok(())
}

// The tables that are shown. Where the dictionary was not whole it names tables on the END line alone.
fn shown_tables(folded: &Folded) -> &[TableRow]
    ensures { result.now ≡ definitions_shown folded.now.whole folded.now.dict.tables }
{
    if folded.whole {
        folded.dict.tables()
    } else {
        &[]
    }
}

// The words of the END line.
fn push_end_words(alloc: Global, out: &mut Vec<u8>, folded: &Folded) -> Result<(), NoMemory>
    ensures { OnOk result (out.new.items ≡ out.old.items ++
        end_words folded.now.dict.tables folded.now.scn folded.now.n folded.now.end) }
{
    push_bytes(out, b"END")?;
    push_number(alloc, out, folded.scn)?;
    push_number(alloc, out, folded.n)?;
    push_verdict(alloc, out, &folded.dict, &folded.end)
}

fn push_end(alloc: Global, out: &mut Vec<u8>, folded: &Folded) -> Result<(), NoMemory>
    ensures { OnOk result (out.new.items ≡ out.old.items ++
        end_text folded.now.dict.tables folded.now.scn folded.now.n folded.now.end) }
{
    push_end_words(alloc, out, folded)?;
    push_bytes(out, b"\n")
}

/// The lines of the fold.
pub fn text_of(alloc: Global, folded: &Folded) -> Result<Vec<u8>, NoMemory>
    ensures { IfOk result (λ text. text.items ≡ written (fold_lines (folded_of folded.now))) }
{
    let mut out = Vec::new(alloc);
    push_applied(alloc, &mut out, folded.scn)?;
    push_tables(alloc, &mut out, &folded.tables, shown_tables(folded))?;
    push_end(alloc, &mut out, folded)?;
    Ok(out)
}
