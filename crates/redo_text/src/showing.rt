//! Prints a log as a text: its header, and record by record with the tables that are known so far.
//!
//! What is printed of a log as a whole is written as the same log (`a_shown_log_is_said`).
ghost use Rattle.std.specs.Prelude.{◌≡◌, ◌++◌, ◌∷◌, [], IfOk, OnOk, codes};
ghost use Rattle.std.specs.Fmt.{decimal};
ghost use Rattle.line_fields.specs.Known.{known_after};
ghost use Rattle.redo_lines.specs.Printing.{line_of_vector};
ghost use Rattle.redo_text.specs.Showing.{with_end, number_line, heading_text, vectors_text, known_behind, record_text};

use redo_lines::{decimal_of, joined_two, note_vector, print_vector, push_bytes};
use redo_spec::Header;
use redo_vec::{RedoRec, TableRow, Vector};
use rl_value::NoMemory;
use std::alloc::Global;

fn push_line(out: &mut Vec<u8>, line: &[u8]) -> Result<(), NoMemory>
    ensures { OnOk result (out.new.items ≡ out.old.items ++ with_end line.now) }
{
    push_bytes(out, line)?;
    push_bytes(out, b"\n")
}

fn push_number(
    alloc: Global,
    out: &mut Vec<u8>,
    keyword: &[u8],
    number: u64,
) -> Result<(), NoMemory>
    ensures { OnOk result (out.new.items ≡ out.old.items ++ with_end (number_line keyword.now number)) }
{
    let number = decimal_of(alloc, number)?;
    let line = joined_two(alloc, b' ', keyword, number.as_slice())?;
    push_line(out, line.as_slice())
}

fn push_range(alloc: Global, out: &mut Vec<u8>, head: Header) -> Result<(), NoMemory>
    ensures { OnOk result (out.new.items ≡ out.old.items
        ++ (with_end (number_line (codes "FIRST") head.first) ++ with_end (number_line (codes "NEXT") head.next))) }
{
    push_number(alloc, out, b"FIRST", head.first)?;
    push_number(alloc, out, b"NEXT", head.next)
}

fn push_names(alloc: Global, out: &mut Vec<u8>, head: Header) -> Result<(), NoMemory>
    ensures { OnOk result (out.new.items ≡ out.old.items
        ++ (with_end (number_line (codes "LOG") head.seq) ++ with_end (number_line (codes "DBID") head.dbid))) }
{
    push_number(alloc, out, b"LOG", u64::from(head.seq))?;
    push_number(alloc, out, b"DBID", u64::from(head.dbid))
}

/// The lines of a log's header.
#[tactic(auto, unfolding(crate::specs::Showing::heading_text))]
pub fn show_header(alloc: Global, head: Header) -> Result<Vec<u8>, NoMemory>
    ensures shown { IfOk result (λ text. text.items ≡ heading_text head) }
{
    let mut out = Vec::new(alloc);
    push_names(alloc, &mut out, head)?;
    push_range(alloc, &mut out, head)?;
    Ok(out)
}

fn push_vector(
    alloc: Global,
    tables: &mut Vec<TableRow>,
    out: &mut Vec<u8>,
    vector: &Vector,
) -> Result<(), NoMemory>
    ensures shown { OnOk result (out.new.items ≡ out.old.items ++ with_end (line_of_vector tables.old.items vector.now)) }
    ensures known { OnOk result (tables.new.items ≡ known_after tables.old.items vector.now) }
{
    let line = print_vector(alloc, tables.as_slice(), vector)?;
    push_line(out, line.as_slice())?;
    note_vector(tables, vector)
}

fn push_vectors(
    alloc: Global,
    tables: &mut Vec<TableRow>,
    out: &mut Vec<u8>,
    vectors: &[Vector],
) -> Result<(), NoMemory>
    ensures shown { OnOk result (out.new.items ≡ out.old.items ++ vectors_text tables.old.items vectors.now) }
    ensures known { OnOk result (tables.new.items ≡ known_behind tables.old.items vectors.now) }
{
    let mut rest = vectors;
    while let [vector, others @ ..] = rest {
        push_vector(alloc, tables, out, vector)?;
        rest = others;
    }
    Ok(())
}

/// The lines of a record, where these tables are known; those that it says are known behind it.
#[tactic(auto, unfolding(crate::specs::Showing::record_text))]
pub fn show_record(
    alloc: Global,
    tables: &mut Vec<TableRow>,
    rec: &RedoRec,
) -> Result<Vec<u8>, NoMemory>
    ensures shown { IfOk result (λ text. text.items ≡ record_text tables.old.items rec.now) }
    ensures known { OnOk result (tables.new.items ≡ known_behind tables.old.items rec.now.vectors) }
{
    let mut out = Vec::new(alloc);
    push_number(alloc, &mut out, b"RECORD", rec.scn)?;
    push_vectors(alloc, tables, &mut out, rec.vectors.items())?;
    Ok(out)
}
