//! Tables, changes and records of these tests, from lines as the text of a log has them.
ghost use Rattle.std.specs.Prelude.{◌≡◌, ◌≤◌, length, true};

use redo_dict::Dict;
use redo_lines::read_vector;
use redo_vec::{Change, RedoRec, TableRow, Vector, Vectors};
use std::alloc::Global;
use std::test::Fail;

/// ID is the primary key, and CODE, which may be Null, a unique one.
pub(crate) const CODED: &str = "TABLE 1 T.A COLUMNS ID:NUMBER CODE:NUMBER:NULL KEY ID UNIQUE CODE";

/// The vector of a line, where these tables are known.
pub(crate) fn vector(alloc: Global, tables: &[TableRow], line: &str) -> Result<Vector, Fail> {
    Ok(read_vector(alloc, tables, line.as_bytes())?)
}

pub(crate) fn table(alloc: Global, line: &str) -> Result<TableRow, Fail> {
    match vector(alloc, &[], line)? {
        Vector::Table(table) => Ok(table),
        _ => Err(Fail::from("no table")),
    }
}

pub(crate) fn change(alloc: Global, tables: &[TableRow], line: &str) -> Result<Change, Fail> {
    match vector(alloc, tables, line)? {
        Vector::Change(change) => Ok(change),
        _ => Err(Fail::from("no change")),
    }
}

/// The dictionary of one table.
pub(crate) fn dictionary(alloc: Global, line: &str) -> Result<Dict, Fail> {
    let mut dict = Dict::new(alloc);
    match dict.add(table(alloc, line)?) {
        Ok(()) => Ok(dict),
        Err(_) => Err(Fail::from("a table that is refused")),
    }
}

fn vectors(
    alloc: Global,
    tables: &[TableRow],
    lines: &[&'static str],
) -> Result<Vec<Vector>, Fail> {
    let mut vectors = Vec::new(alloc);
    for line in lines {
        vectors.push(vector(alloc, tables, line)?)?;
    }
    Ok(vectors)
}

fn is_record(vectors: &[Vector]) -> bool
    ensures some { result ≡ true → 1 ≤ length vectors.now }
    ensures most { result ≡ true → length vectors.now ≤ 255 }
{
    !vectors.is_empty() && vectors.len() <= 255
}

/// The record of one or more lines.
pub(crate) fn record(
    alloc: Global,
    tables: &[TableRow],
    scn: u64,
    lines: &[&'static str],
) -> Result<RedoRec, Fail> {
    let vectors = vectors(alloc, tables, lines)?;
    if !is_record(vectors.as_slice()) {
        return Err(Fail::from("no record"));
    }
    Ok(RedoRec {
        scn,
        vectors: Vectors::of(vectors),
    })
}
