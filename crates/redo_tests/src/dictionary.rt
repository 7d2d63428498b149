//! Dictionaries of a table, with ample memory.
ghost use Rattle.std.specs.Prelude.{IsTrue, length, ◌≤◌};
ghost use Rattle.redo_vec.specs.Forms.{is_line30};

use redo_dict::{ChangeFault, Dict, DictFault};
use redo_vec::{Change, Column, Columns, KeyColumns, KeyLists, Kind, Line30, Op, TableRow};
use rl_value::{Bin, Cells, MAX_COLUMNS, Name, Row, Txt, Value, Xid};
use std::alloc::Global;
use std::test::Fail;

fn word(alloc: Global, bytes: &[u8]) -> Result<Line30, Fail>
    requires { IsTrue (is_line30 bytes.now) }
{
    Ok(Line30::of(Vec::from_slice(alloc, bytes)?))
}

// T.A: one column ID, a number that may not be Null, which is the primary key.
fn table(alloc: Global) -> Result<TableRow, Fail> {
    let column = Column {
        name: word(alloc, b"ID")?,
        kind: Kind::Number,
        nullable: false,
    };
    let key = KeyColumns::of(vec![in alloc; 0]?);
    Ok(TableRow {
        id: 1,
        schema: word(alloc, b"T")?,
        name: word(alloc, b"A")?,
        columns: Columns::of(vec![in alloc; column]?),
        keys: KeyLists::of(vec![in alloc; key]?),
    })
}

fn insert(alloc: Global, table: u32, value: Value) -> Result<Change, Fail> {
    Ok(Change {
        xid: Xid {
            usn: 1,
            slot: 2,
            sqn: 3,
        },
        op: Op::Insert,
        table,
        old: Cells::of(Vec::new(alloc)),
        new: Cells::of(vec![in alloc; (0, value)]?),
    })
}

// A dictionary that has T.A.
fn dictionary(alloc: Global) -> Result<Dict, Fail> {
    let mut dict = Dict::new(alloc);
    let taken = dict.add(table(alloc)?).is_ok();
    if !taken {
        return Err(Fail::from("table refused"));
    }
    Ok(dict)
}

#[test]
fn a_table_is_taken_once(rt: HostRuntime) -> Result<(), Fail> {
    let alloc = rt.alloc();
    let mut dict = dictionary(alloc)?;
    let again = dict.add(table(alloc)?).map_err(|refused| refused.0);
    assert_eq!(rt; again, Err(DictFault::Twice));
    assert_eq!(rt; dict.def(1).is_some(), true);
    Ok(())
}

#[test]
fn a_table_is_found_by_its_names(rt: HostRuntime) -> Result<(), Fail> {
    let dict = dictionary(rt.alloc())?;
    let (Some(schema), Some(name)) = (Name::of(b"T"), Name::of(b"A")) else {
        return Err(Fail::from("no name"));
    };
    assert_eq!(rt; dict.resolve(&schema, &name), Some(1));
    assert_eq!(rt; dict.resolve(&name, &schema), None);
    Ok(())
}

#[test]
fn a_change_fits_its_table(rt: HostRuntime) -> Result<(), Fail> {
    let alloc = rt.alloc();
    let dict = dictionary(alloc)?;
    let number = insert(alloc, 1, Value::Number(7))?;
    let null = insert(alloc, 1, Value::Null)?;
    let other = insert(alloc, 2, Value::Null)?;
    assert_eq!(rt; dict.check_change(&number), Ok(()));
    assert_eq!(rt; dict.check_change(&null), Err(ChangeFault::Types));
    assert_eq!(rt; dict.check_change(&other), Err(ChangeFault::NoTable));
    Ok(())
}

// T.B: a number that may not be Null, which is the primary key, a text of up to 3 bytes and a raw value of up to 2.
fn wide_table(alloc: Global) -> Result<TableRow, Fail> {
    let id = Column {
        name: word(alloc, b"ID")?,
        kind: Kind::Number,
        nullable: false,
    };
    let text = Column {
        name: word(alloc, b"WORD")?,
        kind: Kind::Text(3),
        nullable: true,
    };
    let raw = Column {
        name: word(alloc, b"CODE")?,
        kind: Kind::Raw(2),
        nullable: true,
    };
    let key = KeyColumns::of(vec![in alloc; 0]?);
    Ok(TableRow {
        id: 1,
        schema: word(alloc, b"T")?,
        name: word(alloc, b"B")?,
        columns: Columns::of(vec![in alloc; id, text, raw]?),
        keys: KeyLists::of(vec![in alloc; key]?),
    })
}

/// A value of a row.
#[derive(Clone, Copy)]
enum Cell {
    Null,
    Number,
    Text(&'static [u8]),
    Raw(&'static [u8]),
}

fn value_of(alloc: Global, cell: Cell) -> Result<Value, Fail> {
    match cell {
        Cell::Null => Ok(Value::Null),
        Cell::Number => Ok(Value::Number(1)),
        Cell::Text(bytes) => Ok(Value::Text(Txt::of(alloc, bytes)?)),
        Cell::Raw(bytes) => Ok(Value::Raw(Bin::of(alloc, bytes)?)),
    }
}

// The row of these values; None where they are none, or too many for any row.
fn row_of(alloc: Global, cells: &[Cell]) -> Result<Option<Row>, Fail> {
    let mut values = Vec::new(alloc);
    for cell in cells {
        values.push(value_of(alloc, *cell)?)?;
    }
    if values.is_empty() || values.len() > MAX_COLUMNS {
        return Ok(None);
    }
    Ok(Some(Row::of(values)))
}

// Whether the row fits table 1; None where there is no row or no such table.
fn fits(dict: &Dict, row: &Option<Row>) -> Option<bool> {
    match (dict.def(1), row) {
        (Some(_), Some(row)) => Some(dict.check_row(1, row)),
        _ => None,
    }
}

#[test]
fn a_row_has_a_value_that_fits_for_each_column(rt: HostRuntime) -> Result<(), Fail> {
    use Cell::{Null, Number, Raw, Text};
    let alloc = rt.alloc();
    let mut dict = Dict::new(alloc);
    assert!(rt; dict.add(wide_table(alloc)?).is_ok());
    let cases: [(&'static [Cell], bool); 10] = [
        (&[Number, Text(b"abc"), Raw(b"ab")], true),
        (&[Number, Null, Null], true),
        // Too few, and too many.
        (&[Number, Text(b"abc")], false),
        (&[Number, Null, Null, Null], false),
        // Null where it may not be.
        (&[Null, Null, Null], false),
        // Too long.
        (&[Number, Text(b"abcd"), Null], false),
        (&[Number, Null, Raw(b"abc")], false),
        // Of another type.
        (&[Text(b"1"), Null, Null], false),
        (&[Number, Raw(b"a"), Null], false),
        (&[Number, Null, Number], false),
    ];
    for (cells, want) in cases {
        let row = row_of(alloc, cells)?;
        assert_eq!(rt; fits(&dict, &row), Some(want));
    }
    Ok(())
}

#[test]
fn a_copy_is_whole_where_its_dictionary_is(rt: HostRuntime) -> Result<(), Fail> {
    let mut dict = dictionary(rt.alloc())?;
    assert_eq!(rt; dict.finished(), false);
    dict.finish();
    let copy = dict.copy()?;
    assert_eq!(rt; copy.finished(), true);
    assert_eq!(rt; copy.def(1).is_some(), true);
    Ok(())
}
