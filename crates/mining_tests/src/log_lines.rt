//! Each kind of vector as its line and back.
use redo_lines::{note_vector, print_vector, read_vector};
use redo_vec::TableRow;
use std::test::Fail;

#[test]
fn each_line_is_read_and_printed_as_it_was(rt: HostRuntime) -> Result<(), Fail> {
    let alloc = rt.alloc();
    let mut tables: Vec<TableRow> = Vec::new(alloc);
    let lines = [
        "TABLE 1 HR.EMP COLUMNS ID:NUMBER NAME:TEXT:30:NULL EMAIL:TEXT:30:NULL KEY ID UNIQUE EMAIL NAME,EMAIL",
        "TABLE 2 X'68'.T COLUMNS X'C3':RAW:500 KEY 0",
        "DICTEND",
        "START 1.2.3",
        "INSERT 1.2.3 HR.EMP NEW ID=1 NAME='O''Neil = x' EMAIL=NULL",
        "UPDATE 65535.2.4294967295 HR.EMP OLD ID=-1 NAME=U'0A' NEW NAME='Bob'",
        "DELETE 1.2.3 2 OLD 0=X'00FF' 31=NULL",
        "INSERT 1.2.3 4294967295",
        "UNDO 1.2.3",
        "COMMIT 1.2.3",
        "ROLLBACK 1.2.3",
    ];
    for line in lines {
        let vector = read_vector(alloc, tables.as_slice(), line.as_bytes())?;
        let again = print_vector(alloc, tables.as_slice(), &vector)?;
        assert_eq!(rt; again.as_slice(), line.as_bytes(), "for {line}");
        note_vector(&mut tables, &vector)?;
    }
    Ok(())
}
