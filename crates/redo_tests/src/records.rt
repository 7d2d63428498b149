//! Records of a first log with their fields, each fault at its place, and each kind of vector there and back.
ghost use Rattle.std.specs.Prelude.{◌≡◌, ◌≤◌, length, IsTrue, IfOk, Ok, []};
ghost use Rattle.redo_vec.specs.Spelling.{record_bytes};
ghost use Rattle.redo_vec.specs.Cutting.{first_record};

use redo_vec::*;
use rl_value::{Value, VecFault, Xid};
use std::alloc::Global;
use std::process::Abort;
use std::test::Fail;

// The records of a first log: its dictionary, an insert of 7, and its commit.
const DICTIONARY: [u8; 35] = [
    0, 0, 0, 0x23, 0, 0, 0, 0, 0, 0, 0, 0x64, 0, 2, 8, 0, 0, 0, 1, 1, 0x54, 1, 0x41, 1, 2, 0x49,
    0x44, 1, 0, 0, 0, 1, 0, 0, 9,
];

const INSERT: [u8; 48] = [
    0, 0, 0, 0x30, 0, 0, 0, 0, 0, 0, 0, 0x65, 0, 2, 1, 0, 1, 0, 2, 0, 0, 0, 3, 2, 0, 1, 0, 2, 0, 0,
    0, 3, 0, 0, 0, 1, 0, 1, 0, 1, 0, 0, 0, 0, 0, 0, 0, 7,
];

const COMMIT: [u8; 23] = [
    0, 0, 0, 0x17, 0, 0, 0, 0, 0, 0, 0, 0x66, 0, 1, 6, 0, 1, 0, 2, 0, 0, 0, 3,
];

const XID: Xid = Xid {
    usn: 1,
    slot: 2,
    sqn: 3,
};

// Whether the cutter takes these bytes as one record.
fn is_cut(bytes: &[u8]) -> bool
    ensures cut { IsTrue result → first_record bytes.now ≡ Ok (bytes.now, []) }
    ensures short { IsTrue result → length bytes.now ≤ 65536 }
{
    bytes.len() >= 15
        && bytes.len() <= 65536
        && u32::from_be_bytes([bytes[0], bytes[1], bytes[2], bytes[3]]) as usize == bytes.len()
        && u16::from_be_bytes([bytes[12], bytes[13]]) >= 1
        && u16::from_be_bytes([bytes[12], bytes[13]]) <= 255
}

fn decoded(rt: &impl Abort, alloc: Global, bytes: &[u8]) -> Result<RedoRec, DecodeFault>
    ensures spelled { IfOk result (λ rec. bytes.now ≡ record_bytes rec) }
    ensures short { length bytes.now ≤ 65536 }
{
    assert!(rt; is_cut(bytes));
    decode_record(alloc, bytes)
}

fn encoded(alloc: Global, rec: &RedoRec, bytes: &[u8]) -> Result<Vec<u8>, Fail>
    requires spelled { bytes.now ≡ record_bytes rec.now }
    requires short { length bytes.now ≤ 65536 }
{
    match encode_record(alloc, rec) {
        Ok(again) => Ok(again),
        Err(_) => Err(Fail::from("no memory")),
    }
}

// A record of one vector, at SCN 5.
fn record_of(alloc: Global, vector: &[u8]) -> Result<Vec<u8>, Fail> {
    if vector.len() > 1000 {
        return Err(Fail::from("a short vector"));
    }
    let [high, low] = (vector.len() as u16 + 14).to_be_bytes();
    let mut bytes = Vec::from_slice(alloc, &[0, 0, high, low, 0, 0, 0, 0, 0, 0, 0, 5, 0, 1])?;
    bytes.extend_from_slice(vector)?;
    Ok(bytes)
}

// What a record shows is asked of a reference and asserted once: each assertion has a proof of its own, and each branch of a
// function that owns a record one of its drop.
fn is_id_column(column: &Column) -> bool {
    column.name.items() == b"ID".as_slice() && column.kind == Kind::Number && !column.nullable
}

fn has_id_alone(table: &TableRow) -> bool {
    match (table.columns.items(), table.keys.items()) {
        ([column], [primary]) => is_id_column(column) && primary.items() == [0].as_slice(),
        _ => false,
    }
}

fn is_table_of_id(table: &TableRow) -> bool {
    table.id == 1
        && table.schema.items() == b"T".as_slice()
        && table.name.items() == b"A".as_slice()
        && has_id_alone(table)
}

fn is_seven_alone(cells: &[(u8, Value)]) -> bool {
    match cells {
        [(column, Value::Number(number))] => *column == 0 && *number == 7,
        _ => false,
    }
}

fn is_insert_of_7(change: &Change) -> bool {
    change.xid == XID
        && change.op == Op::Insert
        && change.table == 1
        && change.old.cells().is_empty()
        && is_seven_alone(change.new.cells())
}

fn is_dictionary(rec: &RedoRec) -> bool {
    match rec.vectors.items() {
        [Vector::Table(table), Vector::DictEnd] => rec.scn == 100 && is_table_of_id(table),
        _ => false,
    }
}

fn is_insert(rec: &RedoRec) -> bool {
    match rec.vectors.items() {
        [Vector::Start(xid), Vector::Change(change)] => {
            rec.scn == 101 && *xid == XID && is_insert_of_7(change)
        }
        _ => false,
    }
}

fn is_commit(rec: &RedoRec) -> bool {
    match rec.vectors.items() {
        [Vector::Commit(xid)] => rec.scn == 102 && *xid == XID,
        _ => false,
    }
}

#[test]
fn the_dictionary_of_a_first_log(rt: HostRuntime) -> Result<(), Fail> {
    let rec = decoded(&rt, rt.alloc(), &DICTIONARY)?;
    assert!(rt; is_dictionary(&rec), "{rec:?}");
    Ok(())
}

#[test]
fn the_insert_and_the_commit_of_a_first_log(rt: HostRuntime) -> Result<(), Fail> {
    let rec = decoded(&rt, rt.alloc(), &INSERT)?;
    assert!(rt; is_insert(&rec), "{rec:?}");
    let rec = decoded(&rt, rt.alloc(), &COMMIT)?;
    assert!(rt; is_commit(&rec), "{rec:?}");
    Ok(())
}

// START and INSERT with a number and a text of 501 bytes: 50 bytes stand before the text's length.
#[test]
fn a_text_of_501_bytes_is_refused_at_its_length(rt: HostRuntime) -> Result<(), Fail> {
    let mut bytes = vec![in rt.alloc();
        0, 0, 2, 0x29, 0, 0, 0, 0, 0, 0, 0, 101, 0, 2, 1, 0, 1, 0, 1, 0, 0, 0, 1,
    ]?;
    bytes.extend_from_slice(&[2, 0, 1, 0, 1, 0, 0, 0, 1, 0, 0, 0, 1, 0, 2])?;
    bytes.extend_from_slice(&[0, 1, 0, 0, 0, 0, 0, 0, 0, 1, 1, 2, 1, 0xf5])?;
    let text = vec![in rt.alloc(); b'x'; 501]?;
    bytes.extend_from_slice(&text)?;
    let found = decoded(&rt, rt.alloc(), &bytes);
    assert!(rt;
        matches!(
            found,
            Err(DecodeFault::Vector {
                fault: VecFault::Size,
                place: 50
            })
        ),
        "{found:?}"
    );
    Ok(())
}

// The insert of a first log with one to three of its bytes changed: its two counts of cells, a column and a tag stand in its
// bytes 36 to 39.
#[test]
fn each_fault_is_told_at_its_place(rt: HostRuntime) -> Result<(), Fail> {
    let cases = [
        ((23, 10), (23, 10), (23, 10), VecFault::Kind, 23),
        ((39, 4), (39, 4), (39, 4), VecFault::Tag, 39),
        ((36, 33), (36, 33), (36, 33), VecFault::Cells, 36),
        ((38, 32), (38, 32), (38, 32), VecFault::Cells, 38),
        ((39, 2), (41, 6), (42, 0xff), VecFault::Utf8, 42),
        ((39, 3), (40, 0), (41, 0), VecFault::Empty, 40),
        ((39, 3), (40, 1), (41, 0xf5), VecFault::Size, 40),
        ((39, 3), (40, 1), (41, 0xf4), VecFault::End, 48),
        ((13, 3), (13, 3), (13, 3), VecFault::End, 48),
        ((13, 1), (13, 1), (13, 1), VecFault::End, 23),
    ];
    for (first, second, third, fault, place) in cases {
        let mut bytes = INSERT;
        for (at, byte) in [first, second, third] {
            if let Some(old) = bytes.get_mut(at) {
                *old = byte;
            }
        }
        let found = match decoded(&rt, rt.alloc(), &bytes) {
            Err(DecodeFault::Vector { fault, place }) => Some((fault, place)),
            _ => None,
        };
        assert_eq!(rt; found, Some((fault, place)));
    }
    Ok(())
}

#[test]
fn each_kind_of_vector_comes_back(rt: HostRuntime) -> Result<(), Fail> {
    let cases: [&[u8]; 9] = [
        &[1, 0, 1, 0, 2, 0, 0, 0, 3],
        &[
            2, 0, 1, 0, 2, 0, 0, 0, 3, 0, 0, 0, 9, 0, 2, 0, 0, 31, 1, 255, 255, 255, 255, 255, 255,
            255, 255,
        ],
        &[
            3, 0, 1, 0, 2, 0, 0, 0, 3, 0, 0, 0, 9, 1, 4, 2, 0, 2, 0xc3, 0xa4, 1, 5, 3, 0, 1, 0xff,
        ],
        &[4, 0, 1, 0, 2, 0, 0, 0, 3, 0, 0, 0, 9, 1, 0, 0, 0],
        &[5, 255, 255, 0, 2, 0, 0, 0, 3],
        &[6, 0, 1, 0, 2, 0, 0, 0, 3],
        &[7, 0, 1, 0, 2, 255, 255, 255, 255],
        &[
            8, 0, 0, 0, 1, 1, 65, 1, 66, 2, 1, 67, 2, 1, 0xf4, 1, 1, 68, 3, 0, 1, 0, 2, 0, 1, 1, 1,
            1,
        ],
        &[9],
    ];
    for vector in cases {
        let bytes = record_of(rt.alloc(), vector)?;
        let rec = decoded(&rt, rt.alloc(), &bytes)?;
        let Ok(copy) = rec.copy() else {
            return Err(Fail::from("no memory"));
        };
        let again = encoded(rt.alloc(), &copy, &bytes)?;
        assert_eq!(rt; again.as_slice(), bytes.as_slice());
    }
    Ok(())
}
