//! What no clause says: that ample memory is enough for a chunk, its copy and its bytes, and that bad bytes are told as such.

use lcr::{Chunk, ChunkFault, Lcr, chunk_bytes, is_chunk, read_chunk};
use redo_vec::{Change, Op};
use rl_value::{Cells, Pos, Value, Xid};
use std::alloc::Global;
use std::test::Fail;

fn insert(alloc: Global, sqn: u32, id: i64) -> Result<Change, Fail> {
    Ok(Change {
        xid: Xid {
            usn: 1,
            slot: 2,
            sqn,
        },
        op: Op::Insert,
        table: 1,
        old: Cells::of(Vec::new(alloc)),
        new: Cells::of(vec![in alloc; (0, Value::Number(id))]?),
    })
}

// Change records at these places, each a record, a vector in it, and the sequence of its transaction.
fn lcrs(alloc: Global, places: &[(u64, u8, u32)]) -> Result<Vec<Lcr>, Fail> {
    let mut items = Vec::new(alloc);
    for place in places {
        let pos = Pos {
            rec: place.0,
            vec: place.1,
        };
        let change = insert(alloc, place.2, 7)?;
        items.push(Lcr { pos, change })?;
    }
    Ok(items)
}

// How many change records a chunk of these and its copy hold. None where these are no chunk.
fn held(alloc: Global, places: &[(u64, u8, u32)]) -> Result<Option<(usize, usize)>, Fail> {
    let items = lcrs(alloc, places)?;
    if !is_chunk(&items) {
        return Ok(None);
    }
    let chunk = Chunk::of(items);
    let copy = chunk.copy()?;
    Ok(Some((chunk.items().len(), copy.into_items().len())))
}

#[test]
fn a_chunk_is_of_one_transaction_and_rises(rt: HostRuntime) -> Result<(), Fail> {
    let cases: [(&'static [(u64, u8, u32)], Option<(usize, usize)>); 6] = [
        (&[(2, 1, 3)], Some((1, 1))),
        (&[(2, 1, 3), (2, 2, 3), (3, 1, 3)], Some((3, 3))),
        (&[], None),
        (&[(2, 1, 3), (2, 1, 3)], None),
        (&[(3, 1, 3), (2, 2, 3)], None),
        (&[(2, 1, 3), (3, 1, 4)], None),
    ];
    for (places, want) in cases {
        assert_eq!(rt; held(rt.alloc(), places)?, want);
    }
    Ok(())
}

// The chunk of the INSERT of 7 into table 1 by 1.2.3, at record 2 and vector 1.
const SPELLED: [u8; 35] = [
    1, 0, 0, 0, 0, 0, 0, 0, 2, 1, // one change, its record and its vector
    2, 0, 1, 0, 2, 0, 0, 0, 3, 0, 0, 0, 1, // INSERT, the transaction, the table
    0, 1, 0, 1, 0, 0, 0, 0, 0, 0, 0, 7, // no old cell, and column 0 is the number 7
];

// Whether that chunk is spelled so. None where it is no chunk.
fn is_spelled(alloc: Global) -> Result<Option<bool>, Fail> {
    let items = lcrs(alloc, &[(2, 1, 3)])?;
    if !is_chunk(&items) {
        return Ok(None);
    }
    let bytes = chunk_bytes(alloc, &Chunk::of(items))?;
    Ok(Some(bytes.as_slice() == SPELLED.as_slice()))
}

// How many changes the bytes are read as. None where they are no chunk.
fn read_count(alloc: Global, bytes: &[u8]) -> Result<Option<usize>, Fail> {
    match read_chunk(alloc, bytes) {
        Ok(chunk) => Ok(Some(chunk.items().len())),
        Err(ChunkFault::Bad) => Ok(None),
        Err(ChunkFault::Memory) => Err(Fail::from("no memory")),
    }
}

// The same with another byte at this place.
fn changed_count(alloc: Global, place: usize, byte: u8) -> Result<Option<usize>, Fail> {
    let mut bytes = SPELLED;
    if let Some(there) = bytes.get_mut(place) {
        *there = byte;
    }
    read_count(alloc, &bytes)
}

#[test]
fn a_spilled_chunk_is_read(rt: HostRuntime) -> Result<(), Fail> {
    assert_eq!(rt; is_spelled(rt.alloc())?, Some(true));
    let cases = [
        (34, 8, Some(1)),
        // No change, two changes, and a START in place of the change.
        (0, 0, None),
        (0, 2, None),
        (10, 1, None),
    ];
    for (place, byte, want) in cases {
        assert_eq!(rt;
            changed_count(rt.alloc(), place, byte)?,
            want,
            "{byte} at {place}"
        );
    }
    assert_eq!(rt; read_count(rt.alloc(), &SPELLED[..34])?, None);
    Ok(())
}
