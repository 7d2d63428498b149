//! A small redo through a miner, in both modes, with ample memory.
ghost use Rattle.std.specs.Prelude.{◌≡◌, ◌≤◌, ◌+◌, IsTrue, OnOk};
ghost use Rattle.redo_vec.specs.Forms.{is_line30};
ghost use Rattle.log_miner.specs.Calls.{records_taken};

use log_miner::{Mined, MinedLines, Miner};
use preparers::{Made, Piece};
use redo_spec::Header;
use redo_vec::{
    Change, Column, Columns, KeyColumns, KeyLists, Kind, Line30, Op, RedoRec, TableRow, Vector,
    Vectors,
};
use rl_value::{Cells, Value, Xid};
use std::alloc::Global;
use std::test::Fail;

const HEAD: Header = Header {
    seq: 1,
    dbid: 9,
    first: 100,
    next: 200,
    count: 4,
};

const XID: Xid = Xid {
    usn: 1,
    slot: 2,
    sqn: 3,
};

fn word(alloc: Global, bytes: &[u8]) -> Result<Line30, Fail>
    requires { IsTrue (is_line30 bytes.now) }
{
    Ok(Line30::of(Vec::from_slice(alloc, bytes)?))
}

// T.A: one column ID, a number that may not be Null, which is the primary key.
fn table(alloc: Global) -> Result<Vector, Fail> {
    let column = Column {
        name: word(alloc, b"ID")?,
        kind: Kind::Number,
        nullable: false,
    };
    let key = KeyColumns::of(vec![in alloc; 0]?);
    Ok(Vector::Table(TableRow {
        id: 1,
        schema: word(alloc, b"T")?,
        name: word(alloc, b"A")?,
        columns: Columns::of(vec![in alloc; column]?),
        keys: KeyLists::of(vec![in alloc; key]?),
    }))
}

fn insert(alloc: Global, id: i64) -> Result<Vector, Fail> {
    Ok(Vector::Change(Change {
        xid: XID,
        op: Op::Insert,
        table: 1,
        old: Cells::of(Vec::new(alloc)),
        new: Cells::of(vec![in alloc; (0, Value::Number(id))]?),
    }))
}

// The record of this number, whose SCN is 100 and its number.
fn piece(rec: u64, vectors: Vectors) -> Piece
    requires { rec ≤ 4 }
    ensures { result.rec ≡ rec }
{
    let scn = 100 + rec;
    Piece {
        rec,
        head: HEAD,
        end: 0,
        done: 0,
        made: Made::Rec(RedoRec { scn, vectors }),
    }
}

// Gives the miner a record.
fn give(miner: &mut Miner, rec: u64, vectors: Vectors) -> Result<MinedLines, Fail>
    requires next { rec ≡ records_taken miner.old + 1 }
    requires small { rec ≤ 4 }
    ensures { OnOk result (records_taken miner.new ≡ rec) }
{
    match miner.add(piece(rec, vectors)) {
        Ok(Mined::Lines(lines)) => Ok(lines),
        Ok(Mined::Malformed { .. }) => Err(Fail::from("refused")),
        Err(_) => Err(Fail::from("no memory")),
    }
}

fn is_line(lines: &MinedLines, at: usize, want: &[u8]) -> bool {
    match lines.items().get(at) {
        Some(line) => line.bytes() == want,
        None => false,
    }
}

// The dictionary, and a transaction whose second insert is undone; what its COMMIT gives.
fn mined(alloc: Global, miner: &mut Miner) -> Result<MinedLines, Fail>
    requires { records_taken miner.old ≡ 0 }
{
    let first = vec![in alloc; table(alloc)?, Vector::DictEnd]?;
    let _ = give(miner, 1, Vectors::of(first))?;
    let second = vec![in alloc; Vector::Start(XID), insert(alloc, 7)?, insert(alloc, 8)?]?;
    let _ = give(miner, 2, Vectors::of(second))?;
    let third = vec![in alloc; Vector::Undo(XID)]?;
    let lines = give(miner, 3, Vectors::of(third))?;
    if lines.items().is_empty() {
        let fourth = vec![in alloc; Vector::Commit(XID)]?;
        return give(miner, 4, Vectors::of(fourth));
    }
    Ok(lines)
}

#[test]
fn an_undo_has_a_line_in_plain_mode(rt: HostRuntime) -> Result<(), Fail> {
    let mut miner = Miner::new(rt.alloc(), false);
    assert!(rt; miner.last_commit().is_none());
    let lines = mined(rt.alloc(), &mut miner)?;
    assert!(rt; is_line(&lines, 0, b"103 3.1 1.2.3 UNDO 2.3"));
    assert_eq!(rt; lines.items().len(), 1);
    assert!(rt; miner.dict().finished());
    Ok(())
}

#[test]
fn a_commit_gives_its_transaction_in_committed_mode(rt: HostRuntime) -> Result<(), Fail> {
    let mut miner = Miner::new(rt.alloc(), true);
    let lines = mined(rt.alloc(), &mut miner)?;
    assert!(rt; is_line(&lines, 0, b"102 2.1 1.2.3 START"));
    assert!(rt;
        is_line(
            &lines,
            1,
            b"102 2.2 1.2.3 INSERT T.A insert into \"T\".\"A\"(\"ID\") values (7); | delete from \"T\".\"A\" where \"ID\" = 7;"
        )
    );
    assert!(rt; is_line(&lines, 2, b"104 4.1 1.2.3 COMMIT"));
    assert_eq!(rt; lines.items().len(), 3);
    assert_eq!(rt; miner.last_commit(), Some((1, 104)));
    Ok(())
}
