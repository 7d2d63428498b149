//! What no clause says: that records are admitted with ample memory, and which cause each kind of bad record has.
ghost use Rattle.std.specs.Prelude.{IsTrue, ◌≡◌, ◌≤◌, ◌<◌, ◌+◌, ◌^◌, length, IfOk};
ghost use Rattle.redo_vec.specs.Columns.{is_kind};
ghost use Rattle.redo_vec.specs.Forms.{is_line30};

use redo_dict::Dict;
use redo_law::{AdmitFault, Law, LawStart, touch};
use redo_spec::Header;
use redo_vec::{
    Change, Column, Columns, KeyColumns, KeyLists, Kind, Line30, Op, RedoRec, TableRow, Vector,
    Vectors,
};
use rl_value::{Cells, LawFault, Value, Xid};
use std::alloc::Global;
use std::test::Fail;

/// A vector of a case. Transactions go by the sequence number of their ids, and rows by their IDs in T.A.
#[derive(Clone, Copy)]
enum Step {
    Start(u32),
    Insert(u32, i64),
    // Each of these has one flaw.
    InsertNull(u32),
    InsertElsewhere(u32),
    InsertShort(u32),
    UpdateUnlogged(u32),
    Undo(u32),
    Commit(u32),
    Rollback(u32),
    Table(Flaw),
    DictEnd,
}

/// What is wrong with a table.
#[derive(Clone, Copy)]
enum Flaw {
    Nothing,
    Name,
    Key,
    Width,
}

fn xid(sqn: u32) -> Xid {
    Xid {
        usn: 1,
        slot: 2,
        sqn,
    }
}

fn word(alloc: Global, bytes: &[u8]) -> Result<Line30, Fail>
    requires { IsTrue (is_line30 bytes.now) }
{
    Ok(Line30::of(Vec::from_slice(alloc, bytes)?))
}

fn key_of(alloc: Global, column: u8) -> Result<KeyColumns, Fail>
    requires { column < 32 }
{
    Ok(KeyColumns::of(vec![in alloc; column]?))
}

// Table 1, T.A: ID, a number that may not be Null and is the primary key, and CODE, a number that is unique.
fn table(alloc: Global) -> Result<TableRow, Fail> {
    let id = Column {
        name: word(alloc, b"ID")?,
        kind: Kind::Number,
        nullable: false,
    };
    let code = Column {
        name: word(alloc, b"CODE")?,
        kind: Kind::Number,
        nullable: true,
    };
    let keys = vec![in alloc; key_of(alloc, 0)?, key_of(alloc, 1)?]?;
    Ok(TableRow {
        id: 1,
        schema: word(alloc, b"T")?,
        name: word(alloc, b"A")?,
        columns: Columns::of(vec![in alloc; id, code]?),
        keys: KeyLists::of(keys),
    })
}

// Table 1 of this name: ID, of this kind, and a key of this column.
fn small_table(alloc: Global, name: &[u8], kind: Kind, key: u8) -> Result<TableRow, Fail>
    requires name { IsTrue (is_line30 name.now) }
    requires kind { IsTrue (is_kind kind) }
    requires key { key < 32 }
{
    let id = Column {
        name: word(alloc, b"ID")?,
        kind,
        nullable: false,
    };
    let key = key_of(alloc, key)?;
    Ok(TableRow {
        id: 1,
        schema: word(alloc, b"T")?,
        name: word(alloc, name)?,
        columns: Columns::of(vec![in alloc; id]?),
        keys: KeyLists::of(vec![in alloc; key]?),
    })
}

fn flawed(alloc: Global, flaw: Flaw) -> Result<TableRow, Fail> {
    match flaw {
        Flaw::Nothing => small_table(alloc, b"A", Kind::Number, 0),
        Flaw::Name => small_table(alloc, b"1A", Kind::Number, 0),
        Flaw::Key => small_table(alloc, b"A", Kind::Number, 1),
        Flaw::Width => small_table(alloc, b"A", Kind::Text(500), 0),
    }
}

fn change(op: Op, sqn: u32, old: Cells, new: Cells) -> Change {
    Change {
        xid: xid(sqn),
        op,
        table: 1,
        old,
        new,
    }
}

fn none(alloc: Global) -> Cells {
    Cells::of(Vec::new(alloc))
}

fn one_cell(alloc: Global, column: u8, value: Value) -> Result<Cells, Fail>
    requires { column < 32 }
{
    Ok(Cells::of(vec![in alloc; (column, value)]?))
}

fn insert(alloc: Global, sqn: u32, id: Value, code: Value) -> Result<Change, Fail> {
    let new = Cells::of(vec![in alloc; (0, id), (1, code)]?);
    Ok(change(Op::Insert, sqn, none(alloc), new))
}

fn insert_elsewhere(alloc: Global, sqn: u32) -> Result<Change, Fail> {
    let mut change = insert(alloc, sqn, Value::Number(7), Value::Null)?;
    change.table = 2;
    Ok(change)
}

// One of two columns.
fn insert_short(alloc: Global, sqn: u32) -> Result<Change, Fail> {
    let new = one_cell(alloc, 0, Value::Number(7))?;
    Ok(change(Op::Insert, sqn, none(alloc), new))
}

// Sets CODE, and does not log the old one.
fn update_unlogged(alloc: Global, sqn: u32) -> Result<Change, Fail> {
    let old = one_cell(alloc, 0, Value::Number(7))?;
    let new = one_cell(alloc, 1, Value::Number(8))?;
    Ok(change(Op::Update, sqn, old, new))
}

fn vector_of(alloc: Global, step: Step) -> Result<Vector, Fail> {
    let change = match step {
        Step::Start(sqn) => return Ok(Vector::Start(xid(sqn))),
        Step::Undo(sqn) => return Ok(Vector::Undo(xid(sqn))),
        Step::Commit(sqn) => return Ok(Vector::Commit(xid(sqn))),
        Step::Rollback(sqn) => return Ok(Vector::Rollback(xid(sqn))),
        Step::Table(flaw) => return Ok(Vector::Table(flawed(alloc, flaw)?)),
        Step::DictEnd => return Ok(Vector::DictEnd),
        Step::Insert(sqn, id) => insert(alloc, sqn, Value::Number(id), Value::Null)?,
        Step::InsertNull(sqn) => insert(alloc, sqn, Value::Null, Value::Null)?,
        Step::InsertElsewhere(sqn) => insert_elsewhere(alloc, sqn)?,
        Step::InsertShort(sqn) => insert_short(alloc, sqn)?,
        Step::UpdateUnlogged(sqn) => update_unlogged(alloc, sqn)?,
    };
    Ok(Vector::Change(change))
}

// A record of this step, with SCN 100.
fn rec_of(alloc: Global, step: Step) -> Result<RedoRec, Fail> {
    let vector = vector_of(alloc, step)?;
    Ok(RedoRec {
        scn: 100,
        vectors: Vectors::of(vec![in alloc; vector]?),
    })
}

// A log of SCNs 100 to 199.
fn head() -> Header {
    Header {
        seq: 1,
        dbid: 9,
        first: 100,
        next: 200,
        count: 1000,
    }
}

fn name_of(fault: AdmitFault) -> &'static str {
    let AdmitFault::Law(fault) = fault else {
        return "memory";
    };
    match fault {
        LawFault::Chain => "chain",
        LawFault::Scn => "scn",
        LawFault::Alone => "alone",
        LawFault::Dictionary => "dictionary",
        LawFault::Twice => "twice",
        LawFault::Names => "names",
        LawFault::Keys => "keys",
        LawFault::Limit => "limit",
        LawFault::OpenTwice => "open twice",
        LawFault::NotOpen => "not open",
        LawFault::NoTable => "no table",
        LawFault::Columns => "columns",
        LawFault::Types => "types",
        LawFault::Supplement => "supplement",
        LawFault::Lock { .. } => "lock",
        LawFault::Nothing => "nothing",
        LawFault::OpenLimit => "open limit",
    }
}

// A law of a standby whose first log is log 1, behind so many records, of which transactions that are not known may have
// vectors up to this one.
fn law_behind(alloc: Global, dict: Dict, rec: u64, known: u64) -> Result<Law, Fail>
    ensures { IfOk result (λ law. law.rec ≡ rec) }
{
    let start = LawStart {
        first: 1,
        base: 99,
        dict,
        head: None,
        rec,
        known,
        scn: 99,
        commit_scn: 99,
    };
    match Law::new(alloc, start) {
        Ok(law) => Ok(law),
        Err(_) => Err(Fail::new("no memory")),
    }
}

// A law before the first record.
fn law_over(alloc: Global, dict: Dict) -> Result<Law, Fail>
    ensures { IfOk result (λ law. law.rec ≡ 0) }
{
    law_behind(alloc, dict, 0, 0)
}

// A dictionary that has T.A and is whole.
fn whole(alloc: Global) -> Result<Dict, Fail> {
    let mut dict = Dict::new(alloc);
    let taken = dict.add(table(alloc)?).is_ok();
    if !taken {
        return Err(Fail::new("table refused"));
    }
    dict.finish();
    Ok(dict)
}

// The first reason against one of these steps, each in a record of its own.
fn reason(alloc: Global, mut law: Law, steps: &[Step]) -> Result<&'static str, Fail>
    requires { law.rec + length steps.now < 2 ^ 64 }
{
    let mut rest = steps;
    while let [step, others @ ..] = rest {
        if let Err(fault) = law.admit(&head(), &rec_of(alloc, *step)?) {
            return Ok(name_of(fault.copy()?));
        }
        rest = others;
    }
    Ok("none")
}

// The same from the first record on.
fn verdict(alloc: Global, dict: Dict, steps: &[Step]) -> Result<&'static str, Fail> {
    let _count = steps.len();
    reason(alloc, law_over(alloc, dict)?, steps)
}

// The same from record 3 on, where transactions that are not known may have vectors up to this record.
fn verdict_behind(alloc: Global, known: u64, steps: &[Step]) -> Result<&'static str, Fail> {
    let _count = steps.len();
    reason(alloc, law_behind(alloc, whole(alloc)?, 2, known)?, steps)
}

#[test]
fn a_record_has_its_cause(rt: HostRuntime) -> Result<(), Fail> {
    use Step::{
        Commit, DictEnd, Insert, InsertElsewhere, InsertNull, InsertShort, Rollback, Start, Undo,
        UpdateUnlogged,
    };
    let cases: [(&'static [Step], &'static str); 15] = [
        (&[Start(3), Start(3)], "open twice"),
        (&[Start(3), Undo(4)], "not open"),
        (&[Start(3), Undo(3)], "nothing"),
        (&[Start(3), DictEnd], "dictionary"),
        (&[Start(3), InsertElsewhere(3)], "no table"),
        (&[Start(3), InsertShort(3)], "columns"),
        (&[Start(3), InsertNull(3)], "types"),
        (&[Start(3), UpdateUnlogged(3)], "supplement"),
        (&[Start(3), Insert(3, 7), Commit(3), Commit(4)], "not open"),
        (&[Start(3), Commit(3), Start(4), Commit(4)], "scn"),
        // A key is held until its change is undone, or its transaction ends.
        (&[Start(3), Insert(3, 7), Start(4), Insert(4, 7)], "lock"),
        (&[Start(3), Insert(3, 7), Start(4), Insert(4, 8)], "none"),
        (
            &[Start(3), Insert(3, 7), Undo(3), Start(4), Insert(4, 7)],
            "none",
        ),
        (
            &[Start(3), Insert(3, 7), Commit(3), Start(4), Insert(4, 7)],
            "none",
        ),
        (
            &[Start(3), Insert(3, 7), Rollback(3), Start(4), Insert(4, 7)],
            "none",
        ),
    ];
    for (steps, want) in cases {
        let alloc = rt.alloc();
        assert_eq!(rt; verdict(alloc, whole(alloc)?, steps)?, want);
    }
    Ok(())
}

// Records 3, 4 and 5 are known, where 5 stands.
#[test]
fn unknown_transactions_are_passed_over(rt: HostRuntime) -> Result<(), Fail> {
    use Step::{Commit, Insert, InsertNull, Rollback, Start, Undo};
    let cases: [(u64, &'static [Step], &'static str); 9] = [
        (5, &[InsertNull(3), Undo(3), Rollback(3)], "none"),
        (5, &[Insert(3, 7), Insert(3, 8), Commit(3)], "none"),
        // Behind the last known record nothing is passed over.
        (4, &[Insert(3, 7), Insert(3, 8), Commit(3)], "not open"),
        (5, &[Start(4), Insert(4, 7), Commit(4), Undo(3)], "not open"),
        (2, &[Commit(3)], "not open"),
        (0, &[Rollback(3)], "not open"),
        // What is passed over holds no key, and its COMMIT counts.
        (5, &[Insert(3, 7), Start(4), Insert(4, 7)], "none"),
        (5, &[Commit(3), Start(4), Commit(4)], "scn"),
        // A transaction that is known is judged.
        (5, &[Start(3), InsertNull(3)], "types"),
    ];
    for (known, steps, want) in cases {
        let alloc = rt.alloc();
        assert_eq!(rt;
            verdict_behind(alloc, known, steps)?,
            want,
            "with {known} known"
        );
    }
    Ok(())
}

#[test]
fn a_table_has_its_cause(rt: HostRuntime) -> Result<(), Fail> {
    use Flaw::{Key, Name, Nothing, Width};
    use Step::{DictEnd, Start, Table};
    let cases: [(&'static [Step], &'static str); 7] = [
        (&[Table(Nothing), DictEnd], "none"),
        (&[Table(Nothing), Table(Nothing)], "twice"),
        (&[Table(Name)], "names"),
        (&[Table(Key)], "keys"),
        (&[Table(Width)], "limit"),
        (&[DictEnd, Table(Nothing)], "dictionary"),
        (&[Start(3)], "dictionary"),
    ];
    for (steps, want) in cases {
        let alloc = rt.alloc();
        assert_eq!(rt; verdict(alloc, Dict::new(alloc), steps)?, want);
    }
    Ok(())
}

// Takes this record so many times.
fn takes(law: &mut Law, again: &RedoRec, times: u32) -> bool
    requires { law.old.rec + times < 2 ^ 64 }
    ensures { IsTrue result → law.new.rec ≡ law.old.rec + times }
{
    for _ in 0..times {
        if law.admit(&head(), again).is_err() {
            return false;
        }
    }
    true
}

// Whether 2^19 changes may survive together, again after one was taken back, and the reason against one more.
#[test]
fn so_many_changes_survive(rt: HostRuntime) -> Result<(), Fail> {
    let alloc = rt.alloc();
    let mut law = law_over(alloc, whole(alloc)?)?;
    let start = rec_of(alloc, Step::Start(3))?;
    let insert = rec_of(alloc, Step::Insert(3, 7))?;
    let undo = rec_of(alloc, Step::Undo(3))?;
    assert!(rt; takes(&mut law, &start, 1));
    assert!(rt; takes(&mut law, &insert, 1 << 19));
    assert!(rt; takes(&mut law, &undo, 1));
    assert!(rt; takes(&mut law, &insert, 1));
    let one_more = law.admit(&head(), &insert).map_err(name_of);
    assert_eq!(rt; one_more, Err("open limit"));
    Ok(())
}

#[test]
fn a_copy_has_the_open_transactions(rt: HostRuntime) -> Result<(), Fail> {
    let alloc = rt.alloc();
    let mut law = law_over(alloc, whole(alloc)?)?;
    let start = rec_of(alloc, Step::Start(3))?;
    assert!(rt; takes(&mut law, &start, 1));
    let copy = law.copy()?;
    assert_eq!(rt; copy.start_of(xid(3)), Some(1));
    assert_eq!(rt; copy.start_of(xid(4)), None);
    assert_eq!(rt; copy.into_dict().finished(), true);
    Ok(())
}

#[test]
fn a_change_touches_a_key_of_each_index(rt: HostRuntime) -> Result<(), Fail> {
    let alloc = rt.alloc();
    let dict = whole(alloc)?;
    let change = insert(alloc, 3, Value::Number(7), Value::Number(8))?;
    let Ok(()) = dict.check_change(&change) else {
        return Err(Fail::new("not accepted"));
    };
    let keys = touch(alloc, &dict, &change)?;
    let [primary, unique] = keys.items() else {
        return Err(Fail::new("not two keys"));
    };
    assert_eq!(rt; primary.index, 0);
    assert_eq!(rt; unique.index, 1);
    Ok(())
}
