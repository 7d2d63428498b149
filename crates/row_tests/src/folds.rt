//! Small redos, built from their types: what their folds show, and why they end.
ghost use Rattle.std.specs.Prelude.{◌≡◌, ◌+◌, ◌<◌, ◌≤◌, IfOk, IfSome};
ghost use Rattle.primary.specs.Progress.{recs_of};

use crate::lines::{record, table};
use primary::{Evaluator, Folded, Plain, PlainTables, TakeFault, fold_plain};
use redo_spec::Header;
use redo_vec::{RedoRec, TableRow};
use rl_value::{Miss, Row, Stop, Value, Verdict, Xid};
use skip_guard::{SkipEntry, SkipRule, Skips};
use std::alloc::Global;
use std::test::Fail;

const HEAD: Header = Header {
    seq: 1,
    dbid: 9,
    first: 100,
    next: 200,
    count: 9,
};

const FIRST: Xid = Xid {
    usn: 1,
    slot: 2,
    sqn: 3,
};

/// A record: its SCN and its vectors.
type Lines = (u64, &'static [&'static str]);

/// T.A: one column ID, a number, which is the primary key.
const TABLE: &str = "TABLE 1 T.A COLUMNS ID:NUMBER KEY ID";

// The tables that these lines define.
fn tables_of(alloc: Global, lines: &[&'static str]) -> Result<Vec<TableRow>, Fail> {
    let mut tables = Vec::new(alloc);
    for line in lines {
        tables.push(table(alloc, line)?)?;
    }
    Ok(tables)
}

fn redo_of(
    alloc: Global,
    tables: &[TableRow],
    recs: &[Lines],
) -> Result<Vec<(Header, RedoRec)>, Fail> {
    let mut redo = Vec::new(alloc);
    for (scn, lines) in recs {
        redo.push((HEAD, record(alloc, tables, *scn, lines)?))?;
    }
    Ok(redo)
}

// A redo of T.A.
fn redo_of_a(alloc: Global, recs: &[Lines]) -> Result<Vec<(Header, RedoRec)>, Fail> {
    redo_of(alloc, tables_of(alloc, &[TABLE])?.as_slice(), recs)
}

// The dictionary, and a transaction that inserts 7 and commits.
const SEVEN: [Lines; 3] = [
    (100, &[TABLE, "DICTEND"]),
    (101, &["START 1.2.3", "INSERT 1.2.3 T.A NEW ID=7"]),
    (102, &["COMMIT 1.2.3"]),
];

// Then one that inserts 8, and 9 that is taken back, and another that is rolled back.
const UNDONE: [Lines; 8] = [
    (100, &[TABLE, "DICTEND"]),
    (101, &["START 1.2.3", "INSERT 1.2.3 T.A NEW ID=7"]),
    (102, &["COMMIT 1.2.3"]),
    (103, &["START 1.2.3", "INSERT 1.2.3 T.A NEW ID=8"]),
    (104, &["INSERT 1.2.3 T.A NEW ID=9", "UNDO 1.2.3"]),
    (105, &["START 1.2.4", "INSERT 1.2.4 T.A NEW ID=10"]),
    (106, &["ROLLBACK 1.2.4"]),
    (107, &["COMMIT 1.2.3"]),
];

// Then one that inserts 7 again, and behind it a bad record, which is not told.
const AGAIN: [Lines; 6] = [
    (100, &[TABLE, "DICTEND"]),
    (101, &["START 1.2.3", "INSERT 1.2.3 T.A NEW ID=7"]),
    (102, &["COMMIT 1.2.3"]),
    (103, &["START 1.2.4", "INSERT 1.2.4 T.A NEW ID=7"]),
    (104, &["COMMIT 1.2.4"]),
    (50, &["DICTEND"]),
];

const BAD: [Lines; 4] = [
    (100, &[TABLE, "DICTEND"]),
    (101, &["START 1.2.3", "INSERT 1.2.3 T.A NEW ID=7"]),
    (102, &["COMMIT 1.2.3"]),
    (103, &["DICTEND"]),
];

/// Why a fold goes no further.
#[derive(Clone, Copy)]
enum End {
    Drained,
    /// This record is bad.
    Malformed(u64),
    /// The commit of this SCN inserts a key that is there.
    Exists(u64),
}

fn ends_so(end: &Verdict, wanted: End) -> bool {
    match (end, wanted) {
        (Verdict::Stopped(Stop::Drained), End::Drained) => true,
        (Verdict::Stopped(Stop::Malformed { rec, .. }), End::Malformed(number)) => *rec == number,
        (
            Verdict::Mismatch {
                scn,
                miss: Miss::Exists(_),
                ..
            },
            End::Exists(commit),
        ) => *scn == commit,
        _ => false,
    }
}

// Table 1 has the rows of these IDs, in rising order of its key, and no others.
fn has_ids(tables: &PlainTables, ids: &[i64]) -> bool {
    let mut rest = ids;
    for row in tables.rows(1) {
        let ([Value::Number(id)], [first, others @ ..]) = (row.values(), rest) else {
            return false;
        };
        if id != first {
            return false;
        }
        rest = others;
    }
    rest.is_empty() && tables.count(1) == ids.len()
}

fn shows(shown: &Folded, n: u64, scn: u64, ids: &[i64], end: End) -> bool {
    shown.n == n
        && shown.scn == scn
        && shown.dict.def(1).is_some()
        && has_ids(&shown.tables, ids)
        && ends_so(&shown.end, end)
}

fn folded(alloc: Global, recs: &[Lines]) -> Result<Folded, Fail> {
    folded_redo(alloc, redo_of_a(alloc, recs)?.as_slice())
}

fn folded_redo(alloc: Global, recs: &[(Header, RedoRec)]) -> Result<Folded, Fail> {
    let skips = Skips::new(alloc);
    Ok(fold_plain(alloc, Plain::first(alloc, 1, 99), recs, &skips)?)
}

#[test]
fn a_fold_shows_what_its_commits_leave(rt: HostRuntime) -> Result<(), Fail> {
    let alloc = rt.alloc();
    let cases = [
        (
            "a commit",
            SEVEN.as_slice(),
            1,
            102,
            [7].as_slice(),
            End::Drained,
        ),
        (
            "undone and rolled back changes",
            UNDONE.as_slice(),
            2,
            107,
            [7, 8].as_slice(),
            End::Drained,
        ),
        (
            "a key that is there",
            AGAIN.as_slice(),
            1,
            102,
            [7].as_slice(),
            End::Exists(104),
        ),
        (
            "a bad record",
            BAD.as_slice(),
            1,
            102,
            [7].as_slice(),
            End::Malformed(4),
        ),
    ];
    for (name, recs, n, scn, ids, end) in cases {
        let shown = folded(alloc, recs)?;
        assert!(rt; shows(&shown, n, scn, ids, end), "{name}");
    }
    Ok(())
}

// The fold of a COMMIT of no open transaction, and then of a dictionary.
fn ended_fold(alloc: Global) -> Result<Evaluator, Fail> {
    let skips = Skips::new(alloc);
    let fold = Evaluator::new(alloc, Plain::first(alloc, 1, 99))?;
    let bad = record(alloc, &[], 100, &["COMMIT 1.2.3"])?;
    let fold = fold.take(&HEAD, bad, &skips)?;
    if fold.is_going() {
        return Err(Fail::new("the fold has ended"));
    }
    let dictionary = record(alloc, &[], 100, &[TABLE, "DICTEND"])?;
    Ok(fold.take(&HEAD, dictionary, &skips)?)
}

fn shows_nothing(shown: &Folded) -> bool {
    shown.n == 0 && !shown.whole && shown.dict.tables().is_empty()
}

#[test]
fn a_fold_that_has_ended_takes_no_more(rt: HostRuntime) -> Result<(), Fail> {
    let fold = ended_fold(rt.alloc())?;
    let over = !fold.is_going();
    let shown = fold.finish(Stop::Drained);
    assert!(rt; over && shows_nothing(&shown));
    Ok(())
}

// Skips the first transaction from the commit after this number on.
fn skipping(alloc: Global, from: u64) -> Result<Skips, Fail> {
    let mut skips = Skips::new(alloc);
    let rule = SkipRule::Transaction(FIRST);
    match skips.add(SkipEntry { rule, from }) {
        Ok(()) => Ok(skips),
        Err(_) => Err(Fail::new("a rule")),
    }
}

#[test]
fn a_rule_counts_from_the_next_commit(rt: HostRuntime) -> Result<(), Fail> {
    let alloc = rt.alloc();
    let recs = redo_of_a(alloc, &SEVEN)?;
    for (from, ids) in [(0, [].as_slice()), (1, [7].as_slice())] {
        let skips = skipping(alloc, from)?;
        let shown = fold_plain(alloc, Plain::first(alloc, 1, 99), recs.as_slice(), &skips)?;
        assert!(rt; shows(&shown, 1, 102, ids, End::Drained), "from {from}");
    }
    Ok(())
}

/// T.B: ID, which is the primary key, and CODE, which is a unique key; numbers.
const CODED: &str = "TABLE 1 T.B COLUMNS ID:NUMBER CODE:NUMBER KEY ID UNIQUE CODE";

/// Changes of T.B, each with the SCN of its transaction, which has no other.
const CHANGES: [(u64, &str); 4] = [
    (101, "INSERT 1.2.3 T.B NEW ID=1 CODE=7"),
    (102, "UPDATE 1.2.3 T.B OLD ID=1 CODE=7 NEW CODE=8"),
    (103, "INSERT 1.2.3 T.B NEW ID=2 CODE=7"),
    (104, "DELETE 1.2.3 T.B OLD ID=2 CODE=7"),
];

// A transaction of this change and no other.
fn transaction(
    alloc: Global,
    tables: &[TableRow],
    recs: &mut Vec<(Header, RedoRec)>,
    scn: u64,
    change: &'static str,
) -> Result<(), Fail> {
    recs.push((HEAD, record(alloc, tables, scn, &["START 1.2.3", change])?))?;
    recs.push((HEAD, record(alloc, tables, scn, &["COMMIT 1.2.3"])?))?;
    Ok(())
}

// The dictionary, so many of the transactions, and one of this change.
fn coded_redo(
    alloc: Global,
    count: usize,
    last: &'static str,
) -> Result<Vec<(Header, RedoRec)>, Fail> {
    let tables = tables_of(alloc, &[CODED])?;
    let tables = tables.as_slice();
    let mut recs = redo_of(alloc, tables, &[(100, &[CODED, "DICTEND"])])?;
    for (scn, change) in CHANGES.iter().take(count) {
        transaction(alloc, tables, &mut recs, *scn, change)?;
    }
    transaction(alloc, tables, &mut recs, 105, last)?;
    Ok(recs)
}

// The row that has the unique value for which the fold ends.
fn owner_told(end: &Verdict) -> Option<i64> {
    let Verdict::Mismatch {
        miss: Miss::Taken { index: 1, owner },
        ..
    } = end
    else {
        return None;
    };
    match owner.values.values() {
        [Value::Number(id)] => Some(*id),
        _ => None,
    }
}

#[test]
fn a_unique_value_has_the_owner_that_it_has_now(rt: HostRuntime) -> Result<(), Fail> {
    let alloc = rt.alloc();
    let seven = "INSERT 1.2.3 T.B NEW ID=3 CODE=7";
    let eight = "INSERT 1.2.3 T.B NEW ID=3 CODE=8";
    let cases = [
        (0, seven, None, 1),
        (1, seven, Some(1), 1),
        (2, seven, None, 3),
        (2, eight, Some(1), 2),
        (3, seven, Some(2), 3),
        (4, seven, None, 5),
        (4, eight, Some(1), 4),
    ];
    for (count, last, owner, n) in cases {
        let recs = coded_redo(alloc, count, last)?;
        let shown = folded_redo(alloc, recs.as_slice())?;
        let told = owner_told(&shown.end) == owner && shown.n == n;
        assert!(rt; told, "{last} after {count}");
    }
    Ok(())
}

/// A row of table 1, under this key.
#[derive(Clone, Copy)]
struct Loaded {
    key: i64,
    id: i64,
    code: Option<i64>,
}

const LOADED: Loaded = Loaded {
    key: 1,
    id: 1,
    code: Some(7),
};

fn row(alloc: Global, id: i64, code: Option<i64>) -> Result<Row, Fail> {
    match code {
        None => Ok(Row::of(vec![in alloc; Value::Number(id)]?)),
        Some(code) => Ok(Row::of(vec![in alloc; Value::Number(id), Value::Number(code)]?)),
    }
}

// The row of ID 5 in table 2, and these rows in table 1.
fn rows_of(alloc: Global, rows: &[Loaded]) -> Result<PlainTables, Fail> {
    let mut tables = PlainTables::new(alloc);
    tables.put(2, row(alloc, 5, None)?, row(alloc, 5, None)?)?;
    for loaded in rows {
        put_loaded(alloc, &mut tables, *loaded)?;
    }
    Ok(tables)
}

fn put_loaded(alloc: Global, tables: &mut PlainTables, loaded: Loaded) -> Result<(), Fail> {
    let key = row(alloc, loaded.key, None)?;
    let row = row(alloc, loaded.id, loaded.code)?;
    tables.put(1, key, row)?;
    Ok(())
}

// A fold over them.
fn over_rows(alloc: Global, rows: &[Loaded]) -> Result<Evaluator, Fail>
    ensures first { IfOk result (λ fold. recs_of fold ≡ 0) }
{
    let tables = rows_of(alloc, rows)?;
    Ok(Evaluator::new(alloc, Plain::over(alloc, 1, 99, tables))?)
}

fn takes(alloc: Global, fold: Evaluator, rec: RedoRec) -> Result<Evaluator, TakeFault>
    requires few { recs_of fold < 8 }
    ensures records { IfOk result (λ next. recs_of next ≤ recs_of fold + 1) }
{
    fold.take(&HEAD, rec, &Skips::new(alloc))
}

// T.B is table 1, and T.A table 2.
fn first_table(alloc: Global) -> Result<RedoRec, Fail> {
    record(alloc, &[], 100, &[CODED])
}

fn second_table(alloc: Global) -> Result<RedoRec, Fail> {
    record(
        alloc,
        &[],
        100,
        &["TABLE 2 T.A COLUMNS ID:NUMBER KEY ID", "DICTEND"],
    )
}

// The fold with the dictionary, whose rows it finds, unless they are no sound tables.
fn over_dictionary(alloc: Global, fold: Evaluator) -> Result<Option<Evaluator>, Fail>
    requires first { recs_of fold ≡ 0 }
    ensures records { IfOk result (λ found. IfSome found (λ next. recs_of next ≤ 2)) }
{
    let fold = takes(alloc, fold, first_table(alloc)?)?;
    let last = second_table(alloc)?;
    match takes(alloc, fold, last) {
        Ok(fold) => Ok(Some(fold)),
        Err(TakeFault::Unsound) => Ok(None),
        Err(TakeFault::Memory) => Err(Fail::new("no memory")),
    }
}

// The update of the row of ID 1 from code 7 to code 8, and its commit.
fn updates(alloc: Global, fold: Evaluator) -> Result<Evaluator, Fail>
    requires few { recs_of fold ≤ 2 }
{
    let tables = tables_of(alloc, &[CODED])?;
    let change = "UPDATE 1.2.3 T.B OLD ID=1 CODE=7 NEW CODE=8";
    let update = record(alloc, tables.as_slice(), 101, &["START 1.2.3", change])?;
    let fold = takes(alloc, fold, update)?;
    let commit = record(alloc, &[], 102, &["COMMIT 1.2.3"])?;
    Ok(takes(alloc, fold, commit)?)
}

// The code of the first row of table 1.
fn code_shown(shown: &Folded) -> Option<i64> {
    let Some(row) = shown.tables.rows(1).next() else {
        return None;
    };
    match row.values() {
        [_, Value::Number(code)] => Some(*code),
        _ => None,
    }
}

// The fold over the row of code 7, by a dictionary that comes behind it, of the update to code 8.
fn updated_fold(alloc: Global) -> Result<Evaluator, Fail> {
    let Some(fold) = over_dictionary(alloc, over_rows(alloc, &[LOADED])?)? else {
        return Err(Fail::new("the rows are sound"));
    };
    updates(alloc, fold)
}

fn shows_code(shown: &Folded, code: i64) -> bool {
    shown.n == 1 && shown.tables.count(2) == 1 && code_shown(shown) == Some(code)
}

#[test]
fn rows_wait_for_the_dictionary(rt: HostRuntime) -> Result<(), Fail> {
    let fold = updated_fold(rt.alloc())?;
    let going = fold.is_going();
    let shown = fold.finish(Stop::Drained);
    assert!(rt; going && shows_code(&shown, 8));
    Ok(())
}

// Whether a fold goes on over this row, beside the one of ID 1.
fn goes_on_over(alloc: Global, loaded: Loaded) -> Result<bool, Fail> {
    let fold = over_rows(alloc, &[LOADED, loaded])?;
    Ok(over_dictionary(alloc, fold)?.is_some_and(|fold| fold.is_going()))
}

#[test]
fn rows_that_are_no_sound_tables_are_told(rt: HostRuntime) -> Result<(), Fail> {
    let alloc = rt.alloc();
    let cases = [
        ("another code", 2, Some(8), true),
        ("the same code", 2, Some(7), false),
        ("another key", 3, Some(8), false),
        ("no code", 2, None, false),
    ];
    for (name, key, code, sound) in cases {
        let loaded = Loaded { key, id: 2, code };
        assert!(rt; goes_on_over(alloc, loaded)? == sound, "{name}");
    }
    Ok(())
}

#[test]
fn a_copy_is_equal(rt: HostRuntime) -> Result<(), Fail> {
    let alloc = rt.alloc();
    let shown = folded(alloc, &SEVEN)?.copy()?;
    assert!(rt; shows(&shown, 1, 102, &[7], End::Drained));
    let start = Plain::first(alloc, 1, 99).copy()?;
    assert!(rt; start.scn == 99 && start.tables.count(1) == 0);
    Ok(())
}
