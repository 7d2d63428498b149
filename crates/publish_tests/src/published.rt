//! What no clause says of the publisher: that ample memory is enough for each call, and that a store which fails at any of its
//! calls loses nothing that was published.
ghost use Rattle.std.specs.Prelude.{◌≡◌, IsTrue, IsSome, false};
ghost use Rattle.redo_vec.specs.Forms.{is_line30};

use eager_work::Commit;
use log_registry::LogEntry;
use publisher::{PubFault, Publisher};
use redo_dict::Dict;
use redo_vec::{Column, Columns, KeyColumns, KeyLists, Kind, Line30, TableRow};
use redo_wire::Header;
use rl_mem::MemKeeper;
use rl_ports::Keeper;
use rl_value::{Row, Value, Xid};
use row_apply::{Write, Writes};
use skip_guard::{Level, Pattern, SkipRule};
use std::alloc::Global;
use std::test::Fail;

/// A call of a case: a row by its ID and CODE, a commit by its number and the row that it puts or takes away.
#[derive(Clone, Copy)]
enum Step {
    Base(i64, i64),
    Local(i64, i64),
    Put(u64, i64, i64),
    Gone(u64, i64),
    Skip,
    Guard,
}

fn word(alloc: Global, bytes: &[u8]) -> Result<Line30, Fail>
    requires { IsTrue (is_line30 bytes.now) }
{
    Ok(Line30::of(Vec::from_slice(alloc, bytes)?))
}

// T.A: ID is the primary key, and CODE a unique one.
fn table(alloc: Global) -> Result<TableRow, Fail> {
    let id = Column {
        name: word(alloc, b"ID")?,
        kind: Kind::Number,
        nullable: false,
    };
    let code = Column {
        name: word(alloc, b"CODE")?,
        kind: Kind::Number,
        nullable: true,
    };
    let primary = KeyColumns::of(vec![in alloc; 0]?);
    let unique = KeyColumns::of(vec![in alloc; 1]?);
    Ok(TableRow {
        id: 1,
        schema: word(alloc, b"T")?,
        name: word(alloc, b"A")?,
        columns: Columns::of(vec![in alloc; id, code]?),
        keys: KeyLists::of(vec![in alloc; primary, unique]?),
    })
}

// Its dictionary is whole, as that of a standby is.
fn dict(alloc: Global) -> Result<Dict, Fail> {
    let mut dict = Dict::new(alloc);
    let added = dict.add(table(alloc)?).is_ok();
    if !added {
        return Err(Fail::from("no table"));
    }
    Ok(dict)
}

// Log 1 of database 9, SCNs 100 to 199.
const FIRST_LOG: LogEntry = LogEntry {
    head: Header {
        seq: 1,
        dbid: 9,
        first: 100,
        next: 200,
        count: 3,
    },
    length: 146,
};

const XID: Xid = Xid {
    usn: 1,
    slot: 2,
    sqn: 3,
};

fn row(alloc: Global, id: i64, code: i64) -> Result<Row, Fail> {
    Ok(Row::of(vec![in alloc; Value::Number(id), Value::Number(code)]?))
}

// A commit that leaves this under the ID, with the SCN 100 and its number.
fn commit(alloc: Global, number: u64, id: i64, row: Option<Row>) -> Result<Commit, Fail> {
    let key = Row::of(vec![in alloc; Value::Number(id)]?);
    let write = Write { table: 1, key, row };
    Ok(Commit {
        number,
        scn: number.saturating_add(100),
        xid: XID,
        writes: Writes::of(vec![in alloc; write]?),
    })
}

fn takes_calls<K: Keeper>(p: &Publisher<K>) -> bool
    ensures born { IsTrue result → IsSome p.now.state }
    ensures running { IsTrue result → p.now.stopped ≡ false }
{
    p.born().is_some() && !p.stopped()
}

// The ID and the CODE of each row that is shown, in order, as decimal digits.
fn digits<K: Keeper>(p: &Publisher<K>) -> Result<i64, Fail> {
    let view = p.look()?;
    let mut digits = 0i64;
    for row in view.tables.rows(1) {
        for value in row.values() {
            if let Value::Number(number) = value {
                digits = digits.wrapping_mul(10).wrapping_add((*number).clamp(0, 9));
            }
        }
    }
    Ok(digits)
}

fn skip_all(alloc: Global) -> Result<SkipRule, Fail> {
    match Pattern::of(alloc, b"T.%")? {
        None => Err(Fail::from("no pattern")),
        Some(pattern) => Ok(SkipRule::Tables(pattern)),
    }
}

fn publish(p: &mut Publisher<MemKeeper>, commit: Commit) -> Result<Option<PubFault>, Fail> {
    if !takes_calls(p) {
        return Err(Fail::from("no call may be made"));
    }
    match p.publish(commit) {
        Ok(_) => Ok(None),
        Err((fault, _)) => Ok(Some(fault)),
    }
}

// None where the call may not be made.
fn put(p: &mut Publisher<MemKeeper>, local: bool, row: Row) -> Result<Option<PubFault>, Fail> {
    if !takes_calls(p) || !p.takes_row(1, &row) {
        return Err(Fail::from("no row may be put"));
    }
    if !local {
        return Ok(p.add_base(1, row).err());
    }
    if !p.takes_users(1) {
        return Err(Fail::from("no user may write"));
    }
    Ok(p.write_local(1, row).err())
}

fn change(p: &mut Publisher<MemKeeper>, rule: Option<SkipRule>) -> Result<Option<PubFault>, Fail> {
    if !takes_calls(p) {
        return Err(Fail::from("no call may be made"));
    }
    match rule {
        None => Ok(p.set_level(Level::Standby).err()),
        Some(rule) => Ok(p.add_skip(rule).err()),
    }
}

fn take(alloc: Global, p: &mut Publisher<MemKeeper>, step: Step) -> Result<Option<PubFault>, Fail> {
    match step {
        Step::Base(id, code) => put(p, false, row(alloc, id, code)?),
        Step::Local(id, code) => put(p, true, row(alloc, id, code)?),
        Step::Put(number, id, code) => {
            let row = row(alloc, id, code)?;
            publish(p, commit(alloc, number, id, Some(row))?)
        }
        Step::Gone(number, id) => publish(p, commit(alloc, number, id, None)?),
        Step::Skip => change(p, Some(skip_all(alloc)?)),
        Step::Guard => change(p, None),
    }
}

fn loaded(alloc: Global, keeper: MemKeeper) -> Result<Publisher<MemKeeper>, Fail> {
    match Publisher::load(alloc, keeper) {
        Ok(p) => Ok(p),
        Err(_) => Err(Fail::from("not loaded")),
    }
}

// A standby over a store whose calls of these numbers fail, if it could be created.
fn tried(alloc: Global, fails: &[u64], keeps: bool) -> Result<Option<Publisher<MemKeeper>>, Fail> {
    let keeper = MemKeeper::new(alloc, Vec::from_slice(alloc, fails)?, keeps);
    let Ok(mut p) = Publisher::load(alloc, keeper) else {
        return Ok(None);
    };
    if p.born().is_some() || p.stopped() {
        return Err(Fail::from("a standby is there"));
    }
    match p.create(FIRST_LOG, dict(alloc)?) {
        Ok(_) => Ok(Some(p)),
        Err(_) => Ok(None),
    }
}

fn created(alloc: Global) -> Result<Publisher<MemKeeper>, Fail> {
    match tried(alloc, &[], false)? {
        Some(p) => Ok(p),
        None => Err(Fail::from("not created")),
    }
}

#[test]
fn what_is_written_is_loaded_again(rt: HostRuntime) -> Result<(), Fail> {
    let alloc = rt.alloc();
    let mut p = created(alloc)?;
    let cases = [
        (Step::Base(1, 5), None),
        (Step::Base(1, 6), Some(PubFault::Exists)),
        (Step::Base(2, 5), Some(PubFault::Taken)),
        (Step::Put(2, 3, 6), Some(PubFault::NotNext(0))),
        (Step::Put(1, 3, 6), None),
        // A row that has the CODE of another one may not be put, so its commit is published without it.
        (Step::Put(2, 4, 6), None),
        (Step::Gone(3, 1), None),
        (Step::Skip, None),
        (Step::Skip, Some(PubFault::Twice)),
        (Step::Guard, None),
        (Step::Local(7, 6), Some(PubFault::Taken)),
        (Step::Local(3, 8), None),
    ];
    for (step, want) in cases {
        let found = take(alloc, &mut p, step)?;
        assert_eq!(rt; found, want);
    }
    let p = loaded(alloc, p.into_keeper())?;
    let view = p.look()?;
    let same = (view.n, view.scn) == (3, 103) && digits(&p)? == 38;
    let kept = p.level() == Level::Standby && p.skips().entries().len() == 1;
    assert_eq!(rt; same && kept, true);
    Ok(())
}

// The call that fails may be one of the loading.
fn loaded_again(alloc: Global, keeper: MemKeeper) -> Result<Publisher<MemKeeper>, Fail> {
    match Publisher::load(alloc, keeper) {
        Ok(again) => Ok(again),
        Err(refused) => loaded(alloc, refused.1),
    }
}

// Publishes the commits from the next one to this one, and tells the first fault.
fn go_on(alloc: Global, p: &mut Publisher<MemKeeper>, last: u64) -> Result<Option<PubFault>, Fail> {
    let first = p.look()?.n;
    for number in 1..last.saturating_add(1) {
        if number > first {
            let at = (number % 10) as i64;
            let fault = take(alloc, p, Step::Put(number, at, at))?;
            if fault.is_some() {
                return Ok(fault);
            }
        }
    }
    Ok(None)
}

// Whether a store that fails at this call of its own holds then what was published, or one commit more where it keeps what it
// was told, and whether the others can be published over what it holds.
fn loses_nothing(alloc: Global, call: u64, keeps: bool) -> Result<bool, Fail> {
    let Some(mut p) = tried(alloc, &[call], keeps)? else {
        // It failed before there was a standby.
        return Ok(true);
    };
    let failed = go_on(alloc, &mut p, 4)? == Some(PubFault::KeeperFault);
    let shown = p.look()?.n;
    let stopped = p.stopped();
    let mut again = loaded_again(alloc, p.into_keeper())?;
    let kept = again.look()?.n;
    let more = if failed && keeps { 1 } else { 0 };
    let ended = go_on(alloc, &mut again, 4)?.is_none() && digits(&again)? == 11223344;
    Ok(ended && stopped == failed && kept == shown.saturating_add(more))
}

#[test]
fn a_store_that_fails_at_any_call_loses_nothing(rt: HostRuntime) -> Result<(), Fail> {
    let alloc = rt.alloc();
    for call in 1..24u64 {
        let kept = loses_nothing(alloc, call, true)?;
        let dropped = loses_nothing(alloc, call, false)?;
        assert_eq!(rt; kept && dropped, true, "at call {call}");
    }
    Ok(())
}
