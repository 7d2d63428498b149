//! What no clause says: that ample memory is enough for commits, one after the other, over tables that are stored.
ghost use Rattle.std.specs.Prelude.{IfOk, IsTrue};
ghost use Rattle.redo_spec.specs.Tables.{definitions_of};
ghost use Rattle.row_apply.specs.Overlaid.{overlaid, are_of};
ghost use Rattle.row_apply.specs.Soundness.{AreSound};

use crate::lines::{CODED, change, dictionary};
use redo_vec::{Change, Op};
use rl_value::{Cells, Key, Row, Value, Xid};
use row_apply::laws::{no_writes_change_nothing, tables_without_rows_are_sound};
use row_apply::{Overlay, Rows, effect};
use std::alloc::Global;
use std::test::Fail;
use table_store::{StoreFault, Tables};

// T.A without rows.
fn empty(alloc: Global) -> Result<Tables, Fail>
    ensures sound { IfOk result (λ tables. AreSound tables.tables) }
{
    let dict = dictionary(alloc, CODED)?;
    tables_without_rows_are_sound();
    match Tables::new(alloc, dict) {
        Ok(tables) => Ok(tables),
        Err(_) => Err(Fail::from("no memory")),
    }
}

// The writes of one commit over these tables, if each of its steps is accepted and done.
fn overlay(alloc: Global, tables: &Tables, steps: &[&'static str]) -> Result<Overlay, Fail>
    requires sound { AreSound tables.now.tables }
    ensures sound { IfOk result (λ over. AreSound (overlaid tables.now.tables over)) }
    ensures of_tables { IfOk result (λ over. IsTrue (are_of (definitions_of tables.now.tables) over)) }
{
    let dict = tables.dict();
    let mut over = Overlay::new(alloc);
    no_writes_change_nothing();
    for step in steps {
        let change = change(alloc, dict.tables(), step)?;
        if dict.check_change(&change).is_err() {
            return Err(Fail::from("a step was refused"));
        }
        if effect(tables, dict, &mut over, &change).is_err() {
            return Err(Fail::from("a step was not done"));
        }
    }
    Ok(over)
}

// The tables after a commit, beside those before it.
fn after(alloc: Global, tables: &Tables, steps: &[&'static str]) -> Result<Tables, Fail>
    requires sound { AreSound tables.now.tables }
    ensures sound { IfOk result (λ after. AreSound after.tables) }
{
    let writes = overlay(alloc, tables, steps)?.into_writes()?;
    match tables.with(&writes) {
        Ok(tables) => Ok(tables),
        Err(_) => Err(Fail::from("a commit was not made")),
    }
}

// The same, where nobody needs the tables before it.
fn moved(alloc: Global, tables: Tables, steps: &[&'static str]) -> Result<Tables, Fail>
    requires sound { AreSound tables.tables }
    ensures sound { IfOk result (λ after. AreSound after.tables) }
{
    let writes = overlay(alloc, &tables, steps)?.into_writes()?;
    match tables.written(&writes) {
        Ok(tables) => Ok(tables),
        Err(_) => Err(Fail::from("a commit was not made")),
    }
}

fn number(row: &Row, column: usize) -> i64 {
    match row.values().get(column) {
        Some(Value::Number(number)) => *number,
        _ => -1,
    }
}

// The ID of the row that has this CODE, or -1.
fn owner(alloc: Global, tables: &Tables, code: i64) -> Result<i64, Fail> {
    let Some(table) = tables.dict().def(1) else {
        return Ok(-1);
    };
    if table.keys.items().len() < 2 {
        return Ok(-1);
    }
    let key = Key {
        table: 1,
        index: 1,
        values: Row::of(vec![in alloc; Value::Number(code)]?),
    };
    match tables.owner(&key) {
        None => Ok(-1),
        Some(primary) => Ok(number(primary, 0)),
    }
}

// The ID and the CODE of each row, in order, as decimal digits.
fn digits(tables: &Tables) -> i64 {
    let mut digits = 0i64;
    for row in tables.rows(1) {
        let id = number(row, 0).clamp(0, 9);
        let code = number(row, 1).clamp(0, 9);
        digits = digits.wrapping_mul(100).wrapping_add(id * 10 + code);
    }
    digits
}

pub(crate) fn filled(alloc: Global) -> Result<Tables, Fail>
    ensures sound { IfOk result (λ tables. AreSound tables.tables) }
{
    let tables = empty(alloc)?;
    let steps = [
        "INSERT 1.2.3 T.A NEW ID=2 CODE=7",
        "INSERT 1.2.3 T.A NEW ID=1 CODE=6",
        "INSERT 1.2.3 T.A NEW ID=3 CODE=8",
    ];
    moved(alloc, tables, &steps)
}

#[test]
fn a_commit_leaves_the_tables_before_it(rt: HostRuntime) -> Result<(), Fail> {
    let alloc = rt.alloc();
    let before = filled(alloc)?;
    let steps = [
        // Rows 1 and 2 swap their CODE, by way of 9.
        "UPDATE 1.2.3 T.A OLD ID=1 CODE=6 NEW CODE=9",
        "UPDATE 1.2.3 T.A OLD ID=2 CODE=7 NEW CODE=6",
        "UPDATE 1.2.3 T.A OLD ID=1 CODE=9 NEW CODE=7",
        "DELETE 1.2.3 T.A OLD ID=3 CODE=8",
        "INSERT 1.2.3 T.A NEW ID=4 CODE=8",
    ];
    let after = after(alloc, &before, &steps)?;
    assert!(rt; digits(&before) == 162_738 && before.count() == 3);
    assert!(rt; digits(&after) == 172_648 && after.count() == 3);
    let cases = [(6, 1, 2), (7, 2, 1), (8, 3, 4), (9, -1, -1)];
    for (code, old, new) in cases {
        assert!(rt; owner(alloc, &before, code)? == old, "before, of {code}");
        assert!(rt; owner(alloc, &after, code)? == new, "after, of {code}");
    }
    Ok(())
}

// The row of this ID, with no CODE.
fn bare(alloc: Global, id: u32) -> Result<Change, Fail> {
    let new = Cells::of(vec![in alloc; (0, Value::Number(i64::from(id))), (1, Value::Null)]?);
    Ok(Change {
        xid: Xid {
            usn: 1,
            slot: 2,
            sqn: 3,
        },
        op: Op::Insert,
        table: 1,
        old: Cells::of(Vec::new(alloc)),
        new,
    })
}

// The writes that insert the rows of these IDs.
fn inserts(alloc: Global, tables: &Tables, from: u32, to: u32) -> Result<Overlay, Fail>
    requires sound { AreSound tables.now.tables }
    ensures sound { IfOk result (λ over. AreSound (overlaid tables.now.tables over)) }
    ensures of_tables { IfOk result (λ over. IsTrue (are_of (definitions_of tables.now.tables) over)) }
{
    let dict = tables.dict();
    let mut over = Overlay::new(alloc);
    no_writes_change_nothing();
    for id in from..to {
        let change = bare(alloc, id)?;
        if dict.check_change(&change).is_err() {
            return Err(Fail::from("a step was refused"));
        }
        if effect(tables, dict, &mut over, &change).is_err() {
            return Err(Fail::from("a step was not done"));
        }
    }
    Ok(over)
}

// The tables with these rows, or why they were refused; whether they fit was told before.
fn grown(
    alloc: Global,
    tables: Tables,
    from: u32,
    to: u32,
) -> Result<Result<Tables, StoreFault>, Fail>
    requires sound { AreSound tables.tables }
    ensures sound { IfOk result (λ after. IfOk after (λ tables. AreSound tables.tables)) }
{
    let writes = inserts(alloc, &tables, from, to)?.into_writes()?;
    let fits = tables.fits(&writes);
    let after = tables.written(&writes);
    if fits != after.is_ok() {
        return Err(Fail::from("what fits is not what is taken"));
    }
    Ok(after)
}

const BATCH: u32 = 65_536;

#[test]
fn one_row_more_than_2_to_the_20_is_refused(rt: HostRuntime) -> Result<(), Fail> {
    let alloc = rt.alloc();
    let mut tables = empty(alloc)?;
    for batch in 0..16 {
        match grown(alloc, tables, batch * BATCH, batch * BATCH + BATCH)? {
            Ok(after) => tables = after,
            Err(_) => return Err(Fail::from("refused too early")),
        }
    }
    assert_eq!(rt; tables.count(), 1_048_576);
    let told = match grown(alloc, tables, 16 * BATCH, 16 * BATCH + 1)? {
        Ok(_) => None,
        Err(fault) => Some(fault),
    };
    assert_eq!(rt; told, Some(StoreFault::RowLimit));
    Ok(())
}
