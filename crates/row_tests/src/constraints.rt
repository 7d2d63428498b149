//! What no clause says: that ample memory is enough to judge written rows.
ghost use Rattle.std.specs.Prelude.{◌≡◌, IsTrue};
ghost use Rattle.std.specs.Ordering.{is_lt};
ghost use Rattle.rl_value.specs.Order.{key_cmp};
ghost use Rattle.row_apply.specs.Overlaid.{written_key, writes_rise};

use crate::stored_tables::filled;
use constraint_check::meets_constraints;
use rl_value::{Row, Value};
use row_apply::{Write, Writes};
use std::alloc::Global;
use std::cmp::Ordering;
use std::test::Fail;
use table_store::Tables;

fn is_before(first: &Write, second: &Write) -> bool
    ensures exact { result ≡ is_lt (key_cmp (written_key first.now) (written_key second.now)) }
{
    match first.table.cmp(&second.table) {
        Ordering::Less => true,
        Ordering::Equal => first.key.cmp(&second.key) == Ordering::Less,
        Ordering::Greater => false,
    }
}

// They are two, and rise.
fn are_two(writes: &[Write]) -> bool
    ensures rising { IsTrue result → IsTrue (writes_rise writes.now) }
{
    match writes {
        [first, second] => is_before(first, second),
        _ => false,
    }
}

// What is left under a key of T.A: a row's ID and CODE, where 0 is Null; ID 0 says that the row is gone.
type Left = (i64, i64, i64);

fn row(alloc: Global, id: i64, code: i64) -> Result<Row, Fail> {
    let code = match code {
        0 => Value::Null,
        _ => Value::Number(code),
    };
    Ok(Row::of(vec![in alloc; Value::Number(id), code]?))
}

fn write(alloc: Global, left: Left) -> Result<Write, Fail> {
    let (key, id, code) = left;
    let key = Row::of(vec![in alloc; Value::Number(key)]?);
    let row = match id {
        0 => None,
        _ => Some(row(alloc, id, code)?),
    };
    Ok(Write { table: 1, key, row })
}

fn is_met(alloc: Global, tables: &Tables, first: Left, second: Left) -> Result<bool, Fail> {
    let writes = vec![in alloc; write(alloc, first)?, write(alloc, second)?]?;
    if !are_two(writes.as_slice()) {
        return Err(Fail::from("no two rows that rise"));
    }
    Ok(meets_constraints(alloc, tables.dict(), tables, &Writes::of(writes))?)
}

#[test]
fn written_rows_are_judged_together(rt: HostRuntime) -> Result<(), Fail> {
    let alloc = rt.alloc();
    // The CODEs of the rows with the IDs 1, 2 and 3 are 6, 7 and 8.
    let tables = filled(alloc)?;
    let cases = [
        // Two change theirs with each other.
        ((1, 1, 7), (2, 2, 6), true),
        // 7 is free once the row that has it is gone, and not before.
        ((1, 1, 7), (2, 0, 0), true),
        ((1, 1, 7), (4, 4, 9), false),
        // Two have one value, or no value.
        ((4, 4, 9), (5, 5, 9), false),
        ((4, 4, 0), (5, 5, 0), true),
        // It stands under another key than its own.
        ((4, 5, 9), (6, 6, 5), false),
    ];
    for (first, second, met) in cases {
        assert!(rt;
            is_met(alloc, &tables, first, second)? == met,
            "{first:?} {second:?}"
        );
    }
    Ok(())
}
