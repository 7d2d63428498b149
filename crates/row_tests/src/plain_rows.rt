//! What no clause says: that memory is enough, here for rows that are put, indexed, found by a change and written.
ghost use Rattle.std.specs.Prelude.{IsTrue, IfOk, IfSome};
ghost use Rattle.redo_spec.specs.Tables.{assembled};
ghost use Rattle.row_apply.specs.Overlaid.{overlaid, are_of};
ghost use Rattle.row_apply.specs.Soundness.{AreSound};
ghost use Rattle.plain_store.specs.Unique.{IsIndexed};

use crate::lines::{CODED, change, dictionary};
use plain_store::{Based, KeepFault, PlainTables, UniqueIndex, keep, put_in};
use redo_dict::Dict;
use redo_vec::Change;
use rl_value::{Row, Value};
use row_apply::laws::no_writes_change_nothing;
use row_apply::{EffectFault, Overlay, Writes, effect};
use std::alloc::Global;
use std::test::Fail;

// Rows by ID and CODE, in table 1.
fn rows_of(alloc: Global, rows: &[(i64, i64)]) -> Result<PlainTables, Fail> {
    let mut tables = PlainTables::new(alloc);
    for (id, code) in rows {
        let key = Row::of(vec![in alloc; Value::Number(*id)]?);
        let row = Row::of(vec![in alloc; Value::Number(*id), Value::Number(*code)]?);
        tables.put(1, key, row)?;
    }
    Ok(tables)
}

// What the change writes, if it does not miss.
#[tactic(auto, using(crate::proofs::NoRows::definitions_assembled))]
fn writes_of(
    alloc: Global,
    dict: &Dict,
    tables: &PlainTables,
    index: &UniqueIndex,
    change: &Change,
) -> Result<Option<Writes>, Fail>
    requires indexed { IsIndexed dict.now.tables tables.now index.now }
    requires sound { AreSound (assembled dict.now.tables tables.now) }
    ensures sound { IfOk result (λ found. IfSome found (λ writes.
        AreSound (overlaid (assembled dict.now.tables tables.now) writes))) }
    ensures of_tables { IfOk result (λ found. IfSome found (λ writes. IsTrue (are_of dict.now.tables writes))) }
{
    if dict.check_change(change).is_err() {
        return Err(Fail::from("an accepted change"));
    }
    let base = Based::of(dict, tables, index);
    let mut over = Overlay::new(alloc);
    no_writes_change_nothing();
    match effect(&base, dict, &mut over, change) {
        Ok(()) => Ok(Some(over.into_writes()?)),
        Err(EffectFault::Miss(_)) => Ok(None),
        Err(EffectFault::Memory) => Err(Fail::from("memory")),
    }
}

/// What keeping rows and one change of them came to.
#[derive(Clone, Copy, Debug, PartialEq, Eq)]
enum Told {
    Unsound,
    Missed,
    /// So many rows.
    Left(usize),
}

fn outcome(alloc: Global, rows: &[(i64, i64)], step: &str) -> Result<Told, Fail> {
    let dict = dictionary(alloc, CODED)?;
    let mut tables = rows_of(alloc, rows)?;
    let mut kept = match keep(alloc, &dict, &tables) {
        Ok(kept) => kept,
        Err(KeepFault::Unsound) => return Ok(Told::Unsound),
        Err(KeepFault::Memory) => return Err(Fail::from("memory")),
    };
    let change = change(alloc, dict.tables(), step)?;
    let Some(writes) = writes_of(alloc, &dict, &tables, &kept.index, &change)? else {
        return Ok(Told::Missed);
    };
    let index = &mut kept.index;
    let count = &mut kept.count;
    if !put_in(&dict, &mut tables, index, count, writes)? {
        return Err(Fail::from("fewer rows"));
    }
    Ok(Told::Left(tables.count(1)))
}

#[test]
fn a_change_finds_sound_rows_by_their_keys(rt: HostRuntime) -> Result<(), Fail> {
    let cases: [(&'static [(i64, i64)], &'static str, Told); 6] = [
        (&[], "INSERT 1.2.3 T.A NEW ID=1 CODE=7", Told::Left(1)),
        (&[(1, 7)], "INSERT 1.2.3 T.A NEW ID=2 CODE=8", Told::Left(2)),
        (&[(1, 7)], "INSERT 1.2.3 T.A NEW ID=2 CODE=7", Told::Missed),
        (
            &[(1, 7), (2, 8)],
            "DELETE 1.2.3 T.A OLD ID=2 CODE=8",
            Told::Left(1),
        ),
        (
            &[(1, 7), (2, 8)],
            "DELETE 1.2.3 T.A OLD ID=3 CODE=9",
            Told::Missed,
        ),
        (
            &[(1, 7), (2, 7)],
            "DELETE 1.2.3 T.A OLD ID=1 CODE=7",
            Told::Unsound,
        ),
    ];
    for (rows, step, want) in cases {
        assert!(rt; outcome(rt.alloc(), rows, step)? == want);
    }
    Ok(())
}
