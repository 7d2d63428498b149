//! What no clause says: that changes are made with ample memory, here of a table without rows beneath.

ghost use Rattle.std.specs.Prelude.{◌≡◌, ◌∷◌, []};
ghost use Rattle.redo_spec.specs.Tables.{empty_tables};
ghost use Rattle.row_apply.specs.Overlaid.{overlaid};
ghost use Rattle.row_apply.specs.Soundness.{AreSound};

use crate::lines::{CODED, change, table};
use redo_dict::Dict;
use redo_vec::{Change, TableRow};
use rl_value::{Key, Miss, Row};
use row_apply::laws::{no_writes_change_nothing, tables_without_rows_are_sound};
use row_apply::{EffectFault, Overlay, Rows, Write, Writes, effect};
use std::alloc::Global;
use std::test::Fail;

// A table without rows.
#[derive(Drop)]
struct Bare {
    table: TableRow,
}

impl Rows for Bare {
    ghost tables = { λ b. empty_tables (b.table ∷ []) };

    #[tactic(auto, using(crate::proofs::NoRows::nothing_found))]
    fn get(&self, _key: &Key) -> Option<&Row> {
        None
    }

    #[tactic(auto, using(crate::proofs::NoRows::nobody_owns))]
    fn owner(&self, _key: &Key) -> Option<&Row> {
        None
    }
}

/// What a change came to.
#[derive(Clone, Copy, Debug, PartialEq, Eq)]
enum Told {
    Done,
    Absent,
    Differs(u8),
    Exists,
    Taken(u8),
    Memory,
    // The dictionary does not accept the change.
    Refused,
}

fn told_by(fault: EffectFault) -> Told {
    match fault {
        EffectFault::Memory => Told::Memory,
        EffectFault::Miss(miss) => match miss {
            Miss::Absent(_) => Told::Absent,
            Miss::Differs { column, .. } => Told::Differs(column),
            Miss::Exists(_) => Told::Exists,
            Miss::Taken { index, .. } => Told::Taken(index),
        },
    }
}

// What a change came to, by a copy of its fault.
fn told_of(answer: &Result<(), EffectFault>) -> Result<Told, Fail> {
    match answer {
        Ok(()) => Ok(Told::Done),
        Err(fault) => Ok(told_by(fault.copy()?)),
    }
}

// A table without rows, its dictionary, and an overlay over it.
#[derive(Drop)]
struct World {
    dict: Dict,
    base: Bare,
    over: Overlay,
    ghost defined: { dict.tables ≡ base.table ∷ [] },
    ghost sound: { AreSound (overlaid (empty_tables (base.table ∷ [])) over) },
}

impl World {
    fn new(alloc: Global) -> Result<Option<World>, Fail> {
        let table = table(alloc, CODED)?;
        let mut dict = Dict::new(alloc);
        let added = dict.add(table.copy()?).is_ok();
        if !added {
            return Ok(None);
        }
        tables_without_rows_are_sound();
        no_writes_change_nothing();
        Ok(Some(World {
            dict,
            base: Bare { table },
            over: Overlay::new(alloc),
        }))
    }

    fn apply(&mut self, change: &Change) -> Result<Told, Fail> {
        if self.dict.check_change(change).is_err() {
            return Ok(Told::Refused);
        }
        tables_without_rows_are_sound();
        told_of(&effect(&self.base, &self.dict, &mut self.over, change))
    }
}

// What the first of these steps came to that was not done.
fn outcome(world: &mut World, alloc: Global, steps: &[&'static str]) -> Result<Told, Fail> {
    for step in steps {
        let change = change(alloc, world.dict.tables(), step)?;
        let told = world.apply(&change)?;
        if told != Told::Done {
            return Ok(told);
        }
    }
    Ok(Told::Done)
}

fn verdict(alloc: Global, steps: &[&'static str]) -> Result<Told, Fail> {
    match World::new(alloc)? {
        None => Ok(Told::Refused),
        Some(mut world) => outcome(&mut world, alloc, steps),
    }
}

const INSERT: &str = "INSERT 1.2.3 T.A NEW ID=1 CODE=7";

const INSERT_BESIDE: &str = "INSERT 1.2.3 T.A NEW ID=2 CODE=7";

const MOVE: &str = "UPDATE 1.2.3 T.A OLD ID=1 CODE=7 NEW ID=2 CODE=7";

const DELETE: &str = "DELETE 1.2.3 T.A OLD ID=1 CODE=7";

const DELETE_BESIDE: &str = "DELETE 1.2.3 T.A OLD ID=2 CODE=7";

#[test]
fn a_change_finds_its_rows(rt: HostRuntime) -> Result<(), Fail> {
    use Told::{Absent, Differs, Done, Exists, Taken};
    let cases: [(&'static [&'static str], Told); 9] = [
        // Its key is there, and its CODE too: the key is told.
        (&[INSERT, INSERT], Exists),
        (&[INSERT, INSERT_BESIDE], Taken(1)),
        (&[INSERT, DELETE_BESIDE], Absent),
        (&[INSERT, "DELETE 1.2.3 T.A OLD ID=1 CODE=8"], Differs(1)),
        // A row that moves stands under its new key alone.
        (&[INSERT, MOVE, DELETE], Absent),
        (&[INSERT, MOVE, DELETE_BESIDE], Done),
        // A unique value is free once its row is gone, and Null is nobody's.
        (&[INSERT, DELETE, INSERT_BESIDE], Done),
        (
            &[
                INSERT,
                "UPDATE 1.2.3 T.A OLD ID=1 CODE=7 NEW CODE=8",
                INSERT_BESIDE,
            ],
            Done,
        ),
        (
            &[
                "INSERT 1.2.3 T.A NEW ID=1 CODE=NULL",
                "INSERT 1.2.3 T.A NEW ID=2 CODE=NULL",
            ],
            Done,
        ),
    ];
    for (steps, want) in cases {
        assert!(rt; verdict(rt.alloc(), steps)? == want);
    }
    Ok(())
}

// The writes are those of copies of the others.
fn are_same(writes: &[Write], others: &[Write]) -> Result<bool, Fail> {
    if writes.len() != others.len() {
        return Ok(false);
    }
    for (write, other) in writes.iter().zip(others) {
        let other = other.copy()?;
        if write.table != other.table || write.key != other.key || write.row != other.row {
            return Ok(false);
        }
    }
    Ok(true)
}

// Whether a copy of the writes is the same.
fn are_copied(writes: &Writes) -> Result<bool, Fail> {
    let copy = writes.copy()?;
    are_same(writes.items(), copy.items())
}

// Whether the writes that a snapshot gives up are the same.
fn are_moved(over: &Overlay, writes: &Writes) -> Result<bool, Fail> {
    let moved = over.snapshot()?.into_writes()?;
    are_same(writes.items(), moved.items())
}

// How many rows are written. None where the writes, a copy of them and those that a snapshot gives up are not the same.
fn write_count(over: &Overlay) -> Result<Option<usize>, Fail> {
    let writes = over.writes()?;
    let same = are_copied(&writes)? && are_moved(over, &writes)?;
    if !same {
        return Ok(None);
    }
    Ok(Some(writes.items().len()))
}

fn count_after(
    world: &mut World,
    alloc: Global,
    steps: &[&'static str],
) -> Result<Option<usize>, Fail> {
    if outcome(world, alloc, steps)? != Told::Done {
        return Ok(None);
    }
    write_count(&world.over)
}

// How many rows these steps have written. None where a step was not done, or as `write_count` says.
fn written(alloc: Global, steps: &[&'static str]) -> Result<Option<usize>, Fail> {
    match World::new(alloc)? {
        None => Ok(None),
        Some(mut world) => count_after(&mut world, alloc, steps),
    }
}

#[test]
fn a_moved_row_is_two_writes(rt: HostRuntime) -> Result<(), Fail> {
    assert!(rt; written(rt.alloc(), &[INSERT, MOVE])? == Some(2));
    Ok(())
}
