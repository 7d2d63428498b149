//! The check: each row fits its table, no two written rows have one unique value, and no row that is not written over has one.
ghost use Rattle.std.specs.Prelude.{◌≡◌, ◌<◌, List, IfOk, IsTrue};
ghost use Rattle.std.specs.List.{AllByRecursion};
ghost use Rattle.redo_spec.specs.Tables.{Tables, definitions_of};
ghost use Rattle.row_apply.specs.declared.writes.Write.{Write as OneWrite};
ghost use Rattle.row_apply.specs.Overlaid.{writes_rise};
ghost use Rattle.row_apply.specs.Soundness.{AreSound};
ghost use Rattle.standby_spec.specs.Writable.{are_left_alone, can_be_written};
ghost use Rattle.constraint_check.specs.LookUps.{IsAskable, is_gone, owners_gone, are_told_alone};

use crate::unique_values::{keys_differ, written_values};
use crate::written_rows::{all_fit, is_written};
use redo_dict::Dict;
use rl_value::{Key, NoMemory};
use row_apply::{Rows, Write, Writes};
use std::alloc::Global;

/// What look-ups tell of written rows is whether the rows that are left have their unique values alone.
fn look_ups_tell_who_is_left_alone()
    ensures told { (tables : Tables) (writes : List OneWrite) → AreSound tables → IsTrue (writes_rise writes) →
        are_told_alone tables writes ≡ are_left_alone tables writes }
{}

// The row that had the value before the writes, if one had it, is written over.
fn is_gone<R: Rows>(rows: &R, writes: &[Write], key: &Key) -> bool
    requires rising { IsTrue (writes_rise writes.now) }
    requires askable { IsAskable (definitions_of (R.tables rows.now)) key.now }
    ensures exact { AreSound (R.tables rows.now) → result ≡ is_gone (R.tables rows.now) writes.now key.now }
{
    match rows.owner(key) {
        None => true,
        Some(owner) => is_written(writes, key.table, owner),
    }
}

fn owners_gone<R: Rows>(rows: &R, writes: &[Write], keys: &[Key]) -> bool
    requires rising { IsTrue (writes_rise writes.now) }
    requires askable { AllByRecursion (IsAskable (definitions_of (R.tables rows.now))) keys.now }
    ensures exact { AreSound (R.tables rows.now) → result ≡ owners_gone (R.tables rows.now) writes.now keys.now }
{
    let mut rest = keys;
    while let [key, others @ ..] = rest {
        if !is_gone(rows, writes, key) {
            return false;
        }
        rest = others;
    }
    true
}

// Whether the written rows that are left have their unique values alone.
fn are_told_alone<R: Rows>(
    alloc: Global,
    dict: &Dict,
    rows: &R,
    writes: &[Write],
) -> Result<bool, NoMemory>
    requires definitions { definitions_of (R.tables rows.now) ≡ dict.now.tables }
    requires rising { IsTrue (writes_rise writes.now) }
    ensures exact { AreSound (R.tables rows.now) → IfOk result (λ alone. alone ≡ are_told_alone (R.tables rows.now) writes.now) }
{
    let keys = written_values(alloc, dict, writes)?;
    if !owners_gone(rows, writes, keys.as_slice()) {
        return Ok(false);
    }
    keys_differ(alloc, keys)
}

/// Whether the writes may be put in place of the rows: each is of a table that is there, each row fits its table and stands under its
/// own primary key, and among the rows that are left then the written ones have their unique values alone. The writes are judged
/// together, so two rows may change their unique values with each other. It takes some look-ups for each written row, and
/// memory for their unique values.
pub fn meets_constraints<R: Rows>(
    alloc: Global,
    dict: &Dict,
    rows: &R,
    writes: &Writes,
) -> Result<bool, NoMemory>
    requires definitions { definitions_of (R.tables rows.now) ≡ dict.now.tables }
    ensures exact { AreSound (R.tables rows.now) → IfOk result (λ met. met ≡ can_be_written (R.tables rows.now) writes.now) }
{
    look_ups_tell_who_is_left_alone();
    let items = writes.items();
    if !all_fit(alloc, dict, items)? {
        return Ok(false);
    }
    are_told_alone(alloc, dict, rows, items)
}
