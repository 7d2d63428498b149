//! The effect of a change on the rows that it finds.
//!
//! What stands in the way is told in this order: a row that is not there, or not as it was logged; then a row with the
//! new primary key; then a row with a unique value. The row that an update takes away is never in its own way.

ghost use Rattle.std.specs.Prelude.{◌≡◌, ◌≢◌, ◌<◌, false, Ok, Err, None, Some, Result, OnOk, OnErr, IfOk, IsTrue};
ghost use Rattle.redo_spec.specs.ChangeForm.{change_fault, change_fault_in};
ghost use Rattle.redo_spec.specs.ConflictKeys.{conflict_keys};
ghost use Rattle.redo_spec.specs.Dictionary.{has_bad_keys};
ghost use Rattle.redo_spec.specs.Effect.{effect as effect_of, logged_key};
ghost use Rattle.redo_spec.specs.Tables.{definitions_of};
ghost use Rattle.redo_vec.specs.declared.change.Op.TheVariants.{Insert, Update, Delete};
ghost use Rattle.row_apply.specs.Adding.{CanChange};
ghost use Rattle.row_apply.specs.Changes.{Changes};
ghost use Rattle.row_apply.specs.Kept.{row_key};
ghost use Rattle.row_apply.specs.Overlaid.{overlaid, are_of, writes_rise, WritesOnly, WritesAll, WritesStay};
ghost use Rattle.row_apply.specs.Outcomes.{OnMiss};
ghost use Rattle.row_apply.specs.Soundness.{AreSound};

use crate::additions::add;
use crate::fault::EffectFault;
use crate::new_rows::{check_logged, logged_key, primary_columns, row_of_cells, row_with_cells};
use crate::overlay::Overlay;
use crate::rows::Rows;
use crate::seen::found;
use crate::written::Written;
use redo_dict::Dict;
use redo_vec::{Change, Op, TableRow};
use rl_value::{Key, Miss, NoMemory};

fn insert<R: Rows>(
    base: &R,
    over: &mut Written,
    table: &TableRow,
    change: &Change,
) -> Result<(), EffectFault>
    requires can { CanChange (R.tables base.now) over.old table.now change.now }
    requires op { change.now.op ≡ Insert }
    ensures changes { Changes (R.tables base.now) over.old over.new table.now change.now Insert result }
{
    // The cells rise by their columns, so those of all columns are the row in its order.
    let _cells = change.new.cells();
    let Ok(row) = row_of_cells(over.alloc, table, &change.new) else {
        return Err(EffectFault::Memory);
    };
    add(base, over, table, None, row)
}

// The primary key of the row as it was logged.
fn old_primary_key(over: &Written, table: &TableRow, change: &Change) -> Result<Key, NoMemory>
    requires keys { has_bad_keys table.now ≡ false }
    requires accepted { change_fault_in table.now change.now ≡ None }
    requires op { change.now.op ≢ Insert }
    ensures { IfOk result (λ key. key ≡ row_key table.now.id (logged_key table.now change.now.old)) }
{
    let values = logged_key(over.alloc, table, change)?;
    Ok(Key {
        table: table.id,
        index: 0,
        values,
    })
}

fn update<R: Rows>(
    base: &R,
    over: &mut Written,
    table: &TableRow,
    change: &Change,
) -> Result<(), EffectFault>
    requires can { CanChange (R.tables base.now) over.old table.now change.now }
    requires op { change.now.op ≢ Insert }
    requires update { change.now.op ≡ Update }
    ensures changes { Changes (R.tables base.now) over.old over.new table.now change.now Update result }
{
    let Ok(key) = old_primary_key(over, table, change) else {
        return Err(EffectFault::Memory);
    };
    let Some(row) = found(base, over, table, &key) else {
        return Err(EffectFault::Miss(Miss::Absent(key)));
    };
    check_logged(row.values(), change.old.cells())?;
    let Ok(after) = row_with_cells(over.alloc, table, row, &change.new) else {
        return Err(EffectFault::Memory);
    };
    add(base, over, table, Some(key), after)
}

fn delete<R: Rows>(
    base: &R,
    over: &mut Written,
    table: &TableRow,
    change: &Change,
) -> Result<(), EffectFault>
    requires can { CanChange (R.tables base.now) over.old table.now change.now }
    requires op { change.now.op ≢ Insert }
    requires delete { change.now.op ≡ Delete }
    ensures changes { Changes (R.tables base.now) over.old over.new table.now change.now Delete result }
{
    let Ok(key) = old_primary_key(over, table, change) else {
        return Err(EffectFault::Memory);
    };
    let Some(row) = found(base, over, table, &key) else {
        return Err(EffectFault::Miss(Miss::Absent(key)));
    };
    check_logged(row.values(), change.old.cells())?;
    match over.take_row(key) {
        Ok(()) => Ok(()),
        Err(NoMemory) => Err(EffectFault::Memory),
    }
}

fn change_rows<R: Rows>(
    base: &R,
    over: &mut Written,
    table: &TableRow,
    change: &Change,
) -> Result<(), EffectFault>
    requires can { CanChange (R.tables base.now) over.old table.now change.now }
    ensures changes { Changes (R.tables base.now) over.old over.new table.now change.now change.now.op result }
{
    match change.op {
        Op::Insert => insert(base, over, table, change),
        Op::Update => update(base, over, table, change),
        Op::Delete => delete(base, over, table, change),
    }
}

/// Does the change to the rows of the base with those of the overlay in place. The overlay takes what it writes, and the
/// base stays as it is. Where the base, or the base with the overlay in place, isn't sound, the change may be done or may
/// miss, but it still writes no other rows than its own. The cost is logarithmic in the rows, but for the first change of a
/// table in an overlay, a snapshot, or after want of memory: it looks at all written rows.
pub fn effect<R: Rows>(
    base: &R,
    dict: &Dict,
    over: &mut Overlay,
    change: &Change,
) -> Result<(), EffectFault>
    requires definitions { definitions_of (R.tables base.now) ≡ dict.now.tables }
    requires accepted { change_fault dict.now.tables change.now ≡ None }
    ensures done { AreSound (R.tables base.now) → AreSound (overlaid (R.tables base.now) over.old) →
        OnOk result (effect_of (overlaid (R.tables base.now) over.old) change.now ≡ Ok (overlaid (R.tables base.now) over.new)) }
    ensures miss { AreSound (R.tables base.now) → AreSound (overlaid (R.tables base.now) over.old) →
        OnMiss result (λ miss. effect_of (overlaid (R.tables base.now) over.old) change.now ≡ Err miss) }
    ensures sound { AreSound (R.tables base.now) → AreSound (overlaid (R.tables base.now) over.old) →
        AreSound (overlaid (R.tables base.now) over.new) }
    ensures unchanged { OnErr result (over.new ≡ over.old) }
    ensures rising { IsTrue (writes_rise over.new) }
    ensures grows { WritesStay over.old over.new }
    ensures of_tables { IsTrue (are_of dict.now.tables over.old) → IsTrue (are_of dict.now.tables over.new) }
    ensures only { OnOk result (WritesOnly (conflict_keys dict.now.tables change.now) over.old over.new) }
    ensures written { OnOk result (WritesAll (conflict_keys dict.now.tables change.now)
        (overlaid (R.tables base.now) over.new) over.new) }
{
    let Some(table) = dict.def(change.table) else {
        unreachable!()
    };
    // A primary key has a column, so a row's key is among the keys that its change touches.
    let _primary = primary_columns(table);
    change_rows(base, &mut over.written, table, change)
}
