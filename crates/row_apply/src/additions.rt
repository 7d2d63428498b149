//! A row that comes to the others of its table, if nothing stands in its way: its primary key, and then each unique value.

ghost use Rattle.std.specs.Prelude.{◌≡◌, ◌<◌, IfOk, OnOk, OnErr, IsTrue, Ok, Err, Some, None, is_some};
ghost use Rattle.std.specs.FinMap.Entries as entries;
ghost use Rattle.redo_spec.specs.ChangeForm.{is_row_of};
ghost use Rattle.redo_spec.specs.Dictionary.{table_of};
ghost use Rattle.redo_spec.specs.Effect.{add_row};
ghost use Rattle.redo_spec.specs.Tables.{primary_key, definitions_of};
ghost use Rattle.rl_value.specs.Order.{row_cmp};
ghost use Rattle.row_apply.specs.Adding.{rows_without, values_of, goes, table_without, table_with_row, FindsSound, IsFreeWritten, IsReady};
ghost use Rattle.row_apply.specs.Kept.{row_key, rows_seen, table_seen, ChangesOnly, SlotsOnly, AreWritten, keys_put, IsPrimaryOf};
ghost use Rattle.row_apply.specs.KeptIn.{slots_of, IsKept};
ghost use Rattle.row_apply.specs.Outcomes.{OnMiss};
ghost use Rattle.row_apply.specs.Soundness.{AreSoundRows};

use crate::fault::EffectFault;
use crate::key_values::primary_key;
use crate::other_owners::check_uniques;
use crate::rows::Rows;
use crate::seen::found;
use crate::written::Written;
use redo_vec::TableRow;
use rl_value::{Key, Miss, NoMemory, Row};

fn is_going(gone: &Option<Key>, values: &Row) -> bool
    ensures { result ≡ goes (values_of gone.now) values.now }
{
    match gone {
        None => false,
        Some(gone) => *values == gone.values,
    }
}

// A row with this key is there, and does not go.
#[tactic(auto, using(crate::proofs::Slots::find_minus))]
fn exists<R: Rows>(
    base: &R,
    over: &Written,
    table: &TableRow,
    gone: &Option<Key>,
    key: &Key,
) -> bool
    requires there { table_of (definitions_of (R.tables base.now)) table.now.id ≡ Some table.now }
    requires kept { IsKept over.now }
    requires key { key.now ≡ row_key table.now.id key.now.values }
    ensures { result ≡ is_some (entries.find row_cmp key.now.values
        (rows_without (values_of gone.now) (rows_seen (R.tables base.now) (slots_of over.now) table.now))) }
{
    if is_going(gone, &key.values) {
        return false;
    }
    found(base, over, table, key).is_some()
}

// The key of the row, if nothing is in its way.
fn free_key<R: Rows>(
    base: &R,
    over: &Written,
    table: &TableRow,
    gone: &Option<Key>,
    row: &Row,
) -> Result<Key, EffectFault>
    requires there { table_of (definitions_of (R.tables base.now)) table.now.id ≡ Some table.now }
    requires kept { IsKept over.now }
    ensures key { IfOk result (λ key. key ≡ row_key table.now.id (primary_key table.now row.now)) }
    ensures alone { OnOk result (IsFreeWritten over.now table.now (values_of gone.now) row.now) }
    ensures added { IsReady (R.tables base.now) over.now table.now →
        OnOk result (add_row (table_without (values_of gone.now) (R.tables base.now) (slots_of over.now) table.now) row.now ≡
        Ok (table_with_row (values_of gone.now) (R.tables base.now) (slots_of over.now) table.now row.now)) }
    ensures miss { IsReady (R.tables base.now) over.now table.now →
        OnMiss result (λ miss. add_row (table_without (values_of gone.now) (R.tables base.now) (slots_of over.now) table.now)
        row.now ≡ Err miss) }
{
    let Ok(values) = primary_key(over.alloc, table, row) else {
        return Err(EffectFault::Memory);
    };
    let key = Key {
        table: table.id,
        index: 0,
        values,
    };
    if exists(base, over, table, gone, &key) {
        return Err(EffectFault::Miss(Miss::Exists(key)));
    }
    check_uniques(base, over, table, gone, row)?;
    Ok(key)
}

/// Adds the row, in the place of the one that goes.
pub fn add<R: Rows>(
    base: &R,
    over: &mut Written,
    table: &TableRow,
    gone: Option<Key>,
    row: Row,
) -> Result<(), EffectFault>
    requires there { table_of (definitions_of (R.tables base.now)) table.now.id ≡ Some table.now }
    requires kept { IsKept over.old }
    requires gone { IsPrimaryOf table.now.id gone }
    ensures done { FindsSound (R.tables base.now) (slots_of over.old) table.now →
        OnOk result (add_row (table_without (values_of gone) (R.tables base.now) (slots_of over.old) table.now) row ≡
        Ok (table_seen (R.tables base.now) (slots_of over.new) table.now)) }
    ensures miss { FindsSound (R.tables base.now) (slots_of over.old) table.now →
        OnMiss result (λ miss. add_row (table_without (values_of gone) (R.tables base.now) (slots_of over.old) table.now)
        row ≡ Err miss) }
    ensures unchanged { OnErr result (slots_of over.new ≡ slots_of over.old) }
    ensures kept { IsKept over.new }
    ensures others { ChangesOnly table.now.id (slots_of over.old) (slots_of over.new) }
    ensures only { OnOk result (SlotsOnly (keys_put gone (row_key table.now.id (primary_key table.now row))) (slots_of over.old)
        (slots_of over.new)) }
    ensures written { OnOk result (AreWritten (keys_put gone (row_key table.now.id (primary_key table.now row)))
        (slots_of over.new)) }
    ensures sound { FindsSound (R.tables base.now) (slots_of over.old) table.now → IsTrue (is_row_of table.now.columns row) →
        AreSoundRows table.now (rows_seen (R.tables base.now) (slots_of over.new) table.now) }
{
    match over.index_table(table) {
        Ok(()) => {}
        Err(NoMemory) => return Err(EffectFault::Memory),
    }
    let key = free_key(base, over, table, &gone, &row)?;
    match over.put_row(table, gone, key, row) {
        Ok(()) => Ok(()),
        Err(NoMemory) => Err(EffectFault::Memory),
    }
}
