//! The rows that a change sees: those beneath, with the written ones in place.

ghost use Rattle.std.specs.Prelude.{◌≡◌, ◌<◌, Some};
ghost use Rattle.std.specs.FinMap.Entries as entries;
ghost use Rattle.std.specs.Option.{option_copied};
ghost use Rattle.redo_spec.specs.Dictionary.{table_of};
ghost use Rattle.redo_spec.specs.Tables.{definitions_of};
ghost use Rattle.rl_value.specs.Order.{row_cmp};
ghost use Rattle.row_apply.specs.Kept.{row_key, AreSlots, rows_seen};
ghost use Rattle.row_apply.specs.KeptIn.{slots_of};

use crate::rows::Rows;
use crate::written::Written;
use redo_vec::TableRow;
use rl_value::{Key, Row};

/// The row of this primary key.
#[tactic(auto, using(crate::proofs::Seeing::found_seen))]
pub fn found<'a, R: Rows>(
    base: &'a R,
    over: &'a Written,
    table: &TableRow,
    key: &Key,
) -> Option<&'a Row>
    requires there { table_of (definitions_of (R.tables base.now)) table.now.id ≡ Some table.now }
    requires key { key.now ≡ row_key table.now.id key.now.values }
    requires slots { AreSlots (slots_of over.now) }
    ensures { option_copied result ≡ entries.find row_cmp key.now.values
        (rows_seen (R.tables base.now) (slots_of over.now) table.now) }
{
    match over.rows.get(key) {
        Some(slot) => slot.as_ref(),
        None => base.get(key),
    }
}
