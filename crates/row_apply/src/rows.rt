//! Rows that a change finds, in whatever form they are kept.

ghost use Rattle.std.specs.Prelude.{◌≡◌, ◌<◌, length, IsSome, IfSome, false};
ghost use Rattle.std.specs.List.{list_any};
ghost use Rattle.std.specs.Option.{option_copied};
ghost use Rattle.redo_spec.specs.ConflictKeys.{is_null};
ghost use Rattle.redo_spec.specs.Dictionary.{table_of};
ghost use Rattle.redo_spec.specs.Tables.{Tables, definitions_of};
ghost use Rattle.redo_spec.specs.Work.{row_at};
ghost use Rattle.row_apply.specs.Found.{owner_of};
ghost use Rattle.row_apply.specs.Soundness.{AreSound};

use rl_value::{Key, Row};

/// Rows of tables. Both calls are for a table that is there.
pub trait Rows {
    /// The tables whose rows these are.
    ghost tables: { Self → Tables };

    /// The row with this primary key, whose index is 0.
    fn get(&self, key: &Key) -> Option<&Row>
        requires primary { key.now.index ≡ 0 }
        requires there { IsSome (table_of (definitions_of (tables self.now)) key.now.table) }
        ensures row { option_copied result ≡ row_at (tables self.now) key.now };

    /// The primary key of the row that has this value of a unique key; unique keys count from 1. The value has no
    /// Null, and in sound tables it has one owner at most. Of others any answer will do.
    fn owner(&self, key: &Key) -> Option<&Row>
        requires unique { 0 < key.now.index }
        requires there { IfSome (table_of (definitions_of (tables self.now)) key.now.table) (λ t. key.now.index < length t.keys) }
        requires filled { list_any is_null key.now.values ≡ false }
        ensures owner { AreSound (tables self.now) → option_copied result ≡ owner_of (tables self.now) key.now };
}
