//! Values of primary and unique keys.
//!
//! Two transactions conflict where they touch an equal key. Keys are ordered by table, then index, then values
//! (specs/Order.antt).

ghost use Rattle.std.specs.Prelude.{◌≡◌, ◌<◌, IfOk, refl};
ghost use Rattle.std.specs.Ordering.{as_partial_cmp, eq_by_cmp};
ghost use Rattle.std.specs.Cmp;
ghost use Rattle.std.specs.Cmp.{partial_order_from_agreeing_total, eq_by_cmp_equiv};
ghost use Rattle.rl_value.specs.Order.{key_cmp, key_total};

use crate::memory::NoMemory;
use crate::row::Row;
use std::cmp::Ordering;

/// A value of a key of a table.
#[derive(Debug, Drop)]
pub struct Key {
    /// The table's id.
    pub table: u32,
    /// 0 for the primary key, 1 to 4 for the unique keys in the table's order.
    pub index: u8,
    /// The values in the key's columns, in their order.
    pub values: Row,
}

impl Key {
    /// An equal one, which owns memory of its own.
    pub fn copy(&self) -> Result<Key, NoMemory>
        ensures equal { IfOk result (λ key. key ≡ self.now) }
    {
        let values = self.values.copy()?;
        Ok(Key {
            table: self.table,
            index: self.index,
            values,
        })
    }
}

impl PartialEq for Key {
    ghost eq = { eq_by_cmp key_cmp };

    ghost laws = { Cmp.partial_equiv_from_equiv (eq_by_cmp_equiv key_total) };

    fn eq(&self, other: &Key) -> bool {
        self.cmp(other) == Ordering::Equal
    }
}

impl Eq for Key {
    ghost laws = { eq_by_cmp_equiv key_total };
}

impl PartialOrd for Key {
    ghost partial_cmp = { as_partial_cmp key_cmp };

    ghost laws = { partial_order_from_agreeing_total key_cmp key_total (λ x y. refl) (λ x y. refl) };

    fn partial_cmp(&self, other: &Key) -> Option<Ordering> {
        Some(self.cmp(other))
    }
}

impl Ord for Key {
    ghost cmp = { key_cmp };

    ghost total = { key_total };

    ghost matches_partial_cmp = { λ x y. refl };

    ghost matches_eq = { λ x y. refl };

    fn cmp(&self, other: &Key) -> Ordering {
        self.table
            .cmp(&other.table)
            .then(self.index.cmp(&other.index))
            .then(self.values.cmp(&other.values))
    }
}
