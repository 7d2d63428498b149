//! The rows of one table by their primary keys, in rising order.
ghost use Rattle.std.specs.Prelude.{◌≡◌, ◌<◌, ◌^◌, IfOk, OnOk, OnErr, [], length, map, not, IsTrue};
ghost use Rattle.std.specs.Option.{option_copied};
ghost use Rattle.std.specs.Ordering.{eq_by_cmp};
ghost use Rattle.std.specs.FinMap.Entries.{find, put, where_key, is_sorted};
ghost use Rattle.rl_value.specs.Order.{row_cmp, value_cmp};
ghost use Rattle.redo_spec.specs.Tables.{value_in, values_at};

use rl_value::{NoMemory, Row, Value};
use std::alloc::Global;
use std::collections::BTreeMap;
use std::collections::btree_map::{Iter, Values};
use std::marker::Model;

/// Rows by their primary keys.
#[derive(Drop)]
pub struct PlainRows {
    alloc: Global,
    rows: BTreeMap<Row, Row>,
}

impl Model for PlainRows {
    ghost use Rattle.redo_spec.specs.Tables.{Rows};

    ghost Value = { Rows };

    ghost use Rattle.std.specs.Prelude.{IsTrue};
    ghost use Rattle.std.specs.FinMap.Entries.{is_sorted};
    ghost use Rattle.rl_value.specs.Order.{row_cmp};

    ghost view = { λ p. p.rows.entries };

    ghost invariant = { λ p. IsTrue (is_sorted row_cmp p.rows.entries) };
}

impl PlainRows {
    /// No row. It takes no memory yet.
    pub fn new(alloc: Global) -> PlainRows
        ensures empty { result ≡ [] }
    {
        PlainRows {
            alloc,
            rows: BTreeMap::new(alloc),
        }
    }

    /// The row with this primary key.
    pub fn get(&self, key: &Row) -> Option<&Row>
        ensures found { option_copied result ≡ find row_cmp key.now self.now }
    {
        self.rows.get(key)
    }

    /// Puts the row in place of the one with its key, which comes back.
    #[tactic(auto, using(crate::proofs::MapLemmas::put_is_insert, crate::proofs::MapLemmas::sorted_is))]
    pub fn put(&mut self, key: Row, row: Row) -> Result<Option<Row>, NoMemory>
        ensures put { OnOk result (self.new ≡ put row_cmp key row self.old) }
        ensures was { IfOk result (λ was. was ≡ find row_cmp key self.old) }
        ensures unchanged { OnErr result (self.new ≡ self.old) }
    {
        match self.rows.insert(key, row) {
            Ok(was) => Ok(was),
            Err(_) => Err(NoMemory),
        }
    }

    /// Takes the row with this key away.
    #[tactic(auto, using(crate::proofs::MapLemmas::sorted_is))]
    pub fn take(&mut self, key: &Row) -> Option<Row>
        ensures taken { self.new ≡ where_key row_cmp (λ k. not (eq_by_cmp row_cmp key.now k)) self.old }
        ensures was { result ≡ find row_cmp key.now self.old }
    {
        self.rows.remove(key)
    }

    #[tactic(auto, using(crate::proofs::MapLemmas::sorted_is))]
    pub fn len(&self) -> usize
        ensures len { result ≡ length self.now }
        ensures small { result < 2 ^ 63 }
        ensures rising { IsTrue (is_sorted row_cmp self.now) }
    {
        self.rows.len()
    }

    /// The rows in rising order of their keys.
    pub fn rows(&self) -> Values<'_, Row, Row>
        ensures rows { result ≡ map (λ r. r.1) self.now }
    {
        self.rows.values()
    }

    /// The rows with their keys, which rise.
    #[tactic(auto, using(crate::proofs::MapLemmas::sorted_is))]
    pub fn iter(&self) -> Iter<'_, Row, Row>
        ensures rows { result ≡ self.now }
        ensures rising { IsTrue (is_sorted row_cmp self.now) }
    {
        self.rows.iter()
    }

    /// Equal rows.
    pub fn copy(&self) -> Result<PlainRows, NoMemory>
        ensures equal { IfOk result (λ copy. copy ≡ self.now) }
    {
        let mut copies = PlainRows::new(self.alloc);
        for (key, row) in self.rows.iter() {
            let key = key.copy()?;
            let row = row.copy()?;
            let _ = copies.put(key, row)?;
        }
        Ok(copies)
    }
}

// The row has this value in this column; it has Null in a column that it lacks.
fn has_value(row: &Row, column: u8, value: &Value) -> bool
    ensures exact { result ≡ eq_by_cmp value_cmp (value_in row.now column) value.now }
{
    match row.values().get(column as usize) {
        None => Value::Null == *value,
        Some(found) => found == value,
    }
}

/// The row has these values in these columns, one for each.
pub fn has_values(row: &Row, columns: &[u8], values: &[Value]) -> bool
    ensures exact { result ≡ eq_by_cmp row_cmp (values_at row.now columns.now) values.now }
{
    let mut columns_left = columns;
    let mut values_left = values;
    while let [column, more @ ..] = columns_left {
        let [value, others @ ..] = values_left else {
            return false;
        };
        if !has_value(row, *column, value) {
            return false;
        }
        columns_left = more;
        values_left = others;
    }
    values_left.is_empty()
}
