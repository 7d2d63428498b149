//! Rows by table and primary key.
ghost use Rattle.std.specs.Prelude.{◌≡◌, ◌<◌, ◌^◌, IfOk, OnOk, OnErr, [], length, map, unwrap_or};
ghost use Rattle.std.specs.Option.{option_copied};
ghost use Rattle.std.specs.FinMap.Entries.{find};
ghost use Rattle.rl_value.specs.Order.{row_cmp};
ghost use Rattle.redo_spec.specs.Tables.{rows_by};
ghost use Rattle.plain_store.specs.ById.{with_row, without_row, rows_after_write};

use crate::plain_rows::PlainRows;
use rl_value::{NoMemory, Row};
use row_apply::Write;
use std::alloc::Global;
use std::collections::BTreeMap;
use std::collections::btree_map::Values;
use std::marker::Model;

/// A map from table to a map from primary key to row.
#[derive(Drop)]
pub struct PlainTables {
    alloc: Global,
    tables: BTreeMap<u32, PlainRows>,
}

impl Model for PlainTables {
    ghost use Rattle.redo_spec.specs.Tables.{RowsById};

    ghost Value = { RowsById };

    ghost view = { λ p. p.tables.entries };
}

impl PlainTables {
    /// No row. It takes no memory yet.
    pub fn new(alloc: Global) -> PlainTables
        ensures empty { result ≡ [] }
    {
        PlainTables {
            alloc,
            tables: BTreeMap::new(alloc),
        }
    }

    /// The row with this primary key.
    #[tactic(auto, using(crate::proofs::MapLemmas::rows_by_is))]
    pub fn get(&self, table: u32, key: &Row) -> Option<&Row>
        ensures found { option_copied result ≡ find row_cmp key.now (rows_by self.now table) }
    {
        match self.tables.get(&table) {
            None => None,
            Some(rows) => rows.get(key),
        }
    }

    /// Puts the row in place of the one with its key.
    pub fn put(&mut self, table: u32, key: Row, row: Row) -> Result<(), NoMemory>
        ensures put { OnOk result (self.new ≡ with_row self.old table key row) }
        ensures unchanged { OnErr result (self.new ≡ self.old) }
    {
        if let Some(rows) = self.tables.get_mut(&table) {
            let _ = rows.put(key, row)?;
            return Ok(());
        }
        let mut rows = PlainRows::new(self.alloc);
        let _ = rows.put(key, row)?;
        match self.tables.insert(table, rows) {
            Ok(_) => Ok(()),
            Err(_) => Err(NoMemory),
        }
    }

    /// Takes the row with this key away, if it is there.
    pub fn take(&mut self, table: u32, key: &Row)
        ensures taken { self.new ≡ without_row self.old table key.now }
    {
        match self.tables.get_mut(&table) {
            None => {}
            Some(rows) => {
                let _ = rows.take(key);
            }
        }
    }

    /// Puts the written row, or takes it away.
    pub(crate) fn write(&mut self, write: Write) -> Result<(), NoMemory>
        ensures written { OnOk result (self.new ≡ rows_after_write self.old write write.row) }
    {
        let Write { table, key, row } = write;
        match row {
            None => {
                self.take(table, &key);
                Ok(())
            }
            Some(row) => self.put(table, key, row),
        }
    }

    /// The rows of the table, if any was ever put into it.
    #[tactic(auto, using(crate::proofs::MapLemmas::rows_by_is))]
    pub(crate) fn table(&self, table: u32) -> Option<&PlainRows>
        ensures rows { unwrap_or (option_copied result) [] ≡ rows_by self.now table }
    {
        self.tables.get(&table)
    }

    /// How many rows the table has.
    #[tactic(auto, using(crate::proofs::MapLemmas::rows_by_is))]
    pub fn count(&self, table: u32) -> usize
        ensures exact { result ≡ length (rows_by self.now table) }
        ensures small { result < 2 ^ 63 }
    {
        match self.tables.get(&table) {
            None => 0,
            Some(rows) => rows.len(),
        }
    }

    /// The rows of the table, in rising order of its primary key.
    #[tactic(auto, using(crate::proofs::MapLemmas::rows_by_is))]
    pub fn rows(&self, table: u32) -> PlainList<'_>
        ensures rows { result ≡ map (λ r. r.1) (rows_by self.now table) }
    {
        match self.tables.get(&table) {
            None => PlainList { rows: None },
            Some(rows) => PlainList {
                rows: Some(rows.rows()),
            },
        }
    }

    /// Equal tables.
    pub fn copy(&self) -> Result<PlainTables, NoMemory>
        ensures equal { IfOk result (λ copy. copy ≡ self.now) }
    {
        let mut tables = BTreeMap::new(self.alloc);
        for (table, rows) in self.tables.iter() {
            let rows = rows.copy()?;
            match tables.insert(*table, rows) {
                Ok(_) => {}
                Err(_) => return Err(NoMemory),
            }
        }
        Ok(PlainTables {
            alloc: self.alloc,
            tables,
        })
    }
}

/// The rows of one table, in rising order of its primary key. It is seen as the list of those that are left.
#[derive(Drop)]
pub struct PlainList<'a> {
    rows: Option<Values<'a, Row, Row>>,
}

impl<'a> Model for PlainList<'a> {
    ghost use Rattle.std.specs.Prelude.{List, [], unwrap_or};
    ghost use Rattle.rl_value.specs.declared.value.Value.{Value as Item};

    ghost Value = { List (List Item) };

    ghost view = { λ l. unwrap_or l.rows [] };
}

impl<'a> Iterator for PlainList<'a> {
    type Item = &'a Row;

    ghost use Rattle.std.specs.Prelude.{length};
    ghost use Rattle.std.specs.Iterator.{at_most};
    ghost use Rattle.std.specs.Map.Iter.{TakesFirst, deref};

    ghost next_gives = { TakesFirst deref };

    ghost remaining = { λ s. at_most (length s) };

    fn next(&mut self) -> Option<&'a Row> {
        match &mut self.rows {
            None => None,
            Some(rows) => rows.next(),
        }
    }
}
