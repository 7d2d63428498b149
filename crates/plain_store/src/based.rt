//! Rows as the tables that a change finds.
ghost use Rattle.std.specs.Prelude.{◌≡◌, ◌<◌, length, false};
ghost use Rattle.std.specs.List.{list_any};
ghost use Rattle.std.specs.Option.{option_copied};
ghost use Rattle.redo_spec.specs.ConflictKeys.{is_null};
ghost use Rattle.redo_spec.specs.Dictionary.{table_of};
ghost use Rattle.redo_spec.specs.Tables.{assembled, rows_by, owner_in};
ghost use Rattle.row_apply.specs.Found.{key_columns};
ghost use Rattle.row_apply.specs.Soundness.{AreSoundRows};
ghost use Rattle.plain_store.specs.Unique.{IsIndexed};

use crate::plain_rows::has_values;
use crate::plain_tables::PlainTables;
use crate::unique_index::UniqueIndex;
use redo_dict::Dict;
use redo_vec::TableRow;
use rl_value::{Key, Row};
use row_apply::Rows;
use std::marker::Model;

/// Rows as a change finds them, with the dictionary by which they are tables and the index of their unique values.
#[derive(Drop)]
pub struct Based<'a> {
    dict: &'a Dict,
    tables: &'a PlainTables,
    index: &'a UniqueIndex,
}

impl<'a> Model for Based<'a> {
    ghost use Rattle.plain_store.specs.Beneath.{Beneath};
    ghost use Rattle.plain_store.specs.Unique.{IsIndexed};

    ghost Value = { Beneath };

    ghost view = { λ b. record { dictionary = b.dict.now; rows = b.tables.now } };

    ghost invariant = { λ b. IsIndexed b.dict.now.tables b.tables.now b.index.now };
}

impl<'a> Based<'a> {
    /// The tables of these rows, to which the index leads.
    pub fn of(dict: &'a Dict, tables: &'a PlainTables, index: &'a UniqueIndex) -> Based<'a>
        requires indexed { IsIndexed dict.now.tables tables.now index.now }
        ensures dictionary { result.dictionary ≡ dict.now }
        ensures rows { result.rows ≡ tables.now }
    {
        Based {
            dict,
            tables,
            index,
        }
    }

    /// The dictionary.
    pub fn dict(&self) -> &Dict
        ensures same { result.now ≡ self.now.dictionary }
    {
        self.dict
    }

    // The owner of a unique value of this table: the row to which it leads, where that row has it.
    fn owner_in(&self, table: &TableRow, key: &Key) -> Option<&Row>
        requires unique { 0 < key.now.index }
        requires inside { key.now.index < length table.now.keys }
        requires there { table_of self.now.dictionary.tables key.now.table ≡ Some table.now }
        requires filled { list_any is_null key.now.values ≡ false }
        ensures owner { AreSoundRows table.now (rows_by self.now.rows key.now.table) →
            option_copied result ≡ owner_in (rows_by self.now.rows key.now.table) (key_columns table.now key.now.index)
            key.now.values }
    {
        let Some(primary) = self.index.lead(key) else {
            return None;
        };
        let Some(row) = self.tables.get(key.table, primary) else {
            return None;
        };
        let columns = &table.keys.items()[key.index as usize];
        if has_values(row, columns.items(), key.values.values()) {
            return Some(primary);
        }
        None
    }
}

impl<'a> Rows for Based<'a> {
    ghost tables = { λ b. assembled b.dictionary.tables b.rows };

    fn get(&self, key: &Key) -> Option<&Row> {
        self.tables.get(key.table, &key.values)
    }

    fn owner(&self, key: &Key) -> Option<&Row> {
        match self.dict.def(key.table) {
            None => None,
            Some(table) => self.owner_in(table, key),
        }
    }
}
