//! The dictionary as callers hold it.
//!
//! Its tables stand in rising order of their ids, so a table is found by its id in a binary search; by its name all are
//! looked at. What it takes and accepts is tested in `table_form`, `change_form` and `row_form`.
ghost use Rattle.std.specs.Prelude.{◌≡◌, ◌≤◌, IsTrue, IfOk, IfSome, OnOk, OnErr, IsSome, Option, Some, None, length, false};
ghost use Rattle.std.specs.Option.{option_map, option_copied};
ghost use Rattle.redo_spec.specs.Dictionary.{Dictionary, no_dictionary, dictionary_after, table_fault, table_of, id_of, ids_rise, with_table, has_bad_keys};
ghost use Rattle.redo_spec.specs.ChangeForm.{change_fault, is_row_of};
ghost use Rattle.redo_vec.specs.declared.vector.Vector.TheVariants.{Table, DictEnd};
ghost use Rattle.redo_dict.specs.Refusals.{TakesTable, Accepts};

use crate::change_form::check_in;
use crate::fault::{ChangeFault, DictFault};
use crate::row_form::row_fits;
use crate::search::{id_at, insert_table, table_at};
use crate::table_form::table_refusal;
use redo_vec::{Change, TableRow};
use rl_value::{Name, NoMemory, Row};
use std::alloc::Global;
use std::marker::Model;

/// The dictionary of a redo: its tables so far, and whether it is whole. After LogMiner, where the dictionary may stand
/// in the redo.
#[derive(Debug, Drop)]
pub struct Dict {
    tables: Vec<TableRow>,
    finished: bool,
}

impl Model for Dict {
    ghost use Rattle.std.specs.Prelude.{◌≡◌, IsTrue, false};
    ghost use Rattle.std.specs.List.{list_any};
    ghost use Rattle.redo_spec.specs.Dictionary.{Dictionary, ids_rise, has_bad_keys};

    ghost Value = { Dictionary };

    ghost view = { λ d. record { tables = d.tables.items; finished = d.finished } };

    ghost invariant = { λ d. IsTrue (ids_rise 0 d.tables.items) × (list_any has_bad_keys d.tables.items ≡ false) };
}

impl Dict {
    /// A dictionary without a table, whose end has not come. It takes no memory yet.
    pub fn new(alloc: Global) -> Dict
        ensures empty { result ≡ no_dictionary }
    {
        Dict {
            tables: Vec::new(alloc),
            finished: false,
        }
    }

    /// Takes one more table. Where it is refused, it comes back and the dictionary stays as it was.
    pub fn add(&mut self, row: TableRow) -> Result<(), (DictFault, TableRow)>
        ensures added { OnOk result (self.new ≡ dictionary_after self.old (Table row)) }
        ensures exact { TakesTable (table_fault self.old.tables row) row result }
        ensures unchanged { OnErr result (self.new ≡ self.old) }
    {
        if let Some(fault) = table_refusal(self.tables.as_slice(), &row) {
            return Err((fault, row));
        }
        match insert_table(&mut self.tables, row) {
            Ok(()) => Ok(()),
            Err(row) => Err((DictFault::Memory, row)),
        }
    }

    /// The dictionary is whole.
    pub fn finish(&mut self)
        ensures ended { self.new ≡ dictionary_after self.old DictEnd }
    {
        self.finished = true;
    }

    /// Whether the dictionary is whole.
    pub fn finished(&self) -> bool
        ensures value { result ≡ self.now.finished }
    {
        self.finished
    }

    /// The id of the table of this schema and name. None exactly where no such table was added.
    pub fn resolve(&self, schema: &Name, name: &Name) -> Option<u32>
        ensures found { result ≡ id_of self.now.tables schema.now name.now }
    {
        id_at(self.tables.as_slice(), schema.bytes(), name.bytes())
    }

    /// The table of this id. None exactly where no such table was added.
    pub fn def(&self, id: u32) -> Option<&TableRow>
        ensures found { option_copied result ≡ table_of self.now.tables id }
        ensures rising { IsTrue (ids_rise 0 self.now.tables) }
        ensures keys { IfSome result (λ table. has_bad_keys table.now ≡ false) }
    {
        table_at(self.tables.as_slice(), id)
    }

    /// Its tables, in rising order of their ids.
    pub fn tables(&self) -> &[TableRow]
        ensures rise { IsTrue (ids_rise 0 self.now.tables) }
        ensures same { result.now ≡ self.now.tables }
    {
        self.tables.as_slice()
    }

    /// Whether the dictionary accepts the change; else the first reason against it. It takes no memory.
    pub fn check_change(&self, change: &Change) -> Result<(), ChangeFault>
        ensures exact { Accepts (change_fault self.now.tables change.now) result }
    {
        match table_at(self.tables.as_slice(), change.table) {
            None => Err(ChangeFault::NoTable),
            Some(table) => check_in(table, change),
        }
    }

    /// Whether the row has as many values as the table has columns, and each fits its column.
    pub fn check_row(&self, id: u32, row: &Row) -> bool
        requires there { IsSome (table_of self.now.tables id) }
        ensures exact { IfSome (table_of self.now.tables id) (λ t. result ≡ is_row_of t.columns row.now) }
    {
        match table_at(self.tables.as_slice(), id) {
            None => false,
            Some(table) => row_fits(table.columns.items(), row.values()),
        }
    }

    /// An equal dictionary.
    pub fn copy(&self) -> Result<Dict, NoMemory>
        ensures equal { IfOk result (λ copy. copy ≡ self.now) }
    {
        match copied(&self.tables) {
            Ok(tables) => Ok(Dict {
                tables,
                finished: self.finished,
            }),
            Err(NoMemory) => Err(NoMemory),
        }
    }
}

fn copied(tables: &Vec<TableRow>) -> Result<Vec<TableRow>, NoMemory>
    ensures { IfOk result (λ copies. copies.items ≡ tables.now.items) }
{
    let Ok(mut copies) = Vec::with_capacity(*tables.allocator(), tables.len()) else {
        return Err(NoMemory);
    };
    for table in tables {
        let table = table.copy()?;
        if copies.push(table).is_err() {
            return Err(NoMemory);
        }
    }
    Ok(copies)
}
