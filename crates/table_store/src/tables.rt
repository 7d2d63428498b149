//! The tables of a dictionary, as callers hold them.
//!
//! A write makes new tables, which share every block that it does not touch with those before it. The list of tables stands
//! behind one count, so a snapshot costs two counts however many tables there are.
ghost use Rattle.std.specs.Prelude.{◌≡◌, ◌↔◌, ◌≤◌, ◌<◌, nat_le, IfOk, IfErr, IsTrue, Err, map, length, [], false, IsSome, IfSome};
ghost use Rattle.std.specs.Arc.{arc_value};
ghost use Rattle.std.specs.List.{list_any};
ghost use Rattle.std.specs.Option.{option_copied};
ghost use Rattle.redo_spec.specs.ConflictKeys.{is_null};
ghost use Rattle.redo_spec.specs.Dictionary.{ids_rise, table_of};
ghost use Rattle.redo_spec.specs.Fold.{live_row_limit};
ghost use Rattle.redo_spec.specs.Tables.{Tables, definitions_of, empty_tables, row_count};
ghost use Rattle.redo_spec.specs.Work.{row_at, rows_of};
ghost use Rattle.row_apply.specs.Found.{owner_of};
ghost use Rattle.row_apply.specs.Overlaid.{overlaid, are_of, writes_rise};
ghost use Rattle.row_apply.specs.Soundness.{AreSound};
ghost use Rattle.table_store.specs.Shared.{tables_in, found_in};
ghost use Rattle.table_store.specs.declared.fault.StoreFault.TheVariants.{RowLimit};

use crate::fault::StoreFault;
use crate::row_list::RowList;
use crate::shared_table::SharedTable;
use crate::stored_table::StoredTable;
use crate::table_list::{count_rows, fits, shared, table_at, without_rows, write_tables};
use redo_dict::Dict;
use rl_value::{Key, NoMemory, Row};
use row_apply::{Rows, Write, Writes};
use std::alloc::Global;
use std::marker::Model;
use std::sync::Arc;

/// The tables of a dictionary with their rows, of which a snapshot costs nothing. It is seen as that dictionary and its tables.
#[derive(Drop)]
pub struct Tables {
    alloc: Global,
    dict: Arc<Dict>,
    tables: Arc<Vec<SharedTable>>,
    count: u64,
}

impl Model for Tables {
    ghost use Rattle.std.specs.Prelude.{◌≡◌, ◌≤◌};
    ghost use Rattle.std.specs.Arc.{arc_value};
    ghost use Rattle.redo_spec.specs.Fold.{live_row_limit};
    ghost use Rattle.redo_spec.specs.Tables.{definitions_of, row_count};
    ghost use Rattle.table_store.specs.Stored.{TableSet};
    ghost use Rattle.table_store.specs.Shared.{tables_in};

    ghost Value = { TableSet };

    ghost view = { λ t. record { dictionary = arc_value t.dict; tables = tables_in (arc_value t.tables).items } };

    ghost invariant = { λ t. (definitions_of (tables_in (arc_value t.tables).items) ≡ (arc_value t.dict).tables) ×
        (t.count ≡ row_count (tables_in (arc_value t.tables).items)) × (t.count ≤ live_row_limit) };
}

impl Tables {
    /// The tables of the dictionary, without rows. After want of memory the dictionary comes back.
    pub fn new(alloc: Global, dict: Dict) -> Result<Tables, (NoMemory, Dict)>
        ensures empty { IfOk result (λ tables. tables.tables ≡ empty_tables dict.tables) }
        ensures dictionary { IfOk result (λ tables. tables.dictionary ≡ dict) }
        ensures back { IfErr result (λ refused. refused.1 ≡ dict) }
    {
        let Ok(tables) = without_rows(alloc, dict.tables()) else {
            return Err((NoMemory, dict));
        };
        let Ok(tables) = Arc::new(alloc, tables) else {
            return Err((NoMemory, dict));
        };
        match Arc::new(alloc, dict) {
            Ok(dict) => Ok(Tables {
                alloc,
                dict,
                tables,
                count: 0,
            }),
            Err(failed) => Err((NoMemory, failed.value)),
        }
    }

    /// The dictionary whose tables these are.
    pub fn dict(&self) -> &Dict
        ensures same { result.now ≡ self.now.dictionary }
        ensures defined { definitions_of self.now.tables ≡ result.now.tables }
    {
        &self.dict
    }

    /// How many rows the tables have together.
    pub fn count(&self) -> u64
        ensures exact { result ≡ row_count self.now.tables }
        ensures few { result ≤ live_row_limit }
    {
        self.count
    }

    /// How many rows the table of this id has, and 0 where there is none. It looks for the table, and at no row.
    pub fn count_of(&self, table: u32) -> u64
        ensures exact { result ≡ length (rows_of self.now.tables table) }
    {
        match self.table(table) {
            None => 0,
            Some(table) => table.count(),
        }
    }

    /// Equal tables, which share the blocks.
    pub fn snapshot(&self) -> Result<Tables, NoMemory>
        ensures equal { IfOk result (λ tables. tables ≡ self.now) }
    {
        let Ok(dict) = Arc::try_clone(&self.dict) else {
            return Err(NoMemory);
        };
        let Ok(tables) = Arc::try_clone(&self.tables) else {
            return Err(NoMemory);
        };
        Ok(Tables {
            alloc: self.alloc,
            dict,
            tables,
            count: self.count,
        })
    }

    // The table of this id.
    fn table(&self, id: u32) -> Option<&StoredTable>
        ensures found { option_copied result ≡ found_in id self.now.tables }
    {
        // The dictionary's tables rise by their ids, and so these do.
        let _tables = self.dict.tables();
        table_at(self.tables.as_slice(), id)
    }

    /// The rows of the table of this id, in rising order of its primary key. It takes no memory.
    pub fn rows(&self, table: u32) -> RowList<'_>
        ensures rows { result ≡ map (λ r. r.1) (rows_of self.now.tables table) }
    {
        match self.table(table) {
            None => RowList::empty(),
            Some(table) => table.rows(),
        }
    }

    /// Whether no more than 2^20 rows would be live behind the writes. It takes no memory. Rows are looked at only where there
    /// is not room for one more in each table for each write.
    pub fn fits(&self, writes: &Writes) -> bool
        requires sound { AreSound self.now.tables }
        ensures exact { result ≡ nat_le (row_count (overlaid self.now.tables writes.now)) live_row_limit }
    {
        // The dictionary's tables rise by their ids, and so these do.
        let _tables = self.dict.tables();
        fits(self.count, self.tables.as_slice(), writes.items())
    }

    /// The tables with the written rows in place of theirs. These tables stay as they are.
    pub fn with(&self, writes: &Writes) -> Result<Tables, StoreFault>
        requires sound { AreSound self.now.tables }
        requires sound_then { AreSound (overlaid self.now.tables writes.now) }
        requires of_tables { IsTrue (are_of (definitions_of self.now.tables) writes.now) }
        ensures written { IfOk result (λ after. after.tables ≡ overlaid self.now.tables writes.now) }
        ensures dictionary { IfOk result (λ after. after.dictionary ≡ self.now.dictionary) }
        ensures row_limit { (result ≡ Err RowLimit) ↔ (live_row_limit < row_count (overlaid self.now.tables writes.now)) }
    {
        if !self.fits(writes) {
            return Err(StoreFault::RowLimit);
        }
        match self.snapshot() {
            Ok(tables) => tables.written(writes),
            Err(NoMemory) => Err(StoreFault::Memory),
        }
    }

    /// The tables with the written rows in place of theirs. Blocks that nobody else has are changed where they are; after a
    /// refusal nothing is left of the tables, so who needs them then asks `fits` before.
    pub fn written(self, writes: &Writes) -> Result<Tables, StoreFault>
        requires sound { AreSound self.tables }
        requires sound_then { AreSound (overlaid self.tables writes.now) }
        requires of_tables { IsTrue (are_of (definitions_of self.tables) writes.now) }
        ensures written { IfOk result (λ after. after.tables ≡ overlaid self.tables writes.now) }
        ensures dictionary { IfOk result (λ after. after.dictionary ≡ self.dictionary) }
        ensures row_limit { (result ≡ Err RowLimit) ↔ (live_row_limit < row_count (overlaid self.tables writes.now)) }
    {
        if !self.fits(writes) {
            return Err(StoreFault::RowLimit);
        }
        match self.put_in(writes) {
            Ok(tables) => Ok(tables),
            Err(NoMemory) => Err(StoreFault::Memory),
        }
    }

    // The tables with the written rows in place of theirs, of which there are not too many.
    fn put_in(self, writes: &Writes) -> Result<Tables, NoMemory>
        requires sound { AreSound self.tables }
        requires sound_then { AreSound (overlaid self.tables writes.now) }
        requires few { row_count (overlaid self.tables writes.now) ≤ live_row_limit }
        ensures written { IfOk result (λ after. after.tables ≡ overlaid self.tables writes.now) }
        ensures dictionary { IfOk result (λ after. after.dictionary ≡ self.dictionary) }
    {
        let _tables = self.dict.tables();
        let Tables {
            alloc,
            dict,
            tables,
            count: _,
        } = self;
        let (tables, count) = tables_after(alloc, tables, writes.items())?;
        Ok(Tables {
            alloc,
            dict,
            tables,
            count,
        })
    }
}

fn is_for_threads<T: Send + Sync>(_value: &T) {}

/// Tables go to other threads and are read by them: this is proved of their type here, and not first where they are sent.
pub fn tables_are_for_threads(tables: &Tables) {
    is_for_threads(tables);
}

// The list itself, or one of the same tables where somebody else has it too.
fn own(alloc: Global, tables: Arc<Vec<SharedTable>>) -> Result<Vec<SharedTable>, NoMemory>
    ensures same { IfOk result (λ list. tables_in list.items ≡ tables_in (arc_value tables).items) }
{
    match Arc::try_unwrap(tables) {
        Ok(list) => Ok(list),
        Err(tables) => shared(alloc, tables.as_slice()),
    }
}

fn tables_after(
    alloc: Global,
    tables: Arc<Vec<SharedTable>>,
    writes: &[Write],
) -> Result<(Arc<Vec<SharedTable>>, u64), NoMemory>
    requires rising { IsTrue (ids_rise 0 (definitions_of (tables_in (arc_value tables).items))) }
    requires writes_rise { IsTrue (writes_rise writes.now) }
    requires sound { AreSound (tables_in (arc_value tables).items) }
    requires sound_then { AreSound (overlaid (tables_in (arc_value tables).items) writes.now) }
    requires few { row_count (overlaid (tables_in (arc_value tables).items) writes.now) ≤ live_row_limit }
    ensures written { IfOk result (λ after. tables_in (arc_value after.0).items ≡
        overlaid (tables_in (arc_value tables).items) writes.now) }
    ensures counted { IfOk result (λ after. after.1 ≡ row_count (tables_in (arc_value after.0).items)) }
{
    let list = own(alloc, tables)?;
    let list = write_tables(alloc, list, writes)?;
    let count = count_rows(list.as_slice());
    match Arc::new(alloc, list) {
        Ok(tables) => Ok((tables, count)),
        Err(_) => Err(NoMemory),
    }
}

impl Rows for Tables {
    ghost tables = { λ t. t.tables };

    fn get(&self, key: &Key) -> Option<&Row> {
        match self.table(key.table) {
            None => None,
            Some(table) => table.get(&key.values),
        }
    }

    fn owner(&self, key: &Key) -> Option<&Row> {
        match self.table(key.table) {
            None => None,
            Some(table) => table.owner(key),
        }
    }
}
